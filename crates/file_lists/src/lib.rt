// The lsns and the live counts of the records as flat lists: the lookup of a file, and a live lost.

#![tactic(auto)]

ghost use Rattle.std.specs.Prelude.{◌≡◌, ℕ, ◌<◌, length, Some};
ghost use Rattle.file_lists.specs.Lists.{lsn_at, less_at};

// "the file with the greatest own location not above the one sought, the lowest slot of equals":
// a file's own raw location is twice its lsn, the batch bit in it.
pub fn lsn_at(lsns: &[u64], location: u64) -> Option<u64>
    ensures { result ≡ lsn_at lsns.now location }
{
    let mut best: u64 = 0;
    let mut slot = None;
    for (i, &lsn) in lsns.iter().enumerate() {
        if best < lsn && lsn <= location / 2 {
            best = lsn;
            slot = Some(i as u64);
        }
    }
    slot
}

// "loses one live (0 stays 0, and a location with no file takes none)"
pub fn less_at(lives: &mut [u64], slot: Option<u64>)
    requires { (k : ℕ) → slot ≡ Some k → k < length lives.old }
    ensures { lives.new ≡ less_at slot lives.old }
{
    if let Some(k) = slot {
        let i = k as usize;
        if lives[i] != 0 {
            lives[i] -= 1;
        }
    }
}
