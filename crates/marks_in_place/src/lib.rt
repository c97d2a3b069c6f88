// "The host lends its list of file records and asks how many aren't synced, then has them marked": on the list itself, lent.
// The answer is the paper's number, 0 for success, and one value.

#![tactic(auto)]

ghost use Rattle.std.specs.Prelude.{◌≡◌, [], ◌∷◌, ltb};
ghost use Rattle.rules.specs.Sync.{unsynced_call, sync_call};
ghost use Rattle.as_numbers.specs.Shown.{given, shown};

use as_numbers::answers::One;
use record_marks::{count, mark};
use rules::{RECORDS, Record};

// "a list longer than 256"
fn too_long(len: usize) -> bool
    ensures { result ≡ ltb 256 len }
{
    RECORDS < len
}

// "1 for a list longer than 256"
const REFUSED: One = One {
    number: 1,
    value: 0,
};

// "asks how many aren't synced"
pub fn unsynced(list: &[Record]) -> One
    ensures { given result.number (result.value ∷ []) ≡ shown 1 (unsynced_call list.now) }
{
    if too_long(list.len()) {
        return REFUSED;
    }
    One {
        number: 0,
        value: count(list),
    }
}

// "then has them marked. Sync gives whether any mark changed": 1 for yes, 0 for no.
pub fn sync(list: &mut [Record]) -> One
    ensures { (given result.number (result.value ∷ []) ≡ shown 1 (sync_call list.old).answer)
        × (list.new ≡ (sync_call list.old).records) }
{
    if too_long(list.len()) {
        return REFUSED;
    }
    let changed = mark(list);
    One {
        number: 0,
        value: u64::from(changed),
    }
}
