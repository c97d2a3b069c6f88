ghost use Rattle.std.specs.Prelude.{◌≡◌, [], ◌∷◌, ◌+◌, ◌^◌, ◌<◌, ◌≤◌, length};
ghost use Rattle.numbers.specs.Parts.{put_at};
ghost use Rattle.faults.specs.Types.{Nowhere, Object};
ghost use Rattle.faults.specs.Faults.{line, line_if, line_words};
ghost use Rattle.file_faults.specs.Telling.{Tells};

use as_numbers::answers::refusal_number;
use faults::Fault;
use rules::Refusal;

pub fn nowhere(slot: u64, refusal: Refusal) -> Fault
    ensures { result ≡ line slot refusal Nowhere }
{
    Fault {
        slot: slot,
        refusal: refusal,
        place: None,
    }
}

pub fn at_object(slot: u64, refusal: Refusal, position: u64) -> Fault
    ensures { result ≡ line slot refusal (Object position) }
{
    Fault {
        slot: slot,
        refusal: refusal,
        place: Some(position),
    }
}

// A line's four words: whether there is a position, and which, are the last two.
fn put_line(listing: &mut [u64], at: usize, x: Fault)
    requires { at + 4 ≤ length listing.old }
    ensures { listing.new ≡ put_at listing.old at (line_words x) }
{
    let words = [
        x.slot,
        refusal_number(x.refusal),
        u64::from(x.place.is_some()),
        x.place.unwrap_or(0),
    ];
    listing[at..at + 4].copy_from_slice(&words);
}

// One more line, which is stored where the listing has room for it and counted in any case.
pub fn note(listing: &mut [u64], count: u64, x: Fault) -> u64
    requires { count + 1 < 2 ^ 64 }
    ensures { Tells count (x ∷ []) listing.old listing.new result }
{
    let room = (listing.len() / 4) as u64;
    if room <= count {
        return count + 1;
    }
    put_line(listing, 4 * count as usize, x);
    count + 1
}

// A line where its condition holds.
pub fn note_if(listing: &mut [u64], count: u64, condition: bool, x: Fault) -> u64
    requires { count + 1 < 2 ^ 64 }
    ensures tells { Tells count (line_if condition x) listing.old listing.new result }
    ensures within { result ≤ count + 1 }
{
    if condition {
        return note(listing, count, x);
    }
    count
}
