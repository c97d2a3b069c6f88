// A file's trailer: its entries by number from the lent bytes, and the tests 9 to 12 on any bytes.

#![tactic(auto)]

pub mod write;

ghost use Rattle.std.specs.Prelude.{◌≡◌, ◌+◌, ◌*◌, ◌≤◌, ◌<◌, length, get_or};
ghost use Rattle.rules.specs.Refusal.{decide};
ghost use Rattle.rules.specs.Base.{any};
ghost use Rattle.rules.specs.Trailer.{count_in, trailer_tests, entries_in, misplaced};
ghost use Rattle.rules.specs.Table.{no_entry};

use disk_location::RelativeDiskLocation;
use numbers::little_endian;
use rules::{Entry, OBJECT_HEADER, Refusal, TRAILER_ENTRY, TRAILER_HEAD, TRAILER_LEAST};

// "entry count 8"
pub fn count(trailer: &[u8]) -> u64
    requires { 12 ≤ length trailer.now }
    ensures { result ≡ count_in trailer.now }
{
    little_endian::get(&trailer[4..], 8)
}

// "trailer (9, 10, 11)": a count is only held against the room, so that no product of it can wrap.
pub fn check(trailer: &[u8]) -> Result<(), Refusal>
    ensures { result ≡ decide (trailer_tests trailer.now) }
{
    if trailer.len() < TRAILER_LEAST {
        return Err(Refusal::TrailerShort);
    }
    let stored = little_endian::get(trailer, 4);
    let sum = checksum::sum(&trailer[4..]) as u64;
    if stored != sum {
        return Err(Refusal::Checksum);
    }
    let n = count(trailer);
    let room = ((trailer.len() - TRAILER_HEAD) / TRAILER_ENTRY) as u64;
    if room < n {
        return Err(Refusal::EntryCount);
    }
    Ok(())
}

// Entry k, from the bytes: no list is built.
pub fn entry(trailer: &[u8], k: u64) -> Entry
    requires k_bound { k < count_in trailer.now }
    requires trailer_in_bounds { 12 + 16 * count_in trailer.now ≤ length trailer.now }
    ensures { result ≡ get_or (entries_in trailer.now) k no_entry }
{
    let at = TRAILER_HEAD + TRAILER_ENTRY * (k as usize);
    let id = little_endian::get(&trailer[at..], 8);
    let mid = at + 8;
    let location = little_endian::get(&trailer[mid..], 8);
    Entry {
        id: id,
        location: location,
    }
}

// "12 entry position over T", of one entry: an object's header must end at or before T. A position is below 2^63, so no sum wraps.
pub fn misplaced(e: Entry, offset: u64) -> bool
    ensures { result ≡ misplaced offset e }
{
    let relative = RelativeDiskLocation(e.location);
    let position = relative.position();
    let header_end = position + OBJECT_HEADER as u64;
    if relative.is_delete() {
        return offset < position;
    }
    offset < header_end
}

// 12, of all.
pub fn some_misplaced(trailer: &[u8], offset: u64) -> bool
    requires { 12 + 16 * count_in trailer.now ≤ length trailer.now }
    ensures { result ≡ any (misplaced offset) (entries_in trailer.now) }
{
    for k in 0..count(trailer) {
        if misplaced(entry(trailer, k), offset) {
            return true;
        }
    }
    false
}
