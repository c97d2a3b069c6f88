ghost use Rattle.std.specs.Prelude.{◌≡◌, true, false, ◌+◌, ◌*◌, ◌^◌, ◌≤◌, ◌<◌, MatchOption, length, take, drop};
ghost use Rattle.rules.specs.Base.{any, each};
ghost use Rattle.rules.specs.Object.{stored_at, bad_checksum, objects_in};
ghost use Rattle.rules.specs.Trailer.{count_in, entries_in};
ghost use Rattle.stored_object.specs.Objects.{Walked};
ghost use Rattle.faults.specs.Faults.{object_faults};
ghost use Rattle.file_faults.specs.Telling.{Tells};
ghost use Rattle.file_faults.specs.Walks.{entered_as, object_lines};

use crate::tell::{at_object, note, note_if};
use disk_location::RelativeDiskLocation;
use rules::{Entry, OBJECT_HEADER, Refusal};
use stored_object::{Header, Step, object};

// An "object entry of its id at that position".
fn stands(e: Entry, id: u64, position: u64) -> bool
    ensures { result ≡ entered_as id position e }
{
    let location = RelativeDiskLocation(e.location);
    if e.id != id {
        return false;
    }
    if location.is_delete() {
        return false;
    }
    location.position() == position
}

// The first such entry from one number on and before another.
fn find(trailer: &[u8], from: u64, to: u64, id: u64, position: u64) -> Option<u64>
    requires { (from ≤ to) × (to ≤ count_in trailer.now) × (12 + 16 * count_in trailer.now ≤ length trailer.now) }
    ensures { MatchOption result (any (entered_as id position) (drop from (take to (entries_in trailer.now))) ≡ false)
        (λ k. (k < to) × (any (entered_as id position) (drop from (take to (entries_in trailer.now))) ≡ true)) }
{
    for k in from..to {
        if stands(trailer::entry(trailer, k), id, position) {
            return Some(k);
        }
    }
    None
}

// One in the whole trailer: from a cursor to the end, then from the front to the cursor.
fn seek(trailer: &[u8], cursor: u64, id: u64, position: u64) -> Option<u64>
    requires cursor_bound { cursor ≤ count_in trailer.now }
    requires trailer_in_bounds { 12 + 16 * count_in trailer.now ≤ length trailer.now }
    ensures { MatchOption result (any (entered_as id position) (entries_in trailer.now) ≡ false)
        (λ k. (k < count_in trailer.now) × (any (entered_as id position) (entries_in trailer.now) ≡ true)) }
{
    let n = trailer::count(trailer);
    find(trailer, cursor, n, id, position).or_else(|| find(trailer, 0, cursor, id, position))
}

// A walked object: "10 for a bad checksum and then 17 for no object entry of its id at that position".
fn object_line(
    listing: &mut [u64],
    count: u64,
    slot: u64,
    objects: &[u8],
    position: u64,
    h: Header,
    missing: bool,
) -> u64
    requires walked { Walked objects.now position h }
    requires size_bound { 20 + h.size ≤ h.room }
    requires count_bound { count + 2 < 2 ^ 64 }
    ensures { Tells count
        (object_lines slot position (bad_checksum (stored_at position (drop position objects.now))) missing)
        listing.old listing.new result }
{
    let bad = object::bad_checksum(objects, position, h);
    let sum = at_object(slot, Refusal::Checksum, position);
    let id = at_object(slot, Refusal::OtherId, position);
    let told = note_if(listing, count, bad, sum);
    note_if(listing, told, missing, id)
}

// "the objects are walked from 0 by their lengths .. one whose header or body passes T gives 16 alone and ends the walk"
pub fn object_lines(
    listing: &mut [u64],
    count: u64,
    slot: u64,
    objects: &[u8],
    trailer: &[u8],
) -> u64
    requires trailer_in_bounds { 12 + 16 * count_in trailer.now ≤ length trailer.now }
    requires objects_bound { count + length (each (object_faults slot (entries_in trailer.now)) (objects_in objects.now)) + 2 < 2 ^ 64 }
    ensures { Tells count (each (object_faults slot (entries_in trailer.now)) (objects_in objects.now))
        listing.old listing.new result }
{
    let mut told = count;
    let mut position: u64 = 0;
    let mut cursor: u64 = 0;
    loop {
        match object::step(objects, position) {
            Step::End => return told,
            Step::HeaderCut => {
                return note(listing, told, at_object(slot, Refusal::CutShort, position));
            }
            Step::Here(h) => {
                if h.room - (OBJECT_HEADER as u64) < h.size {
                    return note(listing, told, at_object(slot, Refusal::CutShort, position));
                }
                let found = seek(trailer, cursor, h.id, position);
                told = object_line(listing, told, slot, objects, position, h, found.is_none());
                if let Some(k) = found {
                    cursor = k + 1;
                }
                position += OBJECT_HEADER as u64 + h.size;
            }
        }
    }
}
