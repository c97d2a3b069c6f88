ghost use Rattle.std.specs.Prelude.{◌≡◌, false, not, ◌+◌, ◌*◌, ◌^◌, ◌≤◌, ◌<◌, length};
ghost use Rattle.disk_location.specs.Locations.{position_of, delete_of};
ghost use Rattle.rules.specs.Base.{each};
ghost use Rattle.rules.specs.Trailer.{count_in, entries_in};
ghost use Rattle.faults.specs.Faults.{entry_faults};
ghost use Rattle.file_faults.specs.Telling.{Tells};
ghost use Rattle.file_faults.specs.Walks.{walked_from, meets_one, unmet, Start, Same, Gone};

use crate::tell::{at_object, note_if};
use disk_location::RelativeDiskLocation;
use rules::{Entry, OBJECT_HEADER, Refusal};
use stored_object::{Step, object};

// From one object to the next while they stand before a position; to where one stands, or the walk ends.
fn walk(objects: &[u8], from: u64, position: u64) -> u64
    requires start { Start objects.now from }
    requires same { Same objects.now position from }
    ensures { Gone objects.now position result }
{
    let mut at = from;
    while at < position {
        match object::step(objects, at) {
            Step::End => return at,
            Step::HeaderCut => return at,
            Step::Here(h) => {
                if h.room - (OBJECT_HEADER as u64) < h.size {
                    return at;
                }
                at += OBJECT_HEADER as u64 + h.size;
            }
        }
    }
    at
}

// Whether no walked object of an object entry's id stands at its position, where the walk is.
fn none_here(objects: &[u8], at: u64, e: Entry) -> bool
    requires { (delete_of e.location ≡ false) × (position_of e.location ≡ at) × Gone objects.now (position_of e.location) at }
    ensures { result ≡ not (meets_one e (walked_from objects.now 0)) }
{
    match object::step(objects, at) {
        Step::End => true,
        Step::HeaderCut => true,
        Step::Here(o) => {
            if o.room - (OBJECT_HEADER as u64) < o.size {
                return true;
            }
            e.id != o.id
        }
    }
}

// Where the walk goes for an entry: on from where it is, or from the front again where the entry's position lies before that. A delete
// is not looked for.
fn walk_for(objects: &[u8], from: u64, e: Entry) -> u64
    requires { Start objects.now from }
    ensures start { Start objects.now result }
    ensures gone { delete_of e.location ≡ false → Gone objects.now (position_of e.location) result }
{
    let location = RelativeDiskLocation(e.location);
    if location.is_delete() {
        return from;
    }
    let position = location.position();
    if position < from {
        return walk(objects, 0, position);
    }
    walk(objects, from, position)
}

// Whether an entry is an object's and no walked object of its id stands at its position, where the walk went for it.
fn unmet(objects: &[u8], at: u64, e: Entry) -> bool
    requires { delete_of e.location ≡ false → Gone objects.now (position_of e.location) at }
    ensures { result ≡ unmet objects.now e }
{
    let location = RelativeDiskLocation(e.location);
    if location.is_delete() {
        return false;
    }
    location.position() != at || none_here(objects, at, e)
}

// "17 .. for each object entry at whose position no walked object of its id starts", in entry order.
pub fn entry_lines(
    listing: &mut [u64],
    count: u64,
    slot: u64,
    objects: &[u8],
    trailer: &[u8],
) -> u64
    requires trailer_in_bounds { 12 + 16 * count_in trailer.now ≤ length trailer.now }
    requires trailer_bound { count + length (each (entry_faults slot (walked_from objects.now 0)) (entries_in trailer.now)) + 2 < 2 ^ 64 }
    ensures { Tells count (each (entry_faults slot (walked_from objects.now 0)) (entries_in trailer.now))
        listing.old listing.new result }
{
    let mut told = count;
    let mut at: u64 = 0;
    for k in 0..trailer::count(trailer) {
        let e = trailer::entry(trailer, k);
        at = walk_for(objects, at, e);
        let position = RelativeDiskLocation(e.location).position();
        let x = at_object(slot, Refusal::OtherId, position);
        told = note_if(listing, told, unmet(objects, at, e), x);
    }
    told
}
