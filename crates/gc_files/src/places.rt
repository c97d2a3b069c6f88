ghost use Rattle.std.specs.Prelude.{◌≡◌, ◌<◌};
ghost use Rattle.numbers.specs.Choice.{pick};
ghost use Rattle.disk_location.specs.Locations.{shard_of};
ghost use Rattle.gc_files.specs.Places.{moving_at, Whole};

use batch::Operation;
use numbers::little_endian;
use rules::{LENGTH_AT, OBJECT_HEADER};

// The operation on an id at a place: 1 is a delete's, any other an object's, whose length stands behind checksum and id.
pub fn moving_at(heap: &[u8], id: u64, place: u32) -> Operation
    requires place_nonzero { 0 < place }
    requires whole { 1 < place → Whole heap.now place }
    ensures { result ≡ moving_at heap.now id place }
{
    if place == 1 {
        return Operation {
            id: id,
            delete: true,
            start: 0,
            len: 0,
        };
    }
    let at = place as usize;
    let behind_id = at + LENGTH_AT;
    let size = little_endian::get(&heap[behind_id..], 8);
    Operation {
        id: id,
        delete: false,
        start: at + OBJECT_HEADER,
        len: size as usize,
    }
}

// "how many bits the length needs, 0 for length 0 and for a delete"
pub fn shard_of(o: Operation) -> usize
    ensures { result ≡ pick o.delete 0 (shard_of o.len) }
{
    if o.delete {
        return 0;
    }
    disk_location::shard(o.len as u64) as usize
}
