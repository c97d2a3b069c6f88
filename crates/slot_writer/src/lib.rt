// A file's objects and its label, written straight into the heap as far as `left` stores reach. The run of a file is
// its objects, its trailer (crate trailer), label bytes 2 to 64, label byte 1.

#![tactic(auto)]

pub mod label;

ghost use Rattle.std.specs.Prelude.{◌++◌, ◌+◌, ◌≤◌, length};
ghost use Rattle.numbers.specs.LittleEndian.{le_bytes};
ghost use Rattle.rules.specs.Object.{object_bytes};
ghost use Rattle.rules.specs.Stores.{stores_of};
ghost use Rattle.stores.specs.Runs.{Made};

use rules::{LENGTH_AT, OBJECT_HEADER};

// "checksum 4, id 8, length 8"
fn put_header(heap: &mut [u8], at: usize, sum: u32, id: u64, size: u64, left: u64) -> u64
    requires { at + 20 ≤ length heap.old }
    ensures { Made left (stores_of at ((le_bytes 4 sum ++ le_bytes 8 id) ++ le_bytes 8 size))
        heap.old heap.new result }
{
    let behind_sum = stores::put_number(heap, at, 4, sum as u64, left);
    let behind_id = stores::put_number(heap, at + 4, 8, id, behind_sum);
    stores::put_number(heap, at + LENGTH_AT, 8, size, behind_id)
}

// An object whose body is a piece of another buffer, from `at` on.
pub fn put_object(heap: &mut [u8], at: usize, id: u64, body: &[u8], left: u64) -> u64
    requires { at + (20 + length body.now) ≤ length heap.old }
    ensures { Made left (stores_of at (object_bytes id body.now)) heap.old heap.new result }
{
    let sum = checksum::object_sum(id, body);
    let behind = put_header(heap, at, sum, id, body.len() as u64, left);
    stores::put_bytes(heap, at + OBJECT_HEADER, body, behind)
}
