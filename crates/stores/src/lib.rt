// The first stores of a run: a writer is given how many stores may still be made, makes no more, and answers how many are left.

#![tactic(auto)]

ghost use Rattle.std.specs.Prelude.{◌≡◌, ◌⊎◌, ◌+◌, ◌≤◌, min, length, take, drop};
ghost use Rattle.numbers.specs.LittleEndian.{le_bytes};
ghost use Rattle.rules.specs.Stores.{stores_of};
ghost use Rattle.stores.specs.Runs.{Made};

use numbers::little_endian;

fn lesser(a: usize, b: u64) -> usize
    ensures { result ≡ min a b }
{
    b.min(a as u64) as usize
}

// x in n bytes, low byte first, from `at` on.
pub fn put_number(heap: &mut [u8], at: usize, n: usize, x: u64, left: u64) -> u64
    requires { at + n ≤ length heap.old }
    ensures { Made left (stores_of at (le_bytes n x)) heap.old heap.new result }
{
    let many = lesser(n, left);
    little_endian::put(&mut heap[at..], many, x);
    left - many as u64
}

// Bytes of another buffer, from `at` on.
pub fn put_bytes(heap: &mut [u8], at: usize, from: &[u8], left: u64) -> u64
    requires { at + length from.now ≤ length heap.old }
    ensures { Made left (stores_of at from.now) heap.old heap.new result }
{
    let many = lesser(from.len(), left);
    byte_parts::copy(&from[..many], &mut heap[at..]);
    left - many as u64
}

// n bytes of the heap itself, from `at` on; where they overlap, they lie behind.
pub fn move_bytes(heap: &mut [u8], at: usize, from: usize, n: usize, left: u64) -> u64
    requires { (at + n ≤ length heap.old) × (from + n ≤ length heap.old) × ((at ≤ from) ⊎ (from + n ≤ at)) }
    ensures { Made left (stores_of at (take n (drop from heap.old))) heap.old heap.new result }
{
    let many = lesser(n, left);
    // Kept: a loop from the first byte on, since the library's move within a slice goes down where the target lies above.
    for i in 0..many {
        heap[at + i] = heap[from + i];
    }
    left - many as u64
}
