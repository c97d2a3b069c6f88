// A trailer written in the order of its run: its checksum stands first, so the entries are gone through once for the
// sum and once to be put.

ghost use Rattle.std.specs.Prelude.{◌≡◌, ◌++◌, ◌+◌, ◌-◌, ◌≤◌, ◌^◌, length};
ghost use Rattle.numbers.specs.LittleEndian.{le_bytes};
ghost use Rattle.checksum.specs.Checksum.{crc_from};
ghost use Rattle.rules.specs.Stores.{stores_of};
ghost use Rattle.rules.specs.Trailer.{entry_bytes};
ghost use Rattle.stores.specs.Runs.{Made};

use rules::Entry;

// The checksum's register after the count.
pub fn sum_count(count: u64) -> u32
    ensures { result ≡ crc_from (2 ^ 32 - 1) (le_bytes 8 count) }
{
    checksum::feed_number(0xffff_ffff, 8, count)
}

// The register after one entry more.
pub fn sum_entry(register: u32, e: Entry) -> u32
    ensures { result ≡ crc_from register (entry_bytes e) }
{
    let behind_id = checksum::feed_number(register, 8, e.id);
    checksum::feed_number(behind_id, 8, e.location)
}

// The checksum, where the register is the one after the last entry.
pub fn sum_end(register: u32) -> u32
    ensures { result ≡ 2 ^ 32 - 1 - register }
{
    !register
}

// "checksum 4 ..; entry count 8", from `at` on, as far as `left` stores reach.
pub fn put_head(heap: &mut [u8], at: usize, sum: u32, count: u64, left: u64) -> u64
    requires { at + 12 ≤ length heap.old }
    ensures { Made left (stores_of at (le_bytes 4 sum ++ le_bytes 8 count)) heap.old heap.new result }
{
    let behind = stores::put_number(heap, at, 4, sum as u64, left);
    stores::put_number(heap, at + 4, 8, count, behind)
}

// "per entry id 8 and raw relative location 8", likewise.
pub fn put_entry(heap: &mut [u8], at: usize, e: Entry, left: u64) -> u64
    requires { at + 16 ≤ length heap.old }
    ensures { Made left (stores_of at (entry_bytes e)) heap.old heap.new result }
{
    let behind = stores::put_number(heap, at, 8, e.id, left);
    stores::put_number(heap, at + 8, 8, e.location, behind)
}
