// The file of a batch, straight into the heap: objects and trailer by walks over the operations that count, then the label.
// Each writer makes as many stores of the file's run as `left` reaches, and answers how many are left.

#![tactic(auto)]

ghost use Rattle.std.specs.Prelude.{◌≡◌, ◌+◌, ◌*◌, ◌≤◌, ◌<◌, ◌^◌, length};
ghost use Rattle.checksum.specs.Checksum.{crc32};
ghost use Rattle.rules.specs.Base.{each};
ghost use Rattle.rules.specs.Ops.{content_bytes, objects_of, entries_of, file_bytes, settled};
ghost use Rattle.rules.specs.Label.{label_bytes};
ghost use Rattle.rules.specs.Trailer.{entry_bytes, listed, trailer_bytes};
ghost use Rattle.rules.specs.Stores.{stores_of, file_stores};
ghost use Rattle.stores.specs.Runs.{Made};
ghost use Rattle.batch.specs.Reading.{op_in, ops_in};
ghost use Rattle.batch.specs.Sizes.{size_in};
ghost use Rattle.batch.specs.Walk.{Begins};
ghost use Rattle.batch_file.specs.Steps.{entry_in, Sized};

use batch::{Cursor, Operation, size_of};
use disk_location::RelativeDiskLocation;
use rules::{Entry, LABEL_BYTES, Label, OBJECT_HEADER, TRAILER_ENTRY, TRAILER_HEAD};
use trailer::write;

// "A delete's relative position is the object bytes before it", and an object's too.
pub fn entry_of(o: Operation, position: u64) -> Entry
    requires { position < 2 ^ 63 }
    ensures { result ≡ entry_in position o }
{
    let location = RelativeDiskLocation::new(position, o.delete);
    Entry {
        id: o.id,
        location: disk_location::relative_raw(location),
    }
}

// An operation's object, its body a piece of the batch. "Deletes have no object bytes."
fn put_content(file: &mut [u8], at: usize, batch: &[u8], o: Operation, left: u64) -> u64
    requires o_in_bounds { at + size_in o ≤ length file.old }
    requires len_in_bounds { o.start + o.len ≤ length batch.now }
    ensures { Made left (stores_of at (content_bytes o.id (op_in batch.now o).content))
        file.old file.new result }
{
    if o.delete {
        return left;
    }
    let start = o.start;
    let end = start + o.len;
    slot_writer::put_object(file, at, o.id, &batch[start..end], left)
}

// What is left behind the objects: stores, and the trailer's checksum.
#[derive(Clone, Copy)]
struct Objects {
    left: u64,
    checksum: u32,
}

// The object bytes, ids ascending. "checksum 4, over all that follows it": the count and the entries, which stand behind it, so that it is
// taken here.
fn put_objects(
    file: &mut [u8],
    order: &mut [u64],
    batch: &[u8],
    begin: Cursor,
    count: u64,
    left: u64,
) -> Objects
    requires { (length order.old ≡ 1024)
        × Begins batch.now order.old begin
        × (count ≡ length (settled (ops_in batch.now)))
        × (length (objects_of (settled (ops_in batch.now))) ≤ length file.old)
        × (length (objects_of (settled (ops_in batch.now))) < 2 ^ 62) }
    ensures made { Made left (stores_of 0 (objects_of (settled (ops_in batch.now))))
        file.old file.new result.left }
    ensures summed { result.checksum ≡ crc32 (listed (entries_of 0 (settled (ops_in batch.now)))) }
    ensures again { Begins batch.now order.new begin }
{
    let mut register = write::sum_count(count);
    let mut rest = left;
    let mut at: u64 = 0;
    let mut cursor = begin;
    while let Some((o, after)) = batch::next(order, batch, cursor) {
        register = write::sum_entry(register, entry_of(o, at));
        rest = put_content(file, at as usize, batch, o, rest);
        at += size_of(o);
        cursor = after;
    }
    Objects {
        left: rest,
        checksum: write::sum_end(register),
    }
}

// The entries, from `at` on.
fn put_entries(
    file: &mut [u8],
    at: usize,
    order: &mut [u64],
    batch: &[u8],
    begin: Cursor,
    left: u64,
) -> u64
    requires { (length order.old ≡ 1024)
        × Begins batch.now order.old begin
        × (at + 16 * length (settled (ops_in batch.now)) ≤ length file.old)
        × (length (objects_of (settled (ops_in batch.now))) < 2 ^ 62) }
    ensures { Made left (stores_of at (each entry_bytes (entries_of 0 (settled (ops_in batch.now)))))
        file.old file.new result }
{
    let mut rest = left;
    let mut place = at;
    let mut position: u64 = 0;
    let mut cursor = begin;
    while let Some((o, after)) = batch::next(order, batch, cursor) {
        rest = write::put_entry(file, place, entry_of(o, position), rest);
        place += TRAILER_ENTRY;
        position += size_of(o);
        cursor = after;
    }
    rest
}

// The trailer, from `at` on.
fn put_trailer(
    file: &mut [u8],
    at: usize,
    order: &mut [u64],
    batch: &[u8],
    begin: Cursor,
    checksum: u32,
    count: u64,
    left: u64,
) -> u64
    requires { (length order.old ≡ 1024)
        × Begins batch.now order.old begin
        × (checksum ≡ crc32 (listed (entries_of 0 (settled (ops_in batch.now)))))
        × (count ≡ length (settled (ops_in batch.now)))
        × (at + (12 + 16 * count) ≤ length file.old)
        × (length (objects_of (settled (ops_in batch.now))) < 2 ^ 62) }
    ensures { Made left (stores_of at (trailer_bytes (entries_of 0 (settled (ops_in batch.now)))))
        file.old file.new result }
{
    let rest = write::put_head(file, at, checksum, count, left);
    put_entries(file, at + TRAILER_HEAD, order, batch, begin, rest)
}

// The whole file, in the heap's part behind its slot's label: the objects, then the trailer.
fn put_file(
    file: &mut [u8],
    order: &mut [u64],
    batch: &[u8],
    begin: Cursor,
    count: u64,
    total: u64,
    left: u64,
) -> u64
    requires order_len { (length order.old ≡ 1024) × Begins batch.now order.old begin }
    requires sized { Sized batch.now count total }
    requires batch_in_bounds { length (file_bytes (settled (ops_in batch.now))) ≤ length file.old }
    ensures { Made left (stores_of 0 (file_bytes (settled (ops_in batch.now)))) file.old file.new result }
{
    let objects = put_objects(file, order, batch, begin, count, left);
    put_trailer(
        file,
        total as usize,
        order,
        batch,
        begin,
        objects.checksum,
        count,
        objects.left,
    )
}

// A file and its label, which says its count of entries and T, into the slot that begins at `start`, in the order of the file's run.
pub fn write_file(
    heap: &mut [u8],
    start: usize,
    order: &mut [u64],
    batch: &[u8],
    begin: Cursor,
    new: Label,
    k: u64,
) -> u64
    requires order_len { (length order.old ≡ 1024) × Begins batch.now order.old begin }
    requires sized { Sized batch.now new.present_objects new.trailer_offset }
    requires batch_in_bounds { start + (64 + length (file_bytes (settled (ops_in batch.now)))) ≤ length heap.old }
    ensures { Made k (file_stores start (label_bytes new) (file_bytes (settled (ops_in batch.now))))
        heap.old heap.new result }
{
    let behind_label = start + LABEL_BYTES;
    let count = new.present_objects;
    let total = new.trailer_offset;
    let rest = put_file(
        &mut heap[behind_label..],
        order,
        batch,
        begin,
        count,
        total,
        k,
    );
    slot_writer::label::put(heap, start, new, rest)
}
