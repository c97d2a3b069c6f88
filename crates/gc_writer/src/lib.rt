// The file of one piece of a group, straight from the old places of its objects into a slot: walks along the chain of its entries.
// Each writer makes as many stores of the file's run as `left` reaches, and answers how many are left.

#![tactic(auto)]

ghost use Rattle.std.specs.Prelude.{◌⊎◌, ◌≡◌, ◌+◌, ◌*◌, ◌≤◌, ◌<◌, ◌^◌, length};
ghost use Rattle.checksum.specs.Checksum.{crc32};
ghost use Rattle.rules.specs.Base.{false, each};
ghost use Rattle.rules.specs.Ops.{content_bytes, objects_of, entries_of, file_bytes};
ghost use Rattle.rules.specs.Label.{label_bytes};
ghost use Rattle.rules.specs.Layout.{table_ids};
ghost use Rattle.rules.specs.Trailer.{entry_bytes, listed, trailer_bytes};
ghost use Rattle.rules.specs.Stores.{stores_of, file_stores};
ghost use Rattle.stores.specs.Runs.{Made};
ghost use Rattle.batch.specs.Reading.{op_in};
ghost use Rattle.batch.specs.Sizes.{size_in};
ghost use Rattle.gc_chains.specs.Chains.{Leads};
ghost use Rattle.gc_writer.specs.Walk.{Walking, Turned, piece_ops};
ghost use Rattle.gc_writer.specs.Writing.{Free, Movable, Writing};

use batch::{Operation, size_of};
use batch_file::entry_of;
use gc_files::places::moving_at;
use location_table::id_at;
use rules::{LABEL_BYTES, Label, OBJECT_HEADER, TRAILER_ENTRY, TRAILER_HEAD};
use trailer::write;

// How many entries a piece has, and T, its object bytes.
#[derive(Clone, Copy)]
pub struct Sizes {
    pub count: u64,
    pub total: u64,
}

// A turn of a walk: the operation, its object's size, and the next entry of the piece. Entries are counted from 1 on; 0 is none.
#[derive(Clone, Copy)]
struct Turn {
    operation: Operation,
    size: u64,
    next: u32,
}

// The operation of an entry of a piece, and where the walk goes on.
fn turn_at(heap: &[u8], table: &[u64], places: &[u32], links: &[u32], i: u32) -> Turn
    requires walking { Walking heap.now (table_ids table.now) places.now links.now }
    requires i_nonzero { 0 < i }
    requires leads { Leads (length (table_ids table.now)) places.now 0 i }
    ensures { Turned heap.now (table_ids table.now) places.now links.now i
        result.operation result.size result.next }
{
    let k = i as usize - 1;
    let id = id_at(table, k);
    let o = moving_at(heap, id, places[k]);
    let size = size_of(o);
    Turn {
        operation: o,
        size: size,
        next: links[k],
    }
}

// The sizes of a piece's file.
pub fn sized(heap: &[u8], table: &[u64], places: &[u32], links: &[u32], first: u32) -> Sizes
    requires walking { Walking heap.now (table_ids table.now) places.now links.now }
    requires leads { Leads (length (table_ids table.now)) places.now 0 first }
    requires table_len_bound { length (table_ids table.now) ≤ 65536 }
    ensures count { result.count ≡ length (piece_ops first heap.now table.now places.now links.now) }
    ensures total { result.total
        ≡ length (objects_of (piece_ops first heap.now table.now places.now links.now)) }
{
    let mut count: u64 = 0;
    let mut total: u64 = 0;
    let mut i = first;
    while i != 0 {
        let t = turn_at(heap, table, places, links, i);
        count += 1;
        total += t.size;
        i = t.next;
    }
    Sizes {
        count: count,
        total: total,
    }
}

// An operation's object, copied as it stands in the heap: its checksum was found right. "Deletes have no object bytes."
fn put_content(heap: &mut [u8], at: usize, o: Operation, left: u64) -> u64
    requires o_in_bounds { (at + size_in o ≤ length heap.old)
        × (o.start + o.len ≤ length heap.old)
        × ((at + size_in o ≤ o.start) ⊎ (o.start + o.len ≤ at)) }
    requires movable { o.delete ≡ false → Movable heap.old o }
    ensures { Made left (stores_of at (content_bytes o.id (op_in heap.old o).content))
        heap.old heap.new result }
{
    if o.delete {
        return left;
    }
    stores::move_bytes(
        heap,
        at,
        o.start - OBJECT_HEADER,
        OBJECT_HEADER + o.len,
        left,
    )
}

// What is left behind the objects: stores, and the trailer's checksum.
#[derive(Clone, Copy)]
struct Objects {
    left: u64,
    checksum: u32,
}

// The object bytes, ids ascending, from `at` on. "checksum 4, over all that follows it": the count and the entries, which stand behind
// it, so that it is taken here.
fn put_objects(
    heap: &mut [u8],
    at: usize,
    table: &[u64],
    places: &[u32],
    links: &[u32],
    first: u32,
    count: u64,
    left: u64,
) -> Objects
    requires free { Free at (length (objects_of (piece_ops first heap.old table.now places.now links.now)))
        heap.old (table_ids table.now) places.now links.now }
    requires leads { Leads (length (table_ids table.now)) places.now 0 first }
    requires count_value { count ≡ length (piece_ops first heap.old table.now places.now links.now) }
    requires links_len_bound { length (objects_of (piece_ops first heap.old table.now places.now links.now)) < 2 ^ 62 }
    ensures made { Made left
        (stores_of at (objects_of (piece_ops first heap.old table.now places.now links.now)))
        heap.old heap.new result.left }
    ensures summed { result.checksum
        ≡ crc32 (listed (entries_of 0 (piece_ops first heap.old table.now places.now links.now))) }
{
    let mut register = write::sum_count(count);
    let mut rest = left;
    let mut to = at;
    let mut position: u64 = 0;
    let mut i = first;
    while i != 0 {
        let t = turn_at(heap, table, places, links, i);
        let e = entry_of(t.operation, position);
        register = write::sum_entry(register, e);
        rest = put_content(heap, to, t.operation, rest);
        to += t.size as usize;
        position += t.size;
        i = t.next;
    }
    Objects {
        left: rest,
        checksum: write::sum_end(register),
    }
}

// The entries, from `at` on.
fn put_entries(
    heap: &mut [u8],
    at: usize,
    table: &[u64],
    places: &[u32],
    links: &[u32],
    first: u32,
    left: u64,
) -> u64
    requires free { Free at (16 * length (piece_ops first heap.old table.now places.now links.now))
        heap.old (table_ids table.now) places.now links.now }
    requires leads { Leads (length (table_ids table.now)) places.now 0 first }
    requires links_len_bound { length (objects_of (piece_ops first heap.old table.now places.now links.now)) < 2 ^ 62 }
    ensures { Made left
        (stores_of at (each entry_bytes (entries_of 0 (piece_ops first heap.old table.now places.now links.now))))
        heap.old heap.new result }
{
    let mut rest = left;
    let mut to = at;
    let mut position: u64 = 0;
    let mut i = first;
    while i != 0 {
        let t = turn_at(heap, table, places, links, i);
        let e = entry_of(t.operation, position);
        rest = write::put_entry(heap, to, e, rest);
        to += TRAILER_ENTRY;
        position += t.size;
        i = t.next;
    }
    rest
}

// The trailer, from `at` on.
fn put_trailer(
    heap: &mut [u8],
    at: usize,
    table: &[u64],
    places: &[u32],
    links: &[u32],
    first: u32,
    count: u64,
    objects: Objects,
) -> u64
    requires free { Free at (12 + 16 * count) heap.old (table_ids table.now) places.now links.now }
    requires leads { Leads (length (table_ids table.now)) places.now 0 first }
    requires count_value { count ≡ length (piece_ops first heap.old table.now places.now links.now) }
    requires checksum_value { objects.checksum ≡ crc32 (listed (entries_of 0 (piece_ops first heap.old table.now places.now links.now))) }
    requires links_len_bound { length (objects_of (piece_ops first heap.old table.now places.now links.now)) < 2 ^ 62 }
    ensures { Made objects.left
        (stores_of at (trailer_bytes (entries_of 0 (piece_ops first heap.old table.now places.now links.now))))
        heap.old heap.new result }
{
    let rest = write::put_head(heap, at, objects.checksum, count, objects.left);
    put_entries(heap, at + TRAILER_HEAD, table, places, links, first, rest)
}

// The file of a piece: the piece's first entry and its sizes, where its slot begins and how long that is.
#[derive(Clone, Copy)]
pub struct PieceFile {
    pub first: u32,
    pub start: usize,
    pub slot_bytes: u64,
    pub sizes: Sizes,
}

// Such a file and its label into its slot, in the order of the file's run.
pub fn write_piece(
    heap: &mut [u8],
    table: &[u64],
    places: &[u32],
    links: &[u32],
    file: PieceFile,
    new: Label,
    k: u64,
) -> u64
    requires { Writing file.start file.slot_bytes
        heap.old (table_ids table.now) places.now links.now file.first file.sizes.count file.sizes.total }
    ensures { Made k (file_stores file.start (label_bytes new)
        (file_bytes (piece_ops file.first heap.old table.now places.now links.now)))
        heap.old heap.new result }
{
    let start = file.start + LABEL_BYTES;
    let objects = put_objects(
        heap,
        start,
        table,
        places,
        links,
        file.first,
        file.sizes.count,
        k,
    );
    let trailer = start + file.sizes.total as usize;
    let behind_trailer = put_trailer(
        heap,
        trailer,
        table,
        places,
        links,
        file.first,
        file.sizes.count,
        objects,
    );
    slot_writer::label::put(heap, file.start, new, behind_trailer)
}
