// One file of a group of maintenance (`src/gc.rs`) written and added, and what stays as it was for the group's other files.

#![tactic(auto)]

ghost use Rattle.std.specs.Prelude.{◌≡◌, ◌∷◌, ℕ, ◌+◌, ◌*◌, ◌≤◌, ◌<◌, ◌^◌, length};
ghost use Rattle.rules.specs.declared.Claims.{Claims};
ghost use Rattle.rules.specs.Settings.{slots_in};
ghost use Rattle.rules.specs.Ops.{objects_of, file_bytes};
ghost use Rattle.rules.specs.Label.{label_bytes};
ghost use Rattle.rules.specs.FileMap.{empty_slots, lowest_empty};
ghost use Rattle.rules.specs.Stores.{made, file_stores};
ghost use Rattle.rules.specs.Install.{installed};
ghost use Rattle.rules.specs.World.{world};
ghost use Rattle.rules.specs.Layout.{table_ids};
ghost use Rattle.install.specs.Standing.{Addable};
ghost use Rattle.gc_chains.specs.Chains.{Leads};
ghost use Rattle.gc_writer.specs.Walk.{piece_ops};
ghost use Rattle.gc_writer.specs.Writing.{Writing};
ghost use Rattle.gc_install.specs.Placing.{Placing};

use gc_writer::{PieceFile, Sizes};
use install::StoredFile;
use rules::{Label, Settings, State};

// The whole run of the file: it is no longer than the heap.
fn put_piece(
    heap: &mut [u8],
    table: &[u64],
    places: &[u32],
    links: &[u32],
    file: PieceFile,
    new: Label,
)
    requires { Writing file.start file.slot_bytes
        heap.old (table_ids table.now) places.now links.now file.first file.sizes.count file.sizes.total }
    ensures { heap.new ≡ made (file_stores file.start (label_bytes new)
        (file_bytes (piece_ops file.first heap.old table.now places.now links.now)))
        heap.old }
{
    let k = heap.len() as u64;
    gc_writer::write_piece(heap, table, places, links, file, new, k);
}

// What a piece becomes: a file of a generation in a slot. The piece is known by its first entry.
#[derive(Clone, Copy)]
pub struct NewFile {
    pub first: u32,
    pub generation: u64,
    pub slot: usize,
}

// The file of a piece in its slot, then table, live counts, record and next position by the trailer that stands there.
fn add_at(
    settings: Settings,
    state: State,
    heap: &mut [u8],
    table: &mut [u64],
    places: &[u32],
    links: &[u32],
    file: NewFile,
    sizes: Sizes,
) -> State
    requires addable { Addable 0 (piece_ops file.first heap.old table.old places.now links.now)
        settings state heap.old table.old file.slot sizes.count sizes.total }
    requires writing { Writing (file.slot * settings.slot_bytes) settings.slot_bytes
        heap.old (table_ids table.old) places.now links.now file.first sizes.count sizes.total }
    ensures { (c : Claims) → world settings result c heap.new table.new
        ≡ installed 0 file.generation (world settings state c heap.old table.old)
        (piece_ops file.first heap.old table.old places.now links.now) }
{
    // "lsn = base without the batch bit", the new generation
    let base = state.next_position;
    let new = install::new_label(base, sizes.count, sizes.total, file.generation);
    let slot_bytes = settings.slot_bytes;
    let start = file.slot * slot_bytes as usize;
    let written = PieceFile {
        first: file.first,
        start: start,
        slot_bytes: slot_bytes,
        sizes: sizes,
    };
    put_piece(heap, table, places, links, written, new);
    let files = state.files;
    let lsns = file_map::lsns(files);
    let mut lives = file_map::lives(files);
    let stored = StoredFile {
        start: start,
        count: sizes.count,
        total: sizes.total,
        lsn: new.lsn,
    };
    install::install(&lsns, &mut lives, table, heap, stored);
    install::with_file(state, &lives, file.slot, new)
}

// One file of a group, whose operations stand at their places: written into the lowest empty slot and added. The other
// files' operations stay as they are, and so do the other empty slots: the caller has listed them, so that no file goes
// through the records for its slot.
pub fn add_piece(
    settings: Settings,
    state: State,
    heap: &mut [u8],
    table: &mut [u64],
    places: &[u32],
    links: &[u32],
    file: NewFile,
) -> State
    requires placing_2 { Placing settings state heap.old table.old places.now links.now }
    requires leads { Leads (length (table_ids table.old)) places.now 0 file.first }
    requires generation_bound { file.generation ≤ 255 }
    requires links_bound { 64 + length (file_bytes (piece_ops file.first heap.old table.old places.now links.now)) ≤ settings.slot_bytes }
    requires nonzero { (0 < length (empty_slots (slots_in settings (length heap.old)) state.files.records))
        × (file.slot ≡ lowest_empty (slots_in settings (length heap.old)) state.files.records) }
    requires links_bound_2 { state.next_position
        + (length (objects_of (piece_ops file.first heap.old table.old places.now links.now)) + 1)
        ≤ 2 ^ 62 }
    ensures leaves { (c : Claims) → world settings result c heap.new table.new
        ≡ installed 0 file.generation (world settings state c heap.old table.old)
        (piece_ops file.first heap.old table.old places.now links.now) }
    ensures placing { Placing settings result heap.new table.new
        places.now links.now }
    ensures ids { table_ids table.new ≡ table_ids table.old }
    ensures others { (q : ℕ)
        → piece_ops q heap.new table.new places.now links.now
        ≡ piece_ops q heap.old table.old places.now links.now }
    ensures slots { empty_slots (slots_in settings (length heap.old)) state.files.records
        ≡ file.slot ∷ empty_slots (slots_in settings (length heap.new)) result.files.records }
    ensures position { result.next_position ≡ state.next_position
        + (length (objects_of (piece_ops file.first heap.old table.old places.now links.now)) + 1) }
{
    let sizes = gc_writer::sized(heap, table, places, links, file.first);
    add_at(settings, state, heap, table, places, links, file, sizes)
}
