// Read (`src/readpath.rs`): where a body lies in the heap, then that part of it.

#![tactic(auto)]

ghost use Rattle.std.specs.Prelude.{◌≡◌, ◌+◌, ◌*◌, length, drop, Ok};
ghost use Rattle.rules.specs.declared.Claims.{Claims};
ghost use Rattle.rules.specs.SlotFile.{bytes_of_slot, file_in};
ghost use Rattle.rules.specs.Object.{stored_at};
ghost use Rattle.rules.specs.Read.{read_of, part_of};
ghost use Rattle.rules.specs.World.{world};
ghost use Rattle.stored_object.specs.Objects.{body_of};
ghost use Rattle.readpath.specs.Reads.{Lies, in_heap, Within, place_of};

use disk_location::DiskLocation;
use limits::{bad_files, refused_apart, rest_of};
use rules::{LABEL_BYTES, Label, Loaded, Lookup, Refusal, Settings, State};

// The label's bytes, where the heap is counted in u64.
const LABEL: u64 = LABEL_BYTES as u64;

// "a 64-byte label, then the file": the file of a slot, a part of the lent heap.
fn file_part(heap: &[u8], slot_bytes: u64, slot: u64, l: Label) -> &[u8]
    requires { Lies slot_bytes l slot (length heap.now) }
    ensures { result.now ≡ file_in l (bytes_of_slot slot_bytes heap.now slot) }
{
    let start = (slot * slot_bytes) as usize + LABEL_BYTES;
    let end = start + l.file_size as usize;
    &heap[start..end]
}

// "16 (header or body past file_size), 10, 17" for the object at a position of a slot's file.
fn object_at(
    heap: &[u8],
    slot_bytes: u64,
    slot: u64,
    l: Label,
    position: u64,
    id: u64,
) -> Result<Lookup, Refusal>
    requires { Lies slot_bytes l slot (length heap.now) }
    ensures { result ≡ in_heap (slot * slot_bytes + 64)
        (body_of id (stored_at position (drop position (file_in l (bytes_of_slot slot_bytes heap.now slot))))) }
{
    let file = file_part(heap, slot_bytes, slot, l);
    let (start, size) = stored_object::object::read(file, position, id)?;
    Ok(Lookup::Found(slot * slot_bytes + LABEL + start, size))
}

// "Checks in order: 18, 16 (header or body past file_size), 10, 17", after 1: where the body is, in numbers.
pub fn read_answer(
    settings: Settings,
    state: State,
    heap: &[u8],
    table: &[u64],
    id: u64,
) -> Result<Lookup, Refusal>
    ensures { (c : Claims)
        → result ≡ read_of (world settings state c heap.now table.now) id }
{
    let files = state.files;
    let lsns = file_map::lsns(files);
    let bad = bad_files(settings, heap.len() as u64, table, files);
    if refused_apart(settings, heap.len() as u64, table, rest_of(state), bad) {
        return Err(Refusal::Limits);
    }
    match location_table::load(table, id) {
        Loaded::Never => Ok(Lookup::NeverWritten),
        Loaded::DeletedAt(_) => Ok(Lookup::Deleted),
        Loaded::At(location) => {
            let slot = file_lists::lsn_at(&lsns, location).ok_or(Refusal::NotThere)?;
            let i = slot as usize;
            let r = files.records[i];
            let l = r.label;
            let position = DiskLocation(location).position() - l.lsn;
            object_at(heap, settings.slot_bytes, slot, l, position, id)
        }
    }
}

// The part of the heap that an answer names; an empty part where it names none.
fn part(heap: &[u8], answer: Result<Lookup, Refusal>) -> &[u8]
    requires { Within answer (length heap.now) }
    ensures bytes { result.now ≡ part_of answer heap.now }
    ensures place { result.ref_ptr ≡ place_of answer heap.entry.ref_ptr }
{
    match answer {
        Ok(Lookup::Found(at, size)) => {
            let start = at as usize;
            let end = start + size as usize;
            &heap[start..end]
        }
        _ => &heap[0..0],
    }
}

// "the found bytes are a part of the lent heap itself"; "A refused read, or one that finds nothing, gives an empty part."
pub fn read<'a>(
    settings: Settings,
    state: State,
    heap: &'a [u8],
    table: &[u64],
    id: u64,
) -> &'a [u8]
    ensures bytes { (c : Claims) → result.now ≡ part_of
        (read_of (world settings state c heap.now table.now) id)
        heap.now }
    ensures place { (c : Claims) → result.ref_ptr ≡ place_of
        (read_of (world settings state c heap.now table.now) id)
        heap.entry.ref_ptr }
{
    let answer = read_answer(settings, state, heap, table, id);
    part(heap, answer)
}
