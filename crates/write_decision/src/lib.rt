// Refusals 1 to 7, "in order on the whole batch", and what the batch comes to where none is given.

#![tactic(auto)]

ghost use Rattle.std.specs.Prelude.{◌≡◌, ◌+◌, ◌<◌, ◌^◌, length, ltb};
ghost use Rattle.rules.specs.declared.Claims.{Claims};
ghost use Rattle.rules.specs.Ops.{settled};
ghost use Rattle.rules.specs.Layout.{used_entries, capacity_of};
ghost use Rattle.rules.specs.World.{world};
ghost use Rattle.location_table.specs.Tables.{Formed};
ghost use Rattle.limits.specs.Settled.{state_of};
ghost use Rattle.batch.specs.Reading.{ops_in};
ghost use Rattle.batch.specs.Walk.{Begins};
ghost use Rattle.write_decision.specs.Sizes.{sizes_of};
ghost use Rattle.write_decision.specs.Decisions.{decision_of, Parsed};

use batch::Cursor;
use limits::{Rest, bad_files, refused_apart, rest_of};
use location_table::{find_near, number_of};
use new_file::{spent, too_large};
use rules::{FileMap, Refusal, Settings, State};
use table_merge::new_at;

// A batch's file to be: its slot, its count of entries and T.
#[derive(Clone, Copy)]
pub struct NewFile {
    pub slot: usize,
    pub count: u64,
    pub total: u64,
}

// How many operations count, T, and how many of their ids the table does not have.
#[derive(Clone, Copy)]
struct BatchSizes {
    count: u64,
    total: u64,
    new: u64,
}

// What 5 to 7 are asked by, in one walk, or nothing where no slot has room for the file: an operation more is held against what those
// before it leave of the slot.
fn sizes(
    table: &[u64],
    order: &mut [u64],
    batch: &[u8],
    begin: Cursor,
    slot_bytes: u64,
) -> Option<BatchSizes>
    requires { Formed table.now × (length order.old ≡ 1024) × Begins batch.now order.old begin }
    ensures sizes { result ≡ sizes_of slot_bytes (used_entries table.now) (settled (ops_in batch.now)) }
    ensures again { Begins batch.now order.new begin }
{
    if too_large(slot_bytes, 0, 0) {
        return None;
    }
    let mut count: u64 = 0;
    let mut total: u64 = 0;
    let mut new: u64 = 0;
    let mut near: usize = 0;
    let mut cursor = begin;
    while let Some((o, after)) = batch::next(order, batch, cursor) {
        let size = batch::size_of(o);
        if too_large(slot_bytes - total, size, count + 1) {
            return None;
        }
        let place = find_near(table, o.id, near);
        new += new_at(place);
        near = number_of(place);
        total += size;
        count += 1;
        cursor = after;
    }
    Some(BatchSizes {
        count: count,
        total: total,
        new: new,
    })
}

// "6 more distinct ids than table entries": the table's, and so many that it does not have.
fn too_many(table: &[u64], more: u64) -> bool
    requires { Formed table.now × (more < 2 ^ 63) }
    ensures { result ≡ ltb (capacity_of table.now) (length (used_entries table.now) + more) }
{
    let used = location_table::used(table) as u64;
    (location_table::capacity(table) as u64) < used + more
}

// 4 to 7, for a batch that passed 1 to 3; an empty one passes, and makes no file.
fn room(
    settings: Settings,
    rest: Rest,
    files: FileMap,
    heap: &[u8],
    table: &[u64],
    order: &mut [u64],
    batch: &[u8],
    begin: Cursor,
) -> Result<Option<NewFile>, Refusal>
    requires parsed { Parsed settings (state_of rest files) heap.now table.now batch.now }
    requires order_len { (length order.old ≡ 1024) × Begins batch.now order.old begin }
    ensures decides { (c : Claims) → result ≡ decision_of
        (world settings (state_of rest files) c heap.now table.now)
        batch.now }
    ensures again { Begins batch.now order.new begin }
{
    let sizes = sizes(table, order, batch, begin, settings.slot_bytes).ok_or(Refusal::SlotRoom)?;
    if sizes.count == 0 {
        return Ok(None);
    }
    let n = heap.len() / settings.slot_bytes as usize;
    let slot = file_map::lowest_empty(files, n);
    if n <= slot {
        return Err(Refusal::NoEmptySlot);
    }
    if too_many(table, sizes.new) {
        return Err(Refusal::TableRoom);
    }
    if spent(rest.next_position, sizes.total + 1) {
        return Err(Refusal::PositionsSpent);
    }
    let file = NewFile {
        slot: slot,
        count: sizes.count,
        total: sizes.total,
    };
    Ok(Some(file))
}

// The refusal of a write, or the file that it makes: none for an empty batch.
pub fn decided(
    settings: Settings,
    state: State,
    heap: &[u8],
    table: &[u64],
    order: &mut [u64],
    batch: &[u8],
    begin: Cursor,
) -> Result<Option<NewFile>, Refusal>
    requires { (length order.old ≡ 1024) × Begins batch.now order.old begin }
    ensures decides { (c : Claims) → result ≡ decision_of
        (world settings state c heap.now table.now)
        batch.now }
    ensures again { Begins batch.now order.new begin }
{
    let files = state.files;
    let bad = bad_files(settings, heap.len() as u64, table, files);
    let rest = rest_of(state);
    if refused_apart(settings, heap.len() as u64, table, rest, bad) {
        return Err(Refusal::Limits);
    }
    batch::check(batch, settings.max_object_size)?;
    room(settings, rest, files, heap, table, order, batch, begin)
}
