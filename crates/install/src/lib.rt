// Adding a file that stands in the heap: table, live counts, record and next position. Write and maintenance share it.

#![tactic(auto)]

ghost use Rattle.std.specs.Prelude.{◌≡◌, false, ◌+◌, ◌*◌, ◌^◌, ◌≤◌, ◌<◌, length, set};
ghost use Rattle.disk_location.specs.Locations.{position_of};
ghost use Rattle.rules.specs.Trailer.{absolute, count_in, entries_in};
ghost use Rattle.rules.specs.Table.{insert_all, full};
ghost use Rattle.rules.specs.TableCalls.{with_stored};
ghost use Rattle.rules.specs.Layout.{used_entries, capacity_of};
ghost use Rattle.rules.specs.World.{state_with};
ghost use Rattle.location_table.specs.Places.{place};
ghost use Rattle.location_table.specs.Tables.{Formed};
ghost use Rattle.file_lists.specs.Lists.{lsn_at, less_at, with_lives};
ghost use Rattle.ordered_files.specs.Order.{StandsFor};
ghost use Rattle.install.specs.Losing.{slot_holding, losing_lives};
ghost use Rattle.file_map.specs.Records.{labelled, fresh};
ghost use Rattle.install.specs.Adding.{taken, with_taken, Placed, trailer_at, Installable};

use location_table::{find_near, load_found, number_of, store_found};
use ordered_files::{ORDER, file_among, put_if};
use rules::{Entry, FileMap, LABEL_BYTES, Label, Loaded, State, TRAILER_ENTRY, TRAILER_HEAD};
use table_merge::absolute;

// From so many lookups on a call orders the files first. No answer turns on it.
const MANY: u64 = 64;

// "loses one live": the file of a location, an object's or a delete's.
fn lose_at(lsns: &[u64], order: &[u64], ordered: bool, lives: &mut [u64], location: u64)
    requires { (length lsns.now ≤ length lives.old) × StandsFor lsns.now order.now ordered }
    ensures { lives.new ≡ less_at (lsn_at lsns.now location) lives.old }
{
    let slot = file_among(lsns, order, ordered, location);
    file_lists::less_at(lives, slot);
}

// The file of what is loaded of an id.
fn lose_one(lsns: &[u64], order: &[u64], ordered: bool, lives: &mut [u64], loaded: Loaded)
    requires { (length lsns.now ≤ length lives.old) × StandsFor lsns.now order.now ordered }
    ensures { lives.new ≡ less_at (slot_holding lsns.now loaded) lives.old }
{
    match loaded {
        Loaded::At(location) | Loaded::DeletedAt(location) => {
            lose_at(lsns, order, ordered, lives, location)
        }
        Loaded::Never => {}
    }
}

// "each replaced location's file, found before the new one is added, loses one live"
fn lose_all(
    lsns: &[u64],
    order: &[u64],
    ordered: bool,
    lives: &mut [u64],
    table: &[u64],
    trailer: &[u8],
)
    requires { Formed table.now
        × (length lsns.now ≤ length lives.old)
        × (12 + 16 * count_in trailer.now ≤ length trailer.now)
        × StandsFor lsns.now order.now ordered }
    ensures { lives.new ≡ losing_lives lsns.now
        (used_entries table.now)
        (entries_in trailer.now)
        lives.old }
{
    let mut near: usize = 0;
    for k in 0..trailer::count(trailer) {
        let e = trailer::entry(trailer, k);
        let place = find_near(table, e.id, near);
        let loaded = load_found(table, place, e.id);
        lose_one(lsns, order, ordered, lives, loaded);
        near = number_of(place);
    }
}

// The same, the files ordered first where there are many entries.
fn lose(lsns: &[u64], lives: &mut [u64], table: &[u64], trailer: &[u8])
    requires { Formed table.now
        × (length lsns.now ≤ length lives.old)
        × (12 + 16 * count_in trailer.now ≤ length trailer.now)
        × (length lsns.now ≤ 256) }
    ensures { lives.new ≡ losing_lives lsns.now
        (used_entries table.now)
        (entries_in trailer.now)
        lives.old }
{
    let many = MANY <= trailer::count(trailer);
    let mut order = [0u64; ORDER];
    put_if(&mut order, lsns, many);
    lose_all(lsns, &order, many, lives, table, trailer);
}

// "Each id takes its new location", for one entry, at its id's place.
fn store_one(table: &mut [u64], at: Result<usize, usize>, e: Entry, lsn: u64)
    requires { Formed table.old
        × (at ≡ place (used_entries table.old) e.id)
        × (position_of e.location + lsn < 2 ^ 63)
        × (0 < lsn)
        × (full (used_entries table.old) (capacity_of table.old) e.id ≡ false) }
    ensures { table.new
        ≡ with_stored table.old e.id (absolute lsn e).location }
{
    let placed = absolute(e, lsn);
    store_found(table, at, e.id, placed.location);
}

// "Each id takes its new location", one by one.
fn one_by_one(table: &mut [u64], trailer: &[u8], lsn: u64)
    requires { Formed table.old
        × (12 + 16 * count_in trailer.now ≤ length trailer.now)
        × Placed lsn (entries_in trailer.now)
        × (0 < lsn)
        × (length (insert_all (used_entries table.old) (taken lsn (entries_in trailer.now)))
        ≤ capacity_of table.old) }
    ensures { table.new ≡ with_taken table.old lsn (entries_in trailer.now) }
{
    let mut near: usize = 0;
    for k in 0..trailer::count(trailer) {
        let e = trailer::entry(trailer, k);
        let place = find_near(table, e.id, near);
        store_one(table, place, e, lsn);
        near = number_of(place);
    }
}

// "Each id takes its new location": many new ids that rise are merged.
fn store_all(table: &mut [u64], trailer: &[u8], lsn: u64)
    requires { Formed table.old
        × (12 + 16 * count_in trailer.now ≤ length trailer.now)
        × Placed lsn (entries_in trailer.now)
        × (0 < lsn)
        × (length (insert_all (used_entries table.old) (taken lsn (entries_in trailer.now)))
        ≤ capacity_of table.old) }
    ensures { table.new ≡ with_taken table.old lsn (entries_in trailer.now) }
{
    let more = table_merge::to_merge(table, trailer);
    if more == 0 {
        one_by_one(table, trailer, lsn);
    } else {
        table_merge::merge(table, trailer, lsn, more, false);
    }
}

// The same settings and lengths with other records and another next position.
fn state_with(state: State, files: FileMap, next_position: u64) -> State
    ensures { result ≡ state_with state files.records next_position }
{
    file_map::state_of(
        state.settings,
        state.heap_len,
        state.table_len,
        files,
        next_position,
    )
}

// "next grows by T + 1"
fn next_after(next_position: u64, total: u64) -> u64
    requires { next_position + (total + 1) < 2 ^ 64 }
    ensures { result ≡ next_position + (total + 1) }
{
    next_position + (total + 1)
}

// A new file's label, by its lsn, its count of entries, T and its generation.
pub fn new_label(lsn: u64, count: u64, total: u64, generation: u64) -> Label
    requires { total + (12 + 16 * count) < 2 ^ 63 }
    ensures { result ≡ labelled lsn total (total + (12 + 16 * count)) count generation }
{
    file_map::labelled(
        lsn,
        total,
        total + (TRAILER_HEAD as u64 + TRAILER_ENTRY as u64 * count),
        count,
        generation,
    )
}

// The entries of a trailer: live counts, then table.
fn by_trailer(lsns: &[u64], lives: &mut [u64], table: &mut [u64], trailer: &[u8], lsn: u64)
    requires { Formed table.old
        × (length lsns.now ≤ length lives.old)
        × (12 + 16 * count_in trailer.now ≤ length trailer.now)
        × Placed lsn (entries_in trailer.now)
        × (0 < lsn)
        × (length (insert_all (used_entries table.old) (taken lsn (entries_in trailer.now)))
        ≤ capacity_of table.old)
        × (length lsns.now ≤ 256) }
    ensures lives { lives.new ≡ losing_lives lsns.now
        (used_entries table.old)
        (entries_in trailer.now)
        lives.old }
    ensures table { table.new ≡ with_taken table.old lsn (entries_in trailer.now) }
{
    lose(lsns, lives, table, trailer);
    store_all(table, trailer, lsn);
}

// A file that stands in the heap: where its slot begins, its count of entries, T and its lsn.
#[derive(Clone, Copy)]
pub struct StoredFile {
    pub start: usize,
    pub count: u64,
    pub total: u64,
    pub lsn: u64,
}

// The entries of such a file, by its trailer.
pub fn install(lsns: &[u64], lives: &mut [u64], table: &mut [u64], heap: &[u8], file: StoredFile)
    requires { Installable lsns.now lives.old table.old
        heap.now file.start file.count file.total file.lsn }
    ensures lives { lives.new ≡ losing_lives lsns.now
        (used_entries table.old)
        (entries_in (trailer_at heap.now file.start file.count file.total))
        lives.old }
    ensures table { table.new ≡ with_taken table.old file.lsn
        (entries_in (trailer_at heap.now file.start file.count file.total)) }
{
    let from = file.start + LABEL_BYTES + file.total as usize;
    let end = from + (TRAILER_HEAD + TRAILER_ENTRY * file.count as usize);
    by_trailer(lsns, lives, table, &heap[from..end], file.lsn);
}

// The state with the live counts that are left and the new file's record in its slot.
pub fn with_file(state: State, lives: &[u64], slot: usize, new: Label) -> State
    requires { (length lives.now ≡ 256) × (slot < 256) × (state.next_position + (new.trailer_offset + 1) < 2 ^ 64) }
    ensures { result ≡ state_with state
        (set (with_lives state.files.records lives.now) slot (fresh new))
        (state.next_position + (new.trailer_offset + 1)) }
{
    let before = state.files;
    let fewer = file_map::with_lives(before, lives);
    let files = file_map::with_record(fewer, slot, file_map::fresh(new));
    let total = new.trailer_offset;
    let next = next_after(state.next_position, total);
    state_with(state, files, next)
}
