ghost use Rattle.std.specs.Prelude.{◌≡◌, map, ◌^◌, ◌<◌};
ghost use Rattle.rules.specs.Layout.{laid_out, used_entries};
ghost use Rattle.location_table.specs.Tables.{Formed};
ghost use Rattle.ordered_files.specs.Order.{in_order};
ghost use Rattle.rebuild.specs.Records.{slot_record, counted, masked_lsn, next_from};
ghost use Rattle.rebuild.specs.Counting.{Apart, live_of};

use disk_location::masked;
use file_map::{empty, no_files, recorded};
use location_table::{location_at, used};
use ordered_files::{ORDER, file_at, put_all};
use reopen_tests::Labels;
use reopen_tests::overlap::in_range;
use reopen_tests::slots::no_file;
use rules::{FileMap, Label, RECORDS, Record};
use table_merge::masked_position;

// The files' masked lsns; 0 for a slot without a file.
fn masked_lsns(slots: Labels) -> [u64; RECORDS]
    ensures { result ≡ map masked_lsn slots.labels }
{
    let mut lsns = [0u64; RECORDS];
    for k in 0..RECORDS {
        lsns[k] = masked(slots.labels[k].lsn);
    }
    lsns
}

// "a file's live count is the ids mapped into it, deletes included": in one pass over the table, each entry counted for the one file that
// may have it, the last that begins at or before its position.
fn counted_in(table: &[u64], order: &[u64], slots: Labels) -> [u64; RECORDS]
    requires { Formed table.now × Apart slots.labels × (order.now ≡ laid_out 256 (in_order (map masked_lsn slots.labels))) }
    ensures { result ≡ map (live_of (used_entries table.now)) slots.labels }
{
    let mut lives = [0u64; RECORDS];
    for i in 0..used(table) {
        let location = location_at(table, i);
        let position = masked_position(location);
        if let Some(slot) = file_at(order, 2 * position) {
            let k = slot as usize;
            if in_range(slots.labels[k], position) {
                lives[k] += 1;
            }
        }
    }
    lives
}

// The same, the files put in order first.
fn live_counts(table: &[u64], slots: Labels) -> [u64; RECORDS]
    requires { Formed table.now × Apart slots.labels }
    ensures { result ≡ map (live_of (used_entries table.now)) slots.labels }
{
    let lsns = masked_lsns(slots);
    let mut order = [0u64; ORDER];
    put_all(&mut order, &lsns);
    counted_in(table, &order, slots)
}

// A slot's record: its file's label and live count, and the mark, "set on reopening"; empty for a slot without a file.
fn slot_record(l: Label, live: u64) -> Record
    ensures { result ≡ slot_record l live }
{
    if no_file(l) {
        return empty();
    }
    recorded(l, live, 1)
}

pub fn with_live_counts(table: &[u64], slots: Labels) -> FileMap
    requires { Formed table.now × Apart slots.labels }
    ensures { result.records ≡ map (counted (used_entries table.now)) slots.labels }
{
    let lives = live_counts(table, slots);
    let mut m = no_files();
    for k in 0..RECORDS {
        m.records[k] = slot_record(slots.labels[k], lives[k]);
    }
    m
}

// "Next position is greatest masked lsn + greatest file_size + 1, or 1 for no files."
pub fn next_position(slots: Labels) -> u64
    requires { next_from slots.labels < 2 ^ 63 }
    ensures { result ≡ next_from slots.labels }
{
    let mut lsn: u64 = 0;
    let mut size: u64 = 0;
    for label in &slots.labels {
        lsn = lsn.max(masked(label.lsn));
        size = size.max(label.file_size);
    }
    lsn + (size + 1)
}
