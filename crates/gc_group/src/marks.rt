ghost use Rattle.std.specs.Prelude.{◌≡◌, ◌+◌, ◌*◌, ◌^◌, ◌<◌, ◌≤◌, length, Ok};
ghost use Rattle.rules.specs.Base.{each};
ghost use Rattle.rules.specs.BaseLaws.{All};
ghost use Rattle.rules.specs.Refusal.{decide};
ghost use Rattle.rules.specs.Object.{objects_in};
ghost use Rattle.rules.specs.Trailer.{count_in, entries_in};
ghost use Rattle.rules.specs.Maintenance.{moved_tests, file_tests};
ghost use Rattle.rules.specs.Layout.{table_ids, used_entries};
ghost use Rattle.location_table.specs.Places.{place};
ghost use Rattle.location_table.specs.Tables.{Formed};
ghost use Rattle.file_lists.specs.Lists.{lsns_of};
ghost use Rattle.gc_candidates.specs.Plan.{planned};
ghost use Rattle.gc_group.specs.Source.{Lies, source, Ready};
ghost use Rattle.gc_group.specs.Checks.{group_checks};
ghost use Rattle.gc_group.specs.Clear.{SumFits};
ghost use Rattle.gc_group.specs.Marks.{found_file, ids_of, current, object_id, delete_id, marked, marks_of};

use crate::Group;
use crate::check::{check_deletes, check_object};
use disk_location::{DiskLocation, RelativeDiskLocation};
use location_table::{find, find_near, location_at, number_of};
use rules::{Entry, FileMap, Label, OBJECT_HEADER, Refusal};
use slot_file::slot::{object_part, slot_at, trailer_part};
use stored_object::{Step, object};

// The entry at an id's place takes the mark where this is its current location.
fn mark_at(
    table: &[u64],
    marks: &mut [u32],
    found: Result<usize, usize>,
    id: u64,
    location: u64,
    mark: u32,
)
    requires formed { Formed table.now × (found ≡ place (used_entries table.now) id) }
    requires table_in_bounds { length (table_ids table.now) ≤ length marks.old }
    ensures { marks.new ≡ marked mark
        (current (used_entries table.now) id location)
        (used_entries table.now)
        marks.old }
{
    if let Ok(i) = found {
        if location_at(table, i) == location {
            marks[i] = mark;
        }
    }
}

// "each object", walked by the stored lengths: checked, and marked where it is "at [its] id's current location". The marks of a refused
// file are looked at by no one.
fn mark_objects(
    objects: &[u8],
    lsn: u64,
    table: &[u64],
    marks: &mut [u32],
    mark: u32,
    limit: u64,
) -> Result<(), Refusal>
    requires objects_bound { lsn + length objects.now < 2 ^ 63 }
    requires formed { Formed table.now }
    requires table_in_bounds { length (table_ids table.now) ≤ length marks.old }
    ensures answers { result
        ≡ decide (each (moved_tests limit (used_entries table.now)) (objects_in objects.now)) }
    ensures marks { result ≡ Ok tt → marks.new ≡ marked mark
        (each (object_id lsn (used_entries table.now)) (objects_in objects.now))
        (used_entries table.now)
        marks.old }
{
    let mut near: usize = 0;
    let mut position: u64 = 0;
    loop {
        match object::step(objects, position) {
            Step::End => return Ok(()),
            Step::HeaderCut => return Err(Refusal::CutShort),
            Step::Here(h) => {
                let found = find_near(table, h.id, near);
                check_object(objects, position, h, found, limit)?;
                let location = DiskLocation::new(lsn + position, false);
                mark_at(
                    table,
                    marks,
                    found,
                    h.id,
                    disk_location::raw(location),
                    mark,
                );
                near = number_of(found);
                position += OBJECT_HEADER as u64 + h.size;
            }
        }
    }
}

// A delete entry; an object's entry is not looked at.
fn mark_delete(e: Entry, lsn: u64, table: &[u64], marks: &mut [u32], mark: u32)
    requires sum_fits { SumFits lsn e }
    requires formed { Formed table.now }
    requires table_in_bounds { length (table_ids table.now) ≤ length marks.old }
    ensures { marks.new ≡ marked mark
        (delete_id lsn (used_entries table.now) e)
        (used_entries table.now)
        marks.old }
{
    let location = RelativeDiskLocation(e.location);
    if location.is_delete() {
        let found = find(table, e.id);
        mark_at(
            table,
            marks,
            found,
            e.id,
            disk_location::raw(location.to_absolute(lsn)),
            mark,
        );
    }
}

// ".. and deletes at their id's current location"
fn mark_deletes(trailer: &[u8], lsn: u64, table: &[u64], marks: &mut [u32], mark: u32)
    requires trailer_in_bounds { 12 + 16 * count_in trailer.now ≤ length trailer.now }
    requires all { All (SumFits lsn) (entries_in trailer.now) }
    requires formed { Formed table.now }
    requires table_in_bounds { length (table_ids table.now) ≤ length marks.old }
    ensures { marks.new ≡ marked mark
        (each (delete_id lsn (used_entries table.now)) (entries_in trailer.now))
        (used_entries table.now)
        marks.old }
{
    for k in 0..trailer::count(trailer) {
        mark_delete(trailer::entry(trailer, k), lsn, table, marks, mark);
    }
}

// "trailer (9, 10, 11), then each object .. then delete entries"; where none refuses, everything that is found in the file is marked.
pub fn mark_file(
    slot: &[u8],
    l: Label,
    table: &[u64],
    marks: &mut [u32],
    mark: u32,
    limit: u64,
) -> Result<(), Refusal>
    requires lies { Lies (length slot.now) l }
    requires formed { Formed table.now }
    requires table_in_bounds { length (table_ids table.now) ≤ length marks.old }
    ensures answers { result ≡ decide (file_tests limit (used_entries table.now) l slot.now) }
    ensures marks { result ≡ Ok tt → marks.new ≡ marked mark
        (ids_of (found_file (used_entries table.now) l slot.now))
        (used_entries table.now)
        marks.old }
{
    let trailer = trailer_part(slot, l);
    trailer::check(trailer)?;
    mark_objects(object_part(slot, l), l.lsn, table, marks, mark, limit)?;
    check_deletes(trailer, l.lsn, table)?;
    mark_deletes(trailer, l.lsn, table, marks, mark);
    Ok(())
}

// "All files of a group are checked before it writes, ascending by slot": what is found is marked while it is checked, and the marks of a
// refused group are looked at by no one. "one found twice only once, as last found": a later slot's mark takes the place of an earlier
// one's. One walk over the records, which also gives their lsns.
pub fn mark_group(
    group: Group,
    heap: &[u8],
    m: FileMap,
    plan: &[u64],
    table: &[u64],
    marks: &mut [u32],
    lsns: &mut [u64],
) -> Result<(), Refusal>
    requires ready { Ready group.settings.slot_bytes (length heap.now) m.records plan.now group.generation }
    requires formed { Formed table.now }
    requires table_in_bounds { (length (table_ids table.now) ≤ length marks.old) × (length lsns.old ≡ 256) }
    ensures answers { result ≡ decide (group_checks group.settings.max_object_size
        (source group.settings.slot_bytes heap.now m.records (used_entries table.now))
        (planned plan.now group.generation)) }
    ensures marks { result ≡ Ok tt → marks.new ≡ marks_of
        (source group.settings.slot_bytes heap.now m.records (used_entries table.now))
        (length marks.old)
        (planned plan.now group.generation) }
    ensures lsns { result ≡ Ok tt → lsns.new ≡ lsns_of m.records }
{
    marks.fill(0);
    for (i, r) in m.records.iter().enumerate() {
        let l = r.label;
        lsns[i] = l.lsn;
        if plan[i] == group.generation {
            let slot = slot_at(heap, group.settings.slot_bytes as usize, i);
            let mark = i as u32 + 1;
            mark_file(slot, l, table, marks, mark, group.settings.max_object_size)?;
        }
    }
    Ok(())
}
