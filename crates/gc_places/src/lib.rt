// Where everything that a group of maintenance found stands in the heap (`src/gc.rs`).

#![tactic(auto)]

ghost use Rattle.std.specs.Prelude.{◌≡◌, ◌≤◌, length, replicate, Ok};
ghost use Rattle.rules.specs.Refusal.{decide};
ghost use Rattle.rules.specs.SettingsLaws.{InRanges};
ghost use Rattle.rules.specs.Layout.{table_ids, used_entries};
ghost use Rattle.location_table.specs.Tables.{Formed};
ghost use Rattle.gc_candidates.specs.Plan.{planned};
ghost use Rattle.gc_group.specs.Source.{source, Ready};
ghost use Rattle.gc_group.specs.Checks.{group_checks};
ghost use Rattle.gc_places.specs.Group.{GroupPlaced};

use gc_files::marked::place_all;
use gc_group::Group;
use gc_group::marks::mark_group;
use rules::{FileMap, RECORDS, Refusal};

// The group's checks; where none refuses it, "Objects and deletes at their id's current location .. one found twice only
// once, as last found": a place for each, 0 for every other entry. `marks` is room for a mark of each entry, whatever
// stood there.
pub fn place_group(
    group: Group,
    heap: &[u8],
    m: FileMap,
    plan: &[u64],
    table: &[u64],
    marks: &mut [u32],
    places: &mut [u32],
) -> Result<(), Refusal>
    requires in_ranges { InRanges group.settings }
    requires ready { Ready group.settings.slot_bytes (length heap.now) m.records plan.now group.generation }
    requires formed { Formed table.now }
    requires table_in_bounds { (length (table_ids table.now) ≤ length marks.old)
        × (length (table_ids table.now) ≤ length places.old)
        × (places.old ≡ replicate (length places.old) 0) }
    ensures answers { result ≡ decide (group_checks group.settings.max_object_size
        (source group.settings.slot_bytes heap.now m.records (used_entries table.now))
        (planned plan.now group.generation)) }
    ensures places { result ≡ Ok tt → GroupPlaced group.settings.slot_bytes heap.now m.records
        plan.now group.generation table.now places.new }
{
    let mut lsns = [0u64; RECORDS];
    mark_group(group, heap, m, plan, table, marks, &mut lsns)?;
    place_all(table, marks, &lsns, group.settings.slot_bytes, places);
    Ok(())
}
