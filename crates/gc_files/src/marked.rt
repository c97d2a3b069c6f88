ghost use Rattle.std.specs.Prelude.{◌≡◌, ◌^◌, ◌≤◌};
ghost use Rattle.numbers.specs.Parts.{front};
ghost use Rattle.rules.specs.Layout.{table_locations};
ghost use Rattle.location_table.specs.Tables.{Formed};
ghost use Rattle.gc_files.specs.Places.{OfUsed, place_for, places_for, Placeable, Placeables};

use disk_location::DiskLocation;
use location_table::{loaded_at, used};
use rules::{LABEL_BYTES, Loaded};

// Where the operation of an entry stands, by what load tells of it: 0 where it is not marked, 1 for a delete, else its object
// in the slot of its mark.
fn place_of(loaded: Loaded, mark: u32, lsns: &[u64], slot_bytes: u64) -> u32
    requires slot_bytes_bound { slot_bytes ≤ 2 ^ 20 }
    requires placeable { Placeable lsns.now loaded mark }
    ensures { result ≡ place_for slot_bytes lsns.now loaded mark }
{
    if mark == 0 {
        return 0;
    }
    match loaded {
        Loaded::At(location) => {
            let k = mark as usize - 1;
            let start = k as u64 * slot_bytes + LABEL_BYTES as u64;
            (start + (DiskLocation(location).position() - lsns[k])) as u32
        }
        Loaded::DeletedAt(_) => 1,
        Loaded::Never => 0,
    }
}

// Of every used entry of the table: behind them none is marked, and no place is noted.
pub fn place_all(table: &[u64], marks: &[u32], lsns: &[u64], slot_bytes: u64, places: &mut [u32])
    requires slot_bytes_bound { slot_bytes ≤ 2 ^ 20 }
    requires placeables { Placeables lsns.now (table_locations table.now) marks.now places.old }
    requires formed { Formed table.now × OfUsed table.now marks.now × OfUsed table.now places.old }
    ensures { places.new ≡ front
        (places_for slot_bytes lsns.now (table_locations table.now) marks.now)
        places.old }
{
    for i in 0..used(table) {
        let loaded = loaded_at(table, i);
        places[i] = place_of(loaded, marks[i], lsns, slot_bytes);
    }
}
