// The search that halving took the place of: one entry after another, from the front.
ghost use Rattle.std.specs.Prelude.{◌≡◌, ◌≤◌};
ghost use Rattle.rules.specs.Layout.{used_entries, capacity_of};
ghost use Rattle.location_table.specs.Tables.{Formed};
ghost use Rattle.location_table.specs.Places.{place};

use location_table::{Searched, capacity, id_at, location_at};

pub fn search(table: &[u64], id: u64) -> Searched
    requires { Formed table.now }
    ensures finds { result.place ≡ place (used_entries table.now) id }
    ensures looks { result.looked ≤ capacity_of table.now }
{
    let n = capacity(table);
    for i in 0..n {
        let looked = i as u64 + 1;
        let here = id_at(table, i);
        if location_at(table, i) == 0 || id < here {
            return Searched {
                place: Err(i),
                looked: looked,
            };
        }
        if id == here {
            return Searched {
                place: Ok(i),
                looked: looked,
            };
        }
    }
    Searched {
        place: Err(n),
        looked: n as u64,
    }
}
