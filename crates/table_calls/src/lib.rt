// The four table calls (`src/location_table.rs`).

#![tactic(auto)]

ghost use Rattle.std.specs.Prelude.{◌≡◌, ◌||◌, eqb};
ghost use Rattle.rules.specs.Refusal.{decide};
ghost use Rattle.rules.specs.TableCalls.{load_call, store_call, compare_call, greater_call};
ghost use Rattle.rules.specs.World.{answer_given, load_given, compare_given, greater_given};
ghost use Rattle.location_table.specs.Tables.{leaving};
ghost use Rattle.table_calls.specs.Front.{front_tests};

use location_table::{formed, load_in, store_in};
use rules::{Compared, Loaded, Refusal};

// "Load": never written, deleted at a raw location, or at one
pub fn load(table: &[u64], id: u64) -> Result<Loaded, Refusal>
    ensures { leaving (load_given result) table.now
        ≡ load_call table.now id }
{
    if !formed(table) {
        return Err(Refusal::Limits);
    }
    Ok(location_table::load(table, id))
}

// "Order: 1, 20 (a given raw 0)": what each call that stores asks first.
fn front(table: &[u64], absent: bool) -> Result<(), Refusal>
    ensures { result ≡ decide (front_tests table.now absent) }
{
    if !formed(table) {
        return Err(Refusal::Limits);
    }
    if absent {
        return Err(Refusal::Location);
    }
    Ok(())
}

fn either_zero(a: u64, b: u64) -> bool
    ensures { result ≡ (eqb a 0 || eqb b 0) }
{
    a == 0 || b == 0
}

pub fn store(table: &mut [u64], id: u64, location: u64) -> Result<(), Refusal>
    ensures { leaving (answer_given result) table.new
        ≡ store_call table.old id location }
{
    front(table, location == 0)?;
    if !store_in(table, id, location) {
        return Err(Refusal::TableRoom);
    }
    Ok(())
}

// "A compare that differs stores nothing and gives the current location; on an unmapped id it is 18."
pub fn compare_and_store(
    table: &mut [u64],
    id: u64,
    old: u64,
    location: u64,
) -> Result<Compared, Refusal>
    ensures { leaving (compare_given result) table.new
        ≡ compare_call table.old id old location }
{
    front(table, either_zero(old, location))?;
    let Some(current) = load_in(table, id) else {
        return Err(Refusal::NotThere);
    };
    if current != old {
        return Ok(Compared::Differs(current));
    }
    store_in(table, id, location);
    Ok(Compared::Swapped)
}

// "Store-if-greater gives the location held before or nothing, and doesn't store a lower one; equal is 19."
pub fn store_if_greater(table: &mut [u64], id: u64, location: u64) -> Result<Option<u64>, Refusal>
    ensures { leaving (greater_given result) table.new
        ≡ greater_call table.old id location }
{
    front(table, location == 0)?;
    let Some(current) = load_in(table, id) else {
        if !store_in(table, id, location) {
            return Err(Refusal::TableRoom);
        }
        return Ok(None);
    };
    if current == location {
        return Err(Refusal::EqualLocation);
    }
    if current < location {
        store_in(table, id, location);
    }
    Ok(Some(current))
}
