// Request P5 of document 02: the call that lists everything wrong with a heap.

#![tactic(auto)]

pub mod slots;

ghost use Rattle.std.specs.Prelude.{◌≡◌};
ghost use Rattle.faults.specs.Faults.{check_call};
ghost use Rattle.checker.specs.Answers.{checked};

use crate::slots::listed;
use limits::out_of_range;
use location_table::capacity;
use rules::{Refusal, Settings};

// Heap and table are lent to read only; of the table only the length matters. The lines that fit stand in the listing, four words each.
pub fn check(
    settings: Settings,
    heap: &[u8],
    table: &[u64],
    listing: &mut [u64],
) -> Result<u64, Refusal>
    ensures { checked result listing.new
        ≡ check_call settings heap.now table.now listing.old }
{
    if out_of_range(settings, heap.len() as u64, table) {
        return Err(Refusal::Limits);
    }
    let size = settings.slot_bytes as usize;
    let n = heap.len() / size;
    Ok(listed(listing, heap, size, n, capacity(table) as u64))
}
