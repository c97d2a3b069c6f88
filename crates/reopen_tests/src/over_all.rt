ghost use Rattle.std.specs.Prelude.{◌≡◌};
ghost use Rattle.rules.specs.Refusal.{decide};
ghost use Rattle.rules.specs.SlotFile.{views_in};
ghost use Rattle.reopen_tests.specs.Shown.{Surveyed};
ghost use Rattle.reopen_tests.specs.Tests.{file_tests};

use crate::Labels;
use crate::overlap::overlaps;
use crate::rising::not_rising;
use rules::Refusal;

// "Then over all: 14, 15", once 8 to 13 are clear by slot; 6 waits for the table.
pub fn check(heap: &[u8], size: usize, n: usize, slots: Labels) -> Result<(), Refusal>
    requires { Surveyed n size heap.now slots.labels }
    ensures { result ≡ decide (file_tests (views_in n size heap.now)) }
{
    if overlaps(slots) {
        return Err(Refusal::Overlap);
    }
    if not_rising(heap, size, n, slots) {
        return Err(Refusal::NotRising);
    }
    Ok(())
}
