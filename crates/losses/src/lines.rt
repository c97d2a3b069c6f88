ghost use Rattle.std.specs.Prelude.{[], ◌∷◌, ◌+◌, ◌*◌, ◌≤◌, length};
ghost use Rattle.rules.specs.PruneLaws.{emptying};
ghost use Rattle.stores.specs.Runs.{Made};
ghost use Rattle.losses.specs.Salvage.{loss};
ghost use Rattle.losses.specs.Lines.{Reports, slots_told, LabelsIn};

use as_numbers::answers::refusal_number;
use rules::Refusal;

// One more line, behind `count`.
pub fn note(report: &mut [u64], count: u64, slot: u64, refusal: Refusal) -> u64
    requires { 2 * count + 2 ≤ length report.old }
    ensures { Reports count (loss slot refusal ∷ []) report.old report.new result }
{
    let number = refusal_number(refusal);
    let at = 2 * count as usize;
    let second = at + 1;
    report[at] = slot;
    report[second] = number;
    count + 1
}

// "Only the first label byte of reported slots changes": one store for each line, in report order, as far as `left` reaches; how many are
// left of them.
pub fn empty_slots(heap: &mut [u8], slot_bytes: u64, report: &[u64], lines: u64, left: u64) -> u64
    requires lines_in_bounds { 2 * lines ≤ length report.now }
    requires labels_in { LabelsIn slot_bytes (slots_told lines report.now) (length heap.old) }
    ensures { Made left (emptying slot_bytes (slots_told lines report.now)) heap.old heap.new result }
{
    let mut rest = left;
    for i in 0..lines {
        let slot = report[2 * i as usize];
        rest = stores::put_number(heap, (slot * slot_bytes) as usize, 1, 0, rest);
    }
    rest
}
