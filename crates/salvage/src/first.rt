ghost use Rattle.std.specs.Prelude.{◌≡◌, map, ◌+◌, ◌*◌, ◌^◌, ◌≤◌, ◌<◌, length};
ghost use Rattle.losses.specs.Salvage.{first_kind};
ghost use Rattle.losses.specs.Lines.{Reports, loss_shown};
ghost use Rattle.losses.specs.Starts.{start_shown, end_shown, start_in, end_in, slots_judged};

use disk_location::masked;
use faults::own;
use losses::lines::note;
use rules::{Label, Refusal};
use slot_file::slot::slot_at;

// The line of a slot with a fault of its own.
// Kept: the checker's has the same two arms and another line; one function for both, handed the line as a closure, would be longer.
fn own_line(report: &mut [u64], count: u64, slot: u64, shown: Result<Option<Label>, Refusal>) -> u64
    requires { 2 * count + 2 ≤ length report.old }
    ensures { Reports count (loss_shown slot shown) report.old report.new result }
{
    match shown {
        Err(r) => note(report, count, slot, r),
        Ok(_) => count,
    }
}

// Where a sound file begins, which is never 0, and "the end (masked lsn + T)"; 0 and 0 for a slot without one.
// Kept: 0 for none, as the definition `start_shown` has it; an Option for each of 256 slots would double both lists on the stack.
fn range(shown: Result<Option<Label>, Refusal>) -> (u64, u64)
    requires { end_shown shown < 2 ^ 64 }
    ensures start { result.0 ≡ start_shown shown }
    ensures end { result.1 ≡ end_shown shown }
{
    match shown {
        Ok(Some(l)) => {
            let start = masked(l.lsn);
            (start, start + l.trailer_offset)
        }
        _ => (0, 0),
    }
}

// "the first kind goes ascending by slot"; where each sound file begins and ends, on the way.
pub fn first_kind(
    report: &mut [u64],
    heap: &[u8],
    size: usize,
    starts: &mut [u64],
    ends: &mut [u64],
) -> u64
    requires size_in_bounds { (length starts.old * size ≤ length heap.now) × (2 * length starts.old ≤ length report.old) }
    requires ends_len { length ends.old ≡ length starts.old }
    ensures reports { Reports 0 (first_kind 0 (slots_judged (length starts.old) size heap.now))
        report.old report.new result }
    ensures starts { starts.new ≡ map start_in (slots_judged (length starts.old) size heap.now) }
    ensures ends { ends.new ≡ map end_in (slots_judged (length starts.old) size heap.now) }
{
    let mut count: u64 = 0;
    for k in 0..starts.len() {
        let shown = own(slot_at(heap, size, k));
        (starts[k], ends[k]) = range(shown);
        count = own_line(report, count, k as u64, shown);
    }
    count
}
