// Request P9 of document 02: a salvage empties the slots that make reopening refuse, and says which.

#![tactic(auto)]

pub mod first;

ghost use Rattle.std.specs.Prelude.{◌≡◌, ◌*◌, ◌≤◌, length, take};
ghost use Rattle.numbers.specs.Parts.{front};
ghost use Rattle.rules.specs.Base.{each};
ghost use Rattle.rules.specs.SettingsLaws.{InRanges, HeapInRange};
ghost use Rattle.rules.specs.Stores.{made};
ghost use Rattle.losses.specs.Salvage.{losses_in, report_of, emptying_of, loss_words, salvage_call};
ghost use Rattle.salvage.specs.Answers.{salvaged};
ghost use Rattle.losses.specs.Lines.{Reports};
ghost use Rattle.losses.specs.Starts.{slots_judged};

use crate::first::first_kind;
use limits::out_of_range;
use losses::lines::empty_slots;
use losses::second::{in_order, second_kind};
use rules::{RECORDS, Refusal, Settings};

// The report, with three lists to work on: each slot's masked lsn and end, and the sound slots in order.
fn both_kinds(
    report: &mut [u64],
    heap: &[u8],
    size: usize,
    starts: &mut [u64],
    ends: &mut [u64],
    order: &mut [u64],
) -> u64
    requires size_in_bounds { (length starts.old * size ≤ length heap.now) × (2 * length starts.old ≤ length report.old) }
    requires ends_len { (length ends.old ≡ length starts.old) × (length starts.old ≤ length order.old) }
    ensures { Reports 0 (losses_in (slots_judged (length starts.old) size heap.now))
        report.old report.new result }
{
    let count = first_kind(report, heap, size, starts, ends);
    let first = in_order(order, starts);
    second_kind(report, count, order, first, starts, ends)
}

// The report, and its number of lines.
fn list_losses(report: &mut [u64], heap: &[u8], size: usize, n: usize) -> u64
    requires { (n * size ≤ length heap.now) × (n ≤ 256) × (512 ≤ length report.old) }
    ensures { Reports 0 (losses_in (slots_judged n size heap.now)) report.old report.new result }
{
    let mut starts = [0u64; 256];
    let mut ends = [0u64; 256];
    let mut order = [0u64; 256];
    both_kinds(
        report,
        heap,
        size,
        &mut starts[..n],
        &mut ends[..n],
        &mut order,
    )
}

// For a call that has decided refusal 1: the report, and the first `left` of its stores.
pub fn give_up(settings: Settings, heap: &mut [u8], report: &mut [u64], left: u64) -> u64
    requires { InRanges settings × HeapInRange settings (length heap.old) × (512 ≤ length report.old) }
    ensures counts { result ≡ length (report_of settings heap.old) }
    ensures reports { report.new ≡ front (each loss_words (report_of settings heap.old)) report.old }
    ensures heap { heap.new
        ≡ made (take left (emptying_of settings (report_of settings heap.old))) heap.old }
{
    let size = settings.slot_bytes as usize;
    let n = heap.len() / size;
    let lines = list_losses(report, heap, size, n);
    empty_slots(heap, settings.slot_bytes, report, lines, left);
    lines
}

// A salvage of a heap; of the table only the length matters. The report's lines have two words each: 256 lines are enough, and 256 stores.
pub fn salvage(
    settings: Settings,
    heap: &mut [u8],
    table: &[u64],
    report: &mut [u64; 512],
) -> Result<u64, Refusal>
    ensures { salvaged result report.new heap.new
        ≡ salvage_call settings heap.old table.now report.old }
{
    if out_of_range(settings, heap.len() as u64, table) {
        return Err(Refusal::Limits);
    }
    Ok(give_up(settings, heap, report, RECORDS as u64))
}
