ghost use Rattle.std.specs.Prelude.{◌≡◌, [], ◌+◌, ◌*◌, ◌^◌, ◌≤◌, ◌<◌, length, take};
ghost use Rattle.rules.specs.Base.{any};
ghost use Rattle.rules.specs.SlotFile.{view_in};
ghost use Rattle.rules.specs.declared.Label.{Label};
ghost use Rattle.slot_file.specs.Slots.{shown_by};
ghost use Rattle.reopen_tests.specs.Labels.{label_at, clash};
ghost use Rattle.faults.specs.Faults.{judged, faults_from};
ghost use Rattle.faults.specs.Judging.{Judges, Judged};
ghost use Rattle.file_faults.specs.Telling.{Tells};
ghost use Rattle.checker.specs.Answers.{list_of};
ghost use Rattle.checker.specs.SlotLines.{own_line, slot_lines, slots_judged};

use distinct_ids::more_than;
use faults::{own, sound};
use file_faults::file_lines;
use file_faults::tell::{note, note_if, nowhere};
use reopen_tests::Labels;
use reopen_tests::overlap::clash;
use reopen_tests::slots::no_file;
use rules::{Label, Refusal};
use slot_file::slot::slot_at;

// "In a slot the first failure of 8 to 13 and 15 is its only line."
fn own_line(listing: &mut [u64], count: u64, number: u64, slot: &[u8]) -> u64
    requires { count + 1 < 2 ^ 64 }
    ensures { Tells count (own_line number (shown_by (judged (view_in slot.now))))
        listing.old listing.new result }
{
    match own(slot) {
        Err(r) => note(listing, count, nowhere(number, r)),
        Ok(_) => count,
    }
}

// A slot's lines: its own fault's; or those of its sound file, and "14 last".
fn slot_lines(listing: &mut [u64], count: u64, number: u64, slot: &[u8], l: Label, met: bool) -> u64
    requires judges { Judges slot.now l }
    requires slot_bound { count + length (slot_lines number met (judged (view_in slot.now))) + 2 < 2 ^ 64 }
    ensures { Tells count (slot_lines number met (judged (view_in slot.now)))
        listing.old listing.new result }
{
    if no_file(l) {
        return own_line(listing, count, number, slot);
    }
    let told = file_lines(listing, count, number, slot, l);
    note_if(listing, told, met, nowhere(number, Refusal::Overlap))
}

// "a sound slot whose range meets an earlier sound one's", whether that has a 14 itself or not
fn meets_earlier(earlier: &[Label], l: Label) -> bool
    ensures { result ≡ any (λ (m : Label). clash m l) earlier.now }
{
    earlier.iter().any(|m| clash(*m, l))
}

// "ascending by slot"
fn all_lines(listing: &mut [u64], heap: &[u8], size: usize, n: usize, slots: &Labels) -> u64
    requires judged { Judged n size heap.now slots.now.labels }
    requires heap_len_bound { length (faults_from 0 [] (slots_judged n size heap.now)) + 2 < 2 ^ 64 }
    ensures { Tells 0 (faults_from 0 [] (slots_judged n size heap.now)) listing.old listing.new result }
{
    let mut count: u64 = 0;
    for k in 0..n {
        let l = slots.labels[k];
        let met = meets_earlier(&slots.labels[..k], l);
        count = slot_lines(listing, count, k as u64, slot_at(heap, size, k), l, met);
    }
    count
}

// The slots' lines, and the closing 6.
pub fn listed(listing: &mut [u64], heap: &[u8], size: usize, n: usize, room: u64) -> u64
    requires { (n * size ≤ length heap.now) × (n ≤ 256) × (size ≤ 1048576) × (room ≤ 65536) }
    ensures { Tells 0 (list_of room (slots_judged n size heap.now)) listing.old listing.new result }
{
    let slots = sound(heap, size, n);
    let count = all_lines(listing, heap, size, n, &slots);
    let more = more_than(heap, size, n, &slots, room);
    note_if(listing, count, more, nowhere(n as u64, Refusal::TableRoom))
}
