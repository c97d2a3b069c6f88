// Request P5 of document 02: the lines of the checker's list, and a slot's own fault, which request P9 goes by too.

#![tactic(auto)]

ghost use Rattle.std.specs.Prelude.{◌≡◌, map, ◌*◌, ◌≤◌, length};
ghost use Rattle.rules.specs.SlotFile.{view_in, views_in};
ghost use Rattle.slot_file.specs.Slots.{shown_by};
ghost use Rattle.reopen_tests.specs.Labels.{labels_of};
ghost use Rattle.reopen_tests.specs.Shown.{FileAt};
ghost use Rattle.faults.specs.Faults.{judged};

use reopen_tests::Labels;
use reopen_tests::rising::falls;
use reopen_tests::slots::{label, no_labels};
use rules::{Label, Refusal};
use slot_file::slot::{self, slot_at, trailer_part};

// "each with slot number, refusal number and, for an object, its position"
#[derive(Clone, Copy)]
pub struct Fault {
    pub slot: u64,
    pub refusal: Refusal,
    pub place: Option<u64>,
}

// 15, for a file that passed 8 to 13.
fn rising(slot: &[u8], l: Label) -> Result<Option<Label>, Refusal>
    requires { FileAt slot.now l }
    ensures { result ≡ shown_by (judged (view_in slot.now)) }
{
    if falls(trailer_part(slot, l)) {
        return Err(Refusal::NotRising);
    }
    Ok(Some(l))
}

// "the first failure of 8 to 13 and 15", by the slot's bytes alone.
pub fn own(slot: &[u8]) -> Result<Option<Label>, Refusal>
    ensures { result ≡ shown_by (judged (view_in slot.now)) }
{
    match slot::check(slot)? {
        Some(l) => rising(slot, l),
        None => Ok(None),
    }
}

// The labels of the sound slots: zeros for one that is empty or has a fault of its own.
pub fn sound(heap: &[u8], size: usize, n: usize) -> Labels
    requires size_in_bounds { n * size ≤ length heap.now }
    requires n_bound { n ≤ 256 }
    ensures { result.labels ≡ labels_of (map judged (views_in n size heap.now)) }
{
    let mut slots = no_labels();
    for k in 0..n {
        slots.labels[k] = label(own(slot_at(heap, size, k)));
    }
    slots
}
