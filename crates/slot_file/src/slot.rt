ghost use Rattle.std.specs.Prelude.{◌≡◌, ◌+◌, ◌*◌, ◌-◌, ◌≤◌, length, drop};
ghost use Rattle.rules.specs.declared.LabelAnswer.TheVariants.{Five};
ghost use Rattle.rules.specs.Refusal.{decide};
ghost use Rattle.rules.specs.SlotFile.{bytes_of_slot, file_in, object_part, trailer_part, slot_tests, view_by, view_in};
ghost use Rattle.slot_file.specs.Labels.{Inside};
ghost use Rattle.slot_file.specs.Slots.{shown_by, entry_tests};

use crate::label;
use label_bounds::out_of_bounds;
use rules::{LABEL_BYTES, Label, LabelAnswer, Refusal};

// Slot k, a part of the lent heap.
pub fn slot_at(heap: &[u8], size: usize, k: usize) -> &[u8]
    requires { k * size + size ≤ length heap.now }
    ensures { result.now ≡ bytes_of_slot size heap.now k }
{
    let start = k * size;
    let end = start + size;
    &heap[start..end]
}

// "a 64-byte label, then the file"
fn behind_label(slot: &[u8]) -> &[u8]
    ensures { result.now ≡ drop 64 slot.now }
{
    if slot.len() < LABEL_BYTES {
        return &slot[0..0];
    }
    &slot[LABEL_BYTES..]
}

// The file that a label describes, a part of the lent slot.
pub fn file_part(slot: &[u8], l: Label) -> &[u8]
    requires { l.file_size ≤ length slot.now - 64 }
    ensures { result.now ≡ file_in l slot.now }
{
    let behind = behind_label(slot);
    let end = l.file_size as usize;
    &behind[..end]
}

// Its object bytes.
pub fn object_part(slot: &[u8], l: Label) -> &[u8]
    requires { Inside (length slot.now) l }
    ensures { result.now ≡ object_part l slot.now }
{
    let file = file_part(slot, l);
    let end = l.trailer_offset as usize;
    &file[..end]
}

// Its trailer.
pub fn trailer_part(slot: &[u8], l: Label) -> &[u8]
    requires { Inside (length slot.now) l }
    ensures { result.now ≡ trailer_part l slot.now }
{
    let file = file_part(slot, l);
    let start = l.trailer_offset as usize;
    &file[start..]
}

// 9 to 13, in order.
fn check_trailer(bytes: &[u8], l: Label) -> Result<(), Refusal>
    ensures { result ≡ decide (entry_tests l bytes.now) }
{
    trailer::check(bytes)?;
    if trailer::some_misplaced(bytes, l.trailer_offset) {
        return Err(Refusal::EntryPosition);
    }
    if l.present_objects != trailer::count(bytes) {
        return Err(Refusal::PresentCount);
    }
    Ok(())
}

// 8 to 13, in order, for a label's five numbers.
fn check_file(slot: &[u8], l: Label) -> Result<(), Refusal>
    ensures { result ≡ decide (slot_tests l slot.now) }
{
    if out_of_bounds(slot.len() as u64, l) {
        return Err(Refusal::LabelBytes);
    }
    check_trailer(trailer_part(slot, l), l)
}

// What the five numbers show of their slot.
fn shown(slot: &[u8], l: Label) -> Result<Option<Label>, Refusal>
    ensures { result ≡ shown_by (view_by (Five l) slot.now) }
{
    check_file(slot, l)?;
    Ok(Some(l))
}

// What a slot's bytes show, whatever they are.
pub fn check(slot: &[u8]) -> Result<Option<Label>, Refusal>
    ensures { result ≡ shown_by (view_in slot.now) }
{
    match label::read(slot) {
        LabelAnswer::Vacant => Ok(None),
        LabelAnswer::Wrong => Err(Refusal::LabelBytes),
        LabelAnswer::Five(l) => shown(slot, l),
    }
}
