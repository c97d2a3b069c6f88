// 8's bounds on a label's five numbers.

#![tactic(auto)]

ghost use Rattle.std.specs.Prelude.{◌≡◌};
ghost use Rattle.rules.specs.Label.{out_of_bounds};

use disk_location::{BATCH_BIT, POSITIONS};
use rules::{LABEL_BYTES, Label};

// A sum that would wrap is the greatest number, which is over its bound too.
pub fn out_of_bounds(slot_bytes: u64, l: Label) -> bool
    ensures { result ≡ out_of_bounds slot_bytes l }
{
    let room = slot_bytes.saturating_sub(LABEL_BYTES as u64);
    let at = disk_location::masked(l.lsn);
    let end = at.saturating_add(l.trailer_offset);
    room < l.file_size
        || l.file_size < l.trailer_offset
        || at == 0
        || POSITIONS <= l.lsn
        || BATCH_BIT <= end
        || 255 < l.generation
}
