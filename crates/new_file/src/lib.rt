// Refusals 4 and 7, for write and maintenance alike: whether a new file has room in its slot, and whether positions are left for it. No sum
// is made that could wrap.

#![tactic(auto)]

ghost use Rattle.std.specs.Prelude.{◌≡◌, ◌+◌, ◌*◌, ◌^◌, ltb};

use disk_location::BATCH_BIT;
use rules::{LABEL_BYTES, TRAILER_ENTRY, TRAILER_HEAD};

// What a slot has beside objects and entries.
const FRAME: u64 = LABEL_BYTES as u64 + TRAILER_HEAD as u64;

const ENTRY: u64 = TRAILER_ENTRY as u64;

// "4 64 + file_size > S", of a file of T object bytes and that many entries.
pub fn too_large(slot_bytes: u64, total: u64, count: u64) -> bool
    ensures { result ≡ ltb slot_bytes (64 + (total + (12 + 16 * count))) }
{
    if slot_bytes < FRAME {
        return true;
    }
    let room = slot_bytes - FRAME;
    if room < total {
        return true;
    }
    (room - total) / ENTRY < count
}

// "7 .. base + sum of (T + 1) over them > 2^62": `spans` is that sum.
pub fn spent(base: u64, spans: u64) -> bool
    ensures { result ≡ ltb (2 ^ 62) (base + spans) }
{
    BATCH_BIT < base.saturating_add(spans)
}
