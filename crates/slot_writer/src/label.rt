ghost use Rattle.std.specs.Prelude.{◌≡◌, ◌+◌, ◌≤◌, length};
ghost use Rattle.numbers.specs.Groups.{groups_of};
ghost use Rattle.numbers.specs.Parts.{put_at, front};
ghost use Rattle.rules.specs.Label.{label_bytes};
ghost use Rattle.stores.specs.Runs.{Made};
ghost use Rattle.slot_writer.specs.Labels.{five_groups, label_stores};

use numbers::groups;
use rules::{LABEL_BYTES, Label};

// A number in groups from `at` on; answers where it ends.
fn put_groups(label: &mut [u8], at: usize, x: u64) -> usize
    requires { at + 10 ≤ length label.old }
    ensures answers { result ≡ at + length (groups_of 10 x) }
    ensures writes { label.new ≡ put_at label.old at (groups_of 10 x) }
{
    at + groups::encode(&mut label[at..], x)
}

// "lsn, trailer_offset, file_size, present_objects, generation as numbers in groups of seven bits"
fn put_five(label: &mut [u8], l: Label)
    requires { 64 ≤ length label.old }
    ensures { label.new ≡ front (five_groups l) label.old }
{
    let a = put_groups(label, 0, l.lsn);
    let b = put_groups(label, a, l.trailer_offset);
    let c = put_groups(label, b, l.file_size);
    let d = put_groups(label, c, l.present_objects);
    put_groups(label, d, l.generation);
}

// "Zeros fill the 64 bytes."
fn bytes_of(l: Label) -> [u8; LABEL_BYTES]
    ensures { result ≡ label_bytes l }
{
    let mut label = [0u8; LABEL_BYTES];
    put_five(&mut label, l);
    label
}

// A label at the start of its slot: bytes 2 to 64, then byte 1, as far as `left` stores reach.
pub fn put(heap: &mut [u8], start: usize, l: Label, left: u64) -> u64
    requires { start + 64 ≤ length heap.old }
    ensures { Made left (label_stores start (label_bytes l)) heap.old heap.new result }
{
    let label = bytes_of(l);
    let second = start + 1;
    let behind = stores::put_bytes(heap, second, &label[1..LABEL_BYTES], left);
    stores::put_bytes(heap, start, &label[0..1], behind)
}
