ghost use Rattle.std.specs.Prelude.{◌≡◌, ◌+◌, ◌-◌, ◌≤◌, length, drop};
ghost use Rattle.rules.specs.Object.{stored_at, bad_checksum};
ghost use Rattle.stored_object.specs.Objects.{header_of, step_of, body_of, objects_at};

use crate::{Header, Step};
use numbers::little_endian;
use rules::{LENGTH_AT, OBJECT_HEADER, Refusal};

// How many bytes there are from a position on.
fn room(bytes: &[u8], position: u64) -> u64
    ensures { result ≡ length bytes.now - position }
{
    (bytes.len() as u64).saturating_sub(position)
}

// "checksum 4, id 8, length 8": the numbers of the object at a position.
fn header(bytes: &[u8], position: u64) -> Header
    requires { position + 20 ≤ length bytes.now }
    ensures { result ≡ header_of (stored_at position (drop position bytes.now)) }
{
    let at = position as usize;
    let sum = little_endian::get(&bytes[at..], 4);
    let behind_sum = at + 4;
    let id = little_endian::get(&bytes[behind_sum..], 8);
    let behind_id = at + LENGTH_AT;
    let size = little_endian::get(&bytes[behind_id..], 8);
    Header {
        checksum: sum,
        id: id,
        size: size,
        room: room(bytes, position),
    }
}

// "10 checksum", for an object whose body lies within the bytes; h is its header.
pub fn bad_checksum(bytes: &[u8], position: u64, h: Header) -> bool
    requires h_value { h ≡ header_of (stored_at position (drop position bytes.now)) }
    requires size_bound { 20 + h.size ≤ h.room }
    ensures { result ≡ bad_checksum (stored_at position (drop position bytes.now)) }
{
    let start = position as usize + OBJECT_HEADER;
    let end = start + h.size as usize;
    let right = checksum::object_sum(h.id, &bytes[start..end]) as u64;
    h.checksum != right
}

// The object bytes walked by their lengths: what stands at a position. The next object is 20 + size further on.
pub fn step(objects: &[u8], position: u64) -> Step
    ensures { result ≡ step_of (objects_at objects.now position) }
{
    let left = room(objects, position);
    if left == 0 {
        return Step::End;
    }
    if left < OBJECT_HEADER as u64 {
        return Step::HeaderCut;
    }
    Step::Here(header(objects, position))
}

// Where the body of the object at a position of a file lies: 16, 10, 17 in order. No stored length is trusted.
pub fn read(file: &[u8], position: u64, id: u64) -> Result<(u64, u64), Refusal>
    ensures { result ≡ body_of id (stored_at position (drop position file.now)) }
{
    if room(file, position) < OBJECT_HEADER as u64 {
        return Err(Refusal::CutShort);
    }
    let h = header(file, position);
    let most = h.room - OBJECT_HEADER as u64;
    if most < h.size {
        return Err(Refusal::CutShort);
    }
    if bad_checksum(file, position, h) {
        return Err(Refusal::Checksum);
    }
    if h.id != id {
        return Err(Refusal::OtherId);
    }
    Ok((position + OBJECT_HEADER as u64, h.size))
}
