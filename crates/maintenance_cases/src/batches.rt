// Batches from pairs of an id and a length: the body is that many bytes of the id's number; DELETE stands for no body.
ghost use Rattle.std.specs.Prelude.{◌≤◌};

pub const DELETE: u64 = 512;

pub fn byte(batch: &mut [u8], at: usize, b: u8) {
    if at < batch.len() {
        batch[at] = b;
    }
}

fn fill(batch: &mut [u8], start: usize, end: usize, b: u8) {
    for at in start..end {
        byte(batch, at, b);
    }
}

// A length in one group or in two, then the body; where it ends.
fn body(batch: &mut [u8], at: usize, id: u8, length: usize) -> usize
    requires at_bound { at ≤ 1600 }
    requires length_len_bound { length ≤ 256 }
    ensures { result ≤ 2048 }
{
    if length < 128 {
        byte(batch, at, length as u8);
        fill(batch, at + 1, at + 1 + length, id);
        return at + 1 + length;
    }
    byte(batch, at, (length % 128 + 128) as u8);
    byte(batch, at + 1, (length / 128) as u8);
    fill(batch, at + 2, at + 2 + length, id);
    at + 2 + length
}

// One operation behind what stands there; where it ends. An id or length that does not fit leaves the batch as it is.
fn operation(batch: &mut [u8], at: usize, id: u64, length: u64) -> usize
    requires { at ≤ 2048 }
    ensures { result ≤ 2048 }
{
    if 1536 < at {
        return at;
    }
    if 127 < id {
        return at;
    }
    byte(batch, at, id as u8);
    if length == DELETE {
        byte(batch, at + 1, 0);
        return at + 2;
    }
    if 256 < length {
        return at;
    }
    byte(batch, at + 1, 1);
    body(batch, at + 2, id as u8, length as usize)
}

// The batch's length.
pub fn make(batch: &mut [u8], pairs: &[u64]) -> usize
    ensures { result ≤ 2048 }
{
    let mut end: usize = 0;
    for pair in pairs.chunks_exact(2) {
        end = operation(batch, end, pair[0], pair[1]);
    }
    end
}
