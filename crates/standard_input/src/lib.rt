// Standard input, read into a lent buffer.

#![tactic(auto)]

ghost use Rattle.std.specs.Prelude.{◌≡◌, ◌≤◌, length};

use std::io::Read;

// 4,096 zeros.
// Kept: of one function over a const size both callers would have to name the size, and the body is one expression.
pub fn buffer() -> [u8; 4096]
    ensures { 4096 ≡ length result }
{
    [0u8; 4096]
}

// 65,536 zeros.
pub fn large_buffer() -> [u8; 65536]
    ensures { 65536 ≡ length result }
{
    [0u8; 65536]
}

// The next bytes: none at the input's end, or where it cannot be read.
pub fn read_some(reader: &mut impl Read, buf: &mut [u8]) -> usize
    ensures { result ≤ length buf.new }
{
    reader.read(buf).unwrap_or(0)
}

// Reads until the buffer is full, the input ends or a read fails: how many bytes stand at the buffer's front.
pub fn read_full(rt: &impl Input, buf: &mut [u8]) -> usize
    ensures { result ≤ length buf.new }
{
    let mut reader = rt.reader();
    let mut done: usize = 0;
    while done < buf.len() {
        let n = read_some(&mut reader, &mut buf[done..]);
        if n == 0 {
            return done;
        }
        done += n;
    }
    done
}
