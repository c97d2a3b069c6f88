// What a call answered.
use rules::{Counts, Refusal, Stopped};
use std::io;
use test_host::{number, refused, text};

// Ids moved; or number, generation and ids moved before.
pub fn maintained(rt: &impl Print, a: Result<u64, Stopped>) -> io::Result<()> {
    match a {
        Ok(moved) => {
            text(rt, b"maintain ok")?;
            number(rt, moved)
        }
        Err(
            Stopped {
                refusal,
                generation,
                moved,
            },
        ) => {
            text(rt, b"maintain")?;
            refused(rt, refusal)?;
            number(rt, generation)?;
            number(rt, moved)
        }
    }
}

fn four(rt: &impl Print, c: Counts) -> io::Result<()> {
    text(rt, b"counts")?;
    number(rt, c.files)?;
    number(rt, c.bytes)?;
    number(rt, c.present)?;
    number(rt, c.live)
}

pub fn counted(rt: &impl Print, a: Result<Counts, Refusal>) -> io::Result<()> {
    match a {
        Ok(c) => four(rt, c)?,
        Err(r) => {
            text(rt, b"counts")?;
            refused(rt, r)?;
        }
    }
    text(rt, b"\n")
}

// A body by its length and checksum.
pub fn body(rt: &impl Print, id: u64, s: &[u8]) -> io::Result<()> {
    text(rt, b" id")?;
    number(rt, id)?;
    number(rt, s.len() as u64)?;
    number(rt, checksum::sum(s) as u64)
}
