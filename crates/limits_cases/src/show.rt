use as_numbers::answers::refusal_number;
use rules::{Counts, Refusal};
use std::io;
use test_host::{number, text};

// Whether 1 refuses.
pub fn refused(rt: &impl Print, b: bool) -> io::Result<()> {
    if b {
        return text(rt, b" 1");
    }
    text(rt, b" ok")
}

pub fn answer(rt: &impl Print, a: Result<(), Refusal>) -> io::Result<()> {
    match a {
        Ok(()) => text(rt, b" ok"),
        Err(r) => number(rt, refusal_number(r)),
    }
}

pub fn counted(rt: &impl Print, a: Result<Counts, Refusal>) -> io::Result<()> {
    match a {
        Ok(c) => {
            for n in [c.files, c.bytes, c.present, c.live] {
                number(rt, n)?;
            }
        }
        Err(r) => test_host::refused(rt, r)?,
    }
    text(rt, b"\n")
}
