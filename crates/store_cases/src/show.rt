// What a call answered.
use rules::{Lookup, Refusal};
use std::io;
use test_host::{refused, text};

fn byte(rt: &impl Print, b: u8) -> io::Result<()> {
    print!(rt; "{b:02x}")
}

fn hex(rt: &impl Print, s: &[u8]) -> io::Result<()> {
    for b in s {
        byte(rt, *b)?;
    }
    Ok(())
}

pub fn bytes(rt: &impl Print, s: &[u8]) -> io::Result<()> {
    if s.len() == 0 {
        return text(rt, b"-");
    }
    hex(rt, s)
}

pub fn answer(rt: &impl Print, a: Result<(), Refusal>) -> io::Result<()> {
    match a {
        Ok(()) => text(rt, b" ok"),
        Err(r) => refused(rt, r),
    }
}

pub fn read(rt: &impl Print, a: Result<Lookup, Refusal>, body: &[u8]) -> io::Result<()> {
    match a {
        Ok(Lookup::Found(_, _)) => {
            text(rt, b" ok ")?;
            bytes(rt, body)
        }
        Ok(Lookup::Deleted) => text(rt, b" deleted"),
        Ok(Lookup::NeverWritten) => text(rt, b" never"),
        Err(r) => refused(rt, r),
    }
}
