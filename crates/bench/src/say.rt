// What the console writes: answers, and lines for people, which begin with `#`.
ghost use Rattle.std.specs.Prelude.{◌≡◌, ◌≤◌, length};

use as_numbers::answers::refusal_number;
use rules::{Refusal, Stopped};
use std::io;

pub fn ok(rt: &impl Print) -> io::Result<()> {
    println!(rt; "ok")
}

pub fn bad_line(rt: &impl Print) -> io::Result<()> {
    println!(rt; "bad line")
}

// A word and a number.
pub fn named(rt: &impl Print, word: &[u8], n: u64) -> io::Result<()> {
    rt.write_all(word)?;
    println!(rt; " {n}")
}

pub fn refused(rt: &impl Print, r: Refusal) -> io::Result<()> {
    named(rt, b"refused", refusal_number(r))
}

pub fn answer(rt: &impl Print, a: Result<(), Refusal>) -> io::Result<()> {
    match a {
        Ok(()) => ok(rt),
        Err(r) => refused(rt, r),
    }
}

// Request P7: the count moved.
pub fn rewrote(rt: &impl Print, a: Result<u64, Refusal>) -> io::Result<()> {
    match a {
        Ok(n) => named(rt, b"ok", n),
        Err(r) => refused(rt, r),
    }
}

// The count moved, or number, generation and ids moved so far.
pub fn maintained(rt: &impl Print, a: Result<u64, Stopped>) -> io::Result<()> {
    match a {
        Ok(n) => named(rt, b"ok", n),
        Err(
            Stopped {
                refusal: r,
                generation,
                moved,
            },
        ) => { println!(rt; "refused {} {generation} {moved}", refusal_number(r)) }
    }
}

// Two to each of 2,048 bytes.
fn pair_bytes() -> [u8; 4096]
    ensures { 4096 ≡ length result }
{
    [0u8; 4096]
}

fn hex_piece(rt: &impl Print, piece: &[u8]) -> io::Result<()>
    requires { length piece.now ≤ 2048 }
{
    let mut pairs = pair_bytes();
    script::hex::put_text(piece, &mut pairs);
    rt.write_all(&pairs[..piece.len() * 2])
}

// Hex pairs, `-` for none.
pub fn hex(rt: &impl Print, part: &[u8]) -> io::Result<()> {
    if part.is_empty() {
        return print!(rt; "-");
    }
    for piece in part.chunks(2048) {
        hex_piece(rt, piece)?;
    }
    Ok(())
}

// A word and bytes.
pub fn named_bytes(rt: &impl Print, word: &str, part: &[u8]) -> io::Result<()> {
    print!(rt; "{word} ")?;
    hex(rt, part)?;
    println!(rt; "")
}

// Lines for people.
fn remarks(rt: &impl Print, lines: &[&str]) -> io::Result<()> {
    for line in lines {
        println!(rt; "# {line}")?;
    }
    Ok(())
}

const FIRST_SCREEN: [&str; 3] = [
    "Tumrezask bench: one command to a line, one answer to a command; help lists them.",
    "Settings 4096 50 2 2048 64 1024, a heap of 65536 zeros (16 slots), a table of 1024 entries (2048 words), not reopened.",
    "At most: heap 1048576 bytes, table 131072 words (65536 entries), line 131200 bytes.",
];

pub fn first_screen(rt: &impl Print) -> io::Result<()> {
    remarks(rt, &FIRST_SCREEN)
}

const HELP: [&str; 25] = [
    "Numbers in decimal, bytes as hex pairs (- for none); # starts a comment.",
    "settings S PERCENT MINFILES TARGET THRESHOLD MAXOBJECT   what later calls are given",
    "heap BYTES            table WORDS                        lends buffers of zeros, two words to a table place",
    "poke OFFSET HEX       entry K ID RAW                     changes heap bytes, a table place",
    "state S PERCENT MINFILES TARGET THRESHOLD MAXOBJECT HEAPBYTES TABLE NEXT",
    "record SLOT LSN T SIZE PRESENT GEN LIVE SYNCED           changes the state by hand",
    "claims A B C D                                           changes the claims by hand",
    "reopen   write HEX   read ID   claim SLOT   release SLOT   prune   counts",
    "plan   rewrite G MARK COUNT   maintain                   plans; rewrites one generation; plans, rewrites 1, 2, 3, prunes",
    "through ID HEX                                           reads as if the batch HEX had been written",
    "unsynced              sync                               counts the files not known to be on the flash; marks them",
    "load ID   store ID RAW   cas ID OLD NEW   max ID RAW     the table alone",
    concat!(
        "check ROOM            bytes OFFSET COUNT                 what is wrong with the lent heap, ROOM lines (up to 4096); its ",
        "bytes (up to 65536)"
    ),
    "salvage                                                  empties the slots that make a reopening refuse",
    "list   dump   help",
    "Answers: ok .., differs RAW, refused NUMBER ..; bad line for anything else, and nothing changes.",
    concat!(
        "A read answers ok HEX, deleted (the last operation on the id is a delete) or never (there is none); a load ok RAW, ",
        "deleted RAW or never."
    ),
    concat!(
        "A read through a batch answers batch HEX or heap HEX, by whose bytes they are; deleted or never as a read does; refused ",
        "2 where HEX is no batch. Nothing is written."
    ),
    concat!(
        "A plan answers group G SLOT .. for the files that a rewrite of G would take, foretold NUMBER G for the first one that ",
        "would be refused, then ok MARK COUNT FILES BYTES: the files that come out before it."
    ),
    concat!(
        "A rewrite is given MARK and COUNT of the last plan, so that files written since then are left alone; it answers ok IDS ",
        "and prunes nothing."
    ),
    "Unsynced answers ok FILES, sync ok 1 if a mark changed, else ok 0. Flush, then sync: no write between the flush and the mark.",
    "A check answers fault SLOT NUMBER, or fault SLOT NUMBER POSITION, for each fault that fits, then ok FAULTS.",
    "A salvage answers gave SLOT NUMBER for each slot given up, then ok SLOTS.",
    "A slot given up: any id may read as an older version, a delete may be undone. Reopen; refused with 6: larger table, no write.",
    "A write after a refused reopening takes slot 0 whatever its label says: reopen first, and look at the answer.",
];

pub fn help(rt: &impl Print) -> io::Result<()> {
    remarks(rt, &HELP)
}
