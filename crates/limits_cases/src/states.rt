ghost use Rattle.std.specs.Prelude.{◌<◌};

use crate::show::counted;
use file_map::recorded;
use rules::{Label, Record, Settings, State};
use std::io;
use test_host::text;

// A store of two slots of 128 bytes: a table of two entries, a file of two entries in slot 1.
pub fn settings() -> Settings {
    let mut s = limits::defaults();
    s.slot_bytes = 128;
    s
}

fn label() -> Label {
    file_map::labelled(5, 20, 64, 2, 255)
}

fn file() -> Record {
    recorded(label(), 2, 0)
}

fn with(slot: usize, r: Record) -> State
    requires { slot < 256 }
{
    let files = file_map::with_record(file_map::no_files(), slot, r);
    file_map::state_of(settings(), 256, 2, files, 90)
}

pub fn store() -> State {
    with(1, file())
}

// What counts answers for this state and table.
fn counts_of(rt: &impl Print, word: &[u8], state: State, table: &[u64]) -> io::Result<()> {
    text(rt, word)?;
    counted(rt, claims::counts(settings(), state, &[0u8; 256], table))
}

fn counts(rt: &impl Print, word: &[u8], state: State) -> io::Result<()> {
    counts_of(rt, word, state, &[3u64, 10, 7, 13])
}

// "lengths or settings not those of the state", and "next position 0"
fn not_the_states(rt: &impl Print) -> io::Result<()> {
    counts(rt, b"whole:", store())?;
    let mut settings = store();
    settings.settings.max_object_size = 1025;
    counts(rt, b"other settings:", settings)?;
    let mut heap = store();
    heap.heap_len = 128;
    counts(rt, b"other heap length:", heap)?;
    let mut table = store();
    table.table_len = 3;
    counts(rt, b"other table length:", table)?;
    let mut next = store();
    next.next_position = 0;
    counts(rt, b"next position 0:", next)
}

// "a table not in the form above"
fn tables(rt: &impl Print) -> io::Result<()> {
    counts_of(rt, b"ids not rising:", store(), &[7u64, 10, 7, 13])?;
    counts_of(rt, b"used behind unused:", store(), &[0u64, 0, 7, 13])?;
    counts_of(rt, b"an id without a location:", store(), &[3u64, 10, 7, 0])?;
    counts_of(rt, b"odd length:", store(), &[3u64, 10, 7, 13, 0])?;
    counts_of(rt, b"nothing used:", store(), &[0u64; 4])
}

// "a non-empty record at slot N or above, outside 8's bounds, or with present over file_size or live over the table's length"
fn records(rt: &impl Print) -> io::Result<()> {
    counts(rt, b"slot 0:", with(0, file()))?;
    counts(rt, b"slot N:", with(2, file()))?;
    counts(rt, b"slot 255:", with(255, file()))?;
    let mut large = label();
    large.file_size = 65;
    counts(
        rt,
        b"file_size over S - 64:",
        with(1, recorded(large, 2, 0)),
    )?;
    let mut offset = label();
    offset.trailer_offset = 65;
    counts(rt, b"T over file_size:", with(1, recorded(offset, 2, 0)))?;
    let mut present = label();
    present.present_objects = 65;
    counts(
        rt,
        b"present over file_size:",
        with(1, recorded(present, 2, 0)),
    )?;
    counts(
        rt,
        b"live over the table:",
        with(1, recorded(label(), 3, 0)),
    )?;
    let mut generation = label();
    generation.generation = 256;
    counts(rt, b"generation 256:", with(1, recorded(generation, 2, 0)))
}

// "masked lsn 0, lsn of 2^63 or more, or masked lsn + T of 2^62 or more"
fn lsn(rt: &impl Print, word: &[u8], n: u64) -> io::Result<()> {
    let mut l = label();
    l.lsn = n;
    counts(rt, word, with(1, recorded(l, 2, 0)))
}

fn lsns(rt: &impl Print) -> io::Result<()> {
    lsn(rt, b"lsn 0:", 0)?;
    lsn(rt, b"the batch bit alone:", 4611686018427387904)?;
    lsn(rt, b"lsn 2^63:", 9223372036854775808)?;
    lsn(rt, b"masked lsn + T 2^62 - 1:", 4611686018427387883)?;
    lsn(rt, b"masked lsn + T 2^62:", 4611686018427387884)
}

// "An empty record is all zeros.", and "has [the mark] clear": a record with one number is not empty.
fn empty(rt: &impl Print) -> io::Result<()> {
    counts(rt, b"all zeros:", with(1, file_map::empty()))?;
    counts(
        rt,
        b"zeros but live 1:",
        with(1, recorded(file_map::no_label(), 1, 0)),
    )?;
    counts(
        rt,
        b"zeros but the mark:",
        with(1, recorded(file_map::no_label(), 0, 1)),
    )
}

// A store whose file has a synced mark that is neither 0 nor 1.
pub fn marked_2() -> State {
    with(1, recorded(label(), 2, 2))
}

// The mark: 0 clear, 1 set, and no other number.
fn marks(rt: &impl Print) -> io::Result<()> {
    counts(rt, b"mark 1:", with(1, recorded(label(), 2, 1)))?;
    counts(rt, b"mark 2:", marked_2())
}

pub fn condition_one(rt: &impl Print) -> io::Result<()> {
    not_the_states(rt)?;
    tables(rt)?;
    records(rt)?;
    lsns(rt)?;
    empty(rt)?;
    marks(rt)
}
