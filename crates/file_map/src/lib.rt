// The file map (`src/file_map.rs`): 256 records by value, and their lsns and live counts as flat lists, for a call on many ids.

#![tactic(auto)]

ghost use Rattle.std.specs.Prelude.{◌≡◌, ◌<◌, ◌≤◌, set, length, position};
ghost use Rattle.rules.specs.FileMap.{empty_label, recorded, empty_record, is_empty, with_live, no_files, lowest_empty, file_for};
ghost use Rattle.rules.specs.Counts.{counts_of};
ghost use Rattle.file_map.specs.Records.{labelled, fresh, state_by, Bounded};
ghost use Rattle.file_lists.specs.Lists.{lsns_of, lives_of, with_lives};

use rules::{Counts, FileMap, Label, RECORDS, Record, Settings, State};

// ---- a label
// A label's five numbers.
pub fn labelled(lsn: u64, offset: u64, size: u64, present: u64, generation: u64) -> Label
    ensures { result ≡ labelled lsn offset size present generation }
{
    Label {
        lsn: lsn,
        trailer_offset: offset,
        file_size: size,
        present_objects: present,
        generation: generation,
    }
}

// What stands for a slot without a file.
pub fn no_label() -> Label
    ensures { result ≡ empty_label }
{
    labelled(0, 0, 0, 0, 0)
}

// ---- a record: made in one place for each origin
// "A record holds the label's five numbers and the live count", and the synced mark: 0 clear, 1 set.
pub fn recorded(label: Label, live: u64, synced: u64) -> Record
    ensures { result ≡ recorded label live synced }
{
    Record {
        label: label,
        live: live,
        synced: synced,
    }
}

// "An empty record is all zeros."
pub fn empty() -> Record
    ensures { result ≡ empty_record }
{
    recorded(no_label(), 0, 0)
}

// The same file with another live count; its mark stays.
pub fn with_live(r: Record, live: u64) -> Record
    ensures { result ≡ with_live r live }
{
    let mut s = r;
    s.live = live;
    s
}

// "the new file has all its entries live"; the mark is "clear on writing"
pub fn fresh(label: Label) -> Record
    ensures { result ≡ fresh label }
{
    recorded(label, label.present_objects, 0)
}

pub fn is_empty(r: Record) -> bool
    ensures { result ≡ is_empty r }
{
    // Kept: seven tests and no derived `==`, which goes on by branches: a count of the unsynced took over half as long again with it.
    (r.label.lsn == 0)
        & (r.label.trailer_offset == 0)
        & (r.label.file_size == 0)
        & (r.label.present_objects == 0)
        & (r.label.generation == 0)
        & (r.live == 0)
        & (r.synced == 0)
}

// ---- the map
// "256 records, every one empty at first"
pub fn no_files() -> FileMap
    ensures { result.records ≡ no_files }
{
    let e = empty();
    FileMap {
        records: [e; RECORDS],
    }
}

// A slot's record replaced: a file added, or emptied.
pub fn with_record(m: FileMap, slot: usize, r: Record) -> FileMap
    requires { slot < 256 }
    ensures { result.records ≡ set m.records slot r }
{
    let mut n = m;
    n.records[slot] = r;
    n
}

// The place of the first empty record.
fn first_empty(records: &[Record]) -> Option<usize>
    ensures { result ≡ position (λ r. is_empty r) records.now }
{
    records.iter().position(|r| is_empty(*r))
}

// "the lowest empty slot" of the heap's n; n where there is none.
pub fn lowest_empty(m: FileMap, n: usize) -> usize
    requires { n ≤ 256 }
    ensures { result ≡ lowest_empty n m.records }
{
    first_empty(&m.records[..n]).unwrap_or(n)
}

// "Files, bytes, present, live, summed over files."
pub fn counts(m: FileMap) -> Counts
    requires { Bounded m.records }
    ensures { result ≡ counts_of m.records }
{
    let mut files: u64 = 0;
    let mut bytes: u64 = 0;
    let mut present: u64 = 0;
    let mut live: u64 = 0;
    for r in &m.records {
        if !is_empty(*r) {
            files += 1;
        }
        bytes += r.label.file_size;
        present += r.label.present_objects;
        live += r.live;
    }
    Counts {
        files: files,
        bytes: bytes,
        present: present,
        live: live,
    }
}

// ---- a state: made here alone
// A state of these settings and lengths, with these records.
pub fn state_of(
    settings: Settings,
    heap_len: u64,
    table_len: u64,
    files: FileMap,
    next_position: u64,
) -> State
    ensures { result ≡ state_by settings heap_len table_len files.records next_position }
{
    State {
        settings: settings,
        heap_len: heap_len,
        table_len: table_len,
        files: files,
        next_position: next_position,
    }
}

// ---- flat lists: a call on many ids copies the map once, not once for each id
// Kept: two loops of one line each; one that is given a closure for the number would need more clauses on that closure than it saves.
pub fn lsns(m: FileMap) -> [u64; RECORDS]
    ensures { result ≡ lsns_of m.records }
{
    let mut lsns = [0u64; RECORDS];
    for (i, r) in m.records.iter().enumerate() {
        lsns[i] = r.label.lsn;
    }
    lsns
}

pub fn lives(m: FileMap) -> [u64; RECORDS]
    ensures { result ≡ lives_of m.records }
{
    let mut lives = [0u64; RECORDS];
    for (i, r) in m.records.iter().enumerate() {
        lives[i] = r.live;
    }
    lives
}

pub fn with_lives(m: FileMap, lives: &[u64]) -> FileMap
    requires { length lives.now ≡ 256 }
    ensures { result.records ≡ with_lives m.records lives.now }
{
    let mut n = m;
    for (i, live) in lives.iter().enumerate() {
        n.records[i] = with_live(n.records[i], *live);
    }
    n
}

// A lookup by the flat list of lsns.
pub fn file_for(m: FileMap, location: u64) -> Option<u64>
    ensures { result ≡ file_for m.records location }
{
    let l = lsns(m);
    file_lists::lsn_at(&l, location)
}
