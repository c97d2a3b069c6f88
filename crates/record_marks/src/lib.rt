// Request P6 on one record, on a list of them, and on a state's own records by value.

#![tactic(auto)]

ghost use Rattle.std.specs.Prelude.{◌≡◌};
ghost use Rattle.rules.specs.Base.{any, pick};
ghost use Rattle.rules.specs.Sync.{is_unsynced, marked, marked_all, unsynced_in};

use file_map::{is_empty, recorded};
use rules::{FileMap, Record};

// ---- one record
// "an empty record has it clear and is never counted or marked"
pub fn is_unsynced(r: Record) -> bool
    ensures { result ≡ is_unsynced r }
{
    !is_empty(r) & (r.synced == 0)
}

// The record "set by a sync call".
pub fn marked(r: Record) -> Record
    ensures { result ≡ marked r }
{
    if is_unsynced(r) {
        return recorded(r.label, r.live, 1);
    }
    r
}

// ---- a list of records
// "how many aren't synced"
pub fn count(records: &[Record]) -> u64
    ensures { result ≡ unsynced_in records.now }
{
    records.iter().map(|r| u64::from(is_unsynced(*r))).sum()
}

// All of them marked, and "whether any mark changed".
pub fn mark(records: &mut [Record]) -> bool
    ensures marks { records.new ≡ marked_all records.old }
    ensures answers { result ≡ any is_unsynced records.old }
{
    let mut changed = false;
    for r in records.iter_mut() {
        changed |= is_unsynced(*r);
        *r = marked(*r);
    }
    changed
}

// ---- a state's records
pub fn unsynced(files: FileMap) -> u64
    ensures { result ≡ unsynced_in files.records }
{
    count(&files.records)
}

// The records after a sync call, and "whether any mark changed": 1 for yes, 0 for no.
// Kept: a number and no bool, since the clause `answers` gives the call's value.
#[derive(Clone, Copy)]
pub struct Synced {
    pub files: FileMap,
    pub changed: u64,
}

pub fn sync(files: FileMap) -> Synced
    ensures marks { result.files.records ≡ marked_all files.records }
    ensures answers { result.changed ≡ pick (any is_unsynced files.records) 1 0 }
{
    let mut after = files;
    let changed = mark(&mut after.records);
    Synced {
        files: after,
        changed: u64::from(changed),
    }
}
