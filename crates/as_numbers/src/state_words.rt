// The state as 1,801 lent words: the fields of `State` in their order, of each record its seven.
ghost use Rattle.std.specs.Prelude.{◌≡◌, ◌+◌, ◌≤◌, length};
ghost use Rattle.numbers.specs.Parts.{put_at};
ghost use Rattle.as_numbers.specs.StateWords.{record_at, settings_in, state_in, record_words, records_words, settings_words};

use file_map::{labelled, no_files, recorded, state_of};
use rules::{FileMap, RECORDS, Record, Settings, State};

// ---- from words
// "A record holds the label's five numbers and the live count", and the synced mark.
fn record_at(words: &[u64], at: usize) -> Record
    requires { at + 7 ≤ length words.now }
    ensures { result ≡ record_at words.now at }
{
    let label = labelled(
        words[at],
        words[at + 1],
        words[at + 2],
        words[at + 3],
        words[at + 4],
    );
    recorded(label, words[at + 5], words[at + 6])
}

// "a file map of 256 records"
pub fn files_in(words: &[u64]) -> FileMap
    requires { length words.now ≡ 1801 }
    ensures { result ≡ (state_in words.now).files }
{
    let mut files = no_files();
    for (k, r) in files.records.iter_mut().enumerate() {
        *r = record_at(words, 8 + 7 * k);
    }
    files
}

fn settings_in(words: &[u64]) -> Settings
    requires { length words.now ≡ 1801 }
    ensures { result ≡ settings_in words.now }
{
    Settings {
        slot_bytes: words[0],
        file_compaction_percent: words[1],
        min_compaction_files: words[2],
        target_file_size: words[3],
        small_file_cleanup_threshold: words[4],
        max_object_size: words[5],
    }
}

// The state that the words hold.
pub fn state_in(words: &[u64]) -> State
    requires { length words.now ≡ 1801 }
    ensures { result ≡ state_in words.now }
{
    let settings = settings_in(words);
    let files = files_in(words);
    state_of(settings, words[6], words[7], files, words[1800])
}

// ---- to words
fn put_record(words: &mut [u64], at: usize, r: Record)
    requires { at + 7 ≤ length words.old }
    ensures { words.new ≡ put_at words.old at (record_words r) }
{
    words[at..at + 7].copy_from_slice(&[
        r.label.lsn,
        r.label.trailer_offset,
        r.label.file_size,
        r.label.present_objects,
        r.label.generation,
        r.live,
        r.synced,
    ]);
}

// Kept by value: lent, the compiled calls copy the file map once more.
fn put_records(words: &mut [u64], files: FileMap)
    requires { length words.old ≡ 1801 }
    ensures { words.new ≡ put_at words.old 8 (records_words files.records) }
{
    for k in 0..RECORDS {
        put_record(words, 8 + 7 * k, files.records[k]);
    }
}

fn put_settings(words: &mut [u64], s: Settings)
    requires { length words.old ≡ 1801 }
    ensures { words.new ≡ put_at words.old 0 (settings_words s) }
{
    words[..6].copy_from_slice(&[
        s.slot_bytes,
        s.file_compaction_percent,
        s.min_compaction_files,
        s.target_file_size,
        s.small_file_cleanup_threshold,
        s.max_object_size,
    ]);
}

// The words of a state, in the place of what stood there.
pub fn put_state(words: &mut [u64], s: State)
    requires { length words.old ≡ 1801 }
    ensures { state_in words.new ≡ s }
{
    put_settings(words, s.settings);
    words[6] = s.heap_len;
    words[7] = s.table_len;
    put_records(words, s.files);
    words[1800] = s.next_position;
}
