// The split of a group's entries into files (`src/writepath.rs`), by sizes alone: no entry is held, each gets the number
// of the piece that it is in.

#![tactic(auto)]

ghost use Rattle.std.specs.Prelude.{◌≡◌, ◌++◌, ◌+◌, ◌*◌, ◌^◌, ◌≤◌, ◌<◌, eqb, length, get_or, set, take};
ghost use Rattle.numbers.specs.Choice.{pick};
ghost use Rattle.numbers.specs.Parts.{front, put_at};
ghost use Rattle.rules.specs.Refusal.{decide};
ghost use Rattle.gc_split.specs.TotalLaws.{totals_tests};
ghost use Rattle.gc_split.specs.Tally.{sizes_in, counts_in, rounds_in, tally, piece_no, closing, cutting, taking};
ghost use Rattle.gc_split.specs.Tally.{closing_rests, rest_of, rests_from, Within, Closable, Numbered};

use new_file::{spent, too_large};
use rules::{Refusal, Settings};

// A split's list for the 65 shards: their sizes, then their entries, then how often each was cut off.
pub const SHARD_LIST: usize = 195;

const COUNTS_AT: usize = 65;

const ROUNDS_AT: usize = 130;

// Entries taken, files closed, the sum of T + 1 over these, and whether one is too large for a slot.
// Kept: `large` is a test of its own, which no other field depends on; the definition `totals_for` has it beside the sums.
#[derive(Clone, Copy)]
pub struct Totals {
    pub entries: u64,
    pub files: u64,
    pub positions: u64,
    pub large: bool,
}

// A file more, of that many object bytes and entries.
fn closed(t: Totals, slot_bytes: u64, size: u64, count: u64) -> Totals
    requires { (size ≤ 2 ^ 40) × (count ≤ 65536) × (t.files ≤ 2 ^ 20) × (t.positions ≤ 2 ^ 60) }
    ensures { result ≡ closing slot_bytes size count t }
{
    let large = too_large(slot_bytes, size, count);
    Totals {
        files: t.files + 1,
        positions: t.positions + (size + 1),
        large: t.large || large,
        ..t
    }
}

// The number of what is in a shard after so many cuts.
fn piece(shard: usize, round: u64) -> u64
    requires shard_bound { shard < 65 }
    requires round_bound { round ≤ 65536 }
    ensures { result ≡ piece_no shard round }
{
    65 * round + shard as u64
}

// A fragment's number, as far as there are places.
fn note(cuts: &mut [u64], at: u64, piece: u64)
    ensures { cuts.new ≡ set cuts.old at piece }
{
    if at < cuts.len() as u64 {
        cuts[at as usize] = piece;
    }
}

// "a shard of size over target_file_size is cut off as a fragment and restarts at 0"
fn cut_off(
    shards: &mut [u64],
    cuts: &mut [u64],
    totals: Totals,
    shard: usize,
    settings: Settings,
) -> Totals
    requires shard_bound { shard < 65 }
    requires within { Within (tally shards.old cuts.old totals) }
    ensures { tally shards.new cuts.new result
        ≡ cutting settings.target_file_size settings.slot_bytes shard (tally shards.old cuts.old totals) }
{
    let size = shards[shard];
    if size <= settings.target_file_size {
        return totals;
    }
    let count = shards[COUNTS_AT + shard];
    let round = shards[ROUNDS_AT + shard];
    note(cuts, totals.files, piece(shard, round));
    shards[shard] = 0;
    shards[COUNTS_AT + shard] = 0;
    shards[ROUNDS_AT + shard] = round + 1;
    closed(totals, settings.slot_bytes, size, count)
}

// An entry of that size in a shard.
fn enter(shards: &mut [u64], shard: usize, size: u64)
    requires shard_bound { (shard < 65) × (length (rounds_in shards.old) ≡ 65) }
    requires size_bound { (get_or (sizes_in shards.old) shard 0 + size < 2 ^ 64) × (get_or (counts_in shards.old) shard 0 + 1 < 2 ^ 64) }
    ensures sizes { sizes_in shards.new
        ≡ set (sizes_in shards.old) shard (get_or (sizes_in shards.old) shard 0 + size) }
    ensures counts { counts_in shards.new
        ≡ set (counts_in shards.old) shard (get_or (counts_in shards.old) shard 0 + 1) }
    ensures rounds { rounds_in shards.new ≡ rounds_in shards.old }
{
    let sum = shards[shard] + size;
    let count = shards[COUNTS_AT + shard] + 1;
    shards[shard] = sum;
    shards[COUNTS_AT + shard] = count;
}

// An entry of that size joins a shard, which is cut off before or not; its rounds then have the piece that the entry is in.
pub fn join(
    shards: &mut [u64],
    cuts: &mut [u64],
    totals: Totals,
    shard: usize,
    size: u64,
    settings: Settings,
) -> Totals
    requires { (shard < 65) × (size ≤ 2 ^ 21) × (totals.entries < 65536) × Within (tally shards.old cuts.old totals) }
    ensures { tally shards.new cuts.new result
        ≡ taking settings.target_file_size settings.slot_bytes shard size
        (tally shards.old cuts.old totals) }
{
    let t = cut_off(shards, cuts, totals, shard, settings);
    enter(shards, shard, size);
    Totals {
        entries: t.entries + 1,
        ..t
    }
}

// The piece that an entry is in, right after it joined the shard.
pub fn piece_in(shards: &[u64], shard: usize) -> u64
    requires { (shard < 65) × (length (rounds_in shards.now) ≡ 65) × (get_or (rounds_in shards.now) shard 0 ≤ 65536) }
    ensures answers { result ≡ piece_no shard (get_or (rounds_in shards.now) shard 0) }
    ensures fits { result < 2 ^ 32 }
{
    piece(shard, shards[ROUNDS_AT + shard])
}

// What is left of a shard comes out: "The writer never writes an empty list."
fn closed_rest(t: Totals, slot_bytes: u64, size: u64, count: u64) -> Totals
    requires { (size ≤ 2 ^ 40) × (count ≤ 65536) × (t.files ≤ 2 ^ 20) × (t.positions ≤ 2 ^ 60) }
    ensures { result ≡ pick (eqb count 0) t (closing slot_bytes size count t) }
{
    if count == 0 {
        return t;
    }
    closed(t, slot_bytes, size, count)
}

// What is left of the shards, by their sizes and entries.
fn close_rests(sizes: &[u64], counts: &[u64], totals: Totals, slot_bytes: u64) -> Totals
    requires { Closable counts.now sizes.now totals }
    ensures { result ≡ closing_rests slot_bytes counts.now sizes.now totals }
{
    let mut t = totals;
    for (size, count) in sizes.iter().zip(counts) {
        t = closed_rest(t, slot_bytes, *size, *count);
    }
    t
}

// The totals of all files, behind the last entry.
pub fn close_shards(shards: &[u64], totals: Totals, slot_bytes: u64) -> Totals
    requires { Closable (counts_in shards.now) (sizes_in shards.now) totals }
    ensures { result ≡ closing_rests slot_bytes (counts_in shards.now) (sizes_in shards.now) totals }
{
    let counts = &shards[COUNTS_AT..ROUNDS_AT];
    close_rests(&shards[0..COUNTS_AT], counts, totals, slot_bytes)
}

// "4, 5, 7 are decided first, for the whole group": by the totals of all its files.
pub fn decided(t: Totals, empty: u64, base: u64) -> Result<(), Refusal>
    ensures { result ≡ decide (totals_tests t empty base) }
{
    if t.large {
        return Err(Refusal::SlotRoom);
    }
    if empty < t.files {
        return Err(Refusal::NoEmptySlot);
    }
    if t.files == 0 {
        return Ok(());
    }
    if spent(base, t.positions) {
        return Err(Refusal::PositionsSpent);
    }
    Ok(())
}

// What is left of a shard takes the next place, if there is anything.
fn put_rest(rests: &mut [u64], left: usize, entries: u64, piece: u64) -> usize
    requires { left < length rests.old }
    ensures counts { result ≡ left + length (rest_of entries piece) }
    ensures writes { rests.new ≡ put_at rests.old left (rest_of entries piece) }
{
    if entries == 0 {
        return left;
    }
    rests[left] = piece;
    left + 1
}

// The numbers of what is left of the shards, by their entries and rounds, ascending, and how many that are.
fn rests(counts: &[u64], rounds: &[u64], rests: &mut [u64]) -> usize
    requires { Numbered counts.now rounds.now rests.old }
    ensures counts { result ≡ length (rests_from 0 counts.now rounds.now) }
    ensures writes { rests.new ≡ front (rests_from 0 counts.now rounds.now) rests.old }
{
    let mut left: usize = 0;
    for n in 0..counts.len() {
        left = put_rest(rests, left, counts[n], piece(n, rounds[n]));
    }
    left
}

// The same by the split's list.
pub fn shard_rests(shards: &[u64], left: &mut [u64]) -> usize
    requires { Numbered (counts_in shards.now) (rounds_in shards.now) left.old }
    ensures counts { result ≡ length (rests_from 0 (counts_in shards.now) (rounds_in shards.now)) }
    ensures writes { left.new
        ≡ front (rests_from 0 (counts_in shards.now) (rounds_in shards.now)) left.old }
{
    let counts = &shards[COUNTS_AT..ROUNDS_AT];
    rests(counts, &shards[ROUNDS_AT..SHARD_LIST], left)
}

// The number of the file that comes out in that place: "by ascending shard, then fragments as cut".
pub fn piece_at(rests: &[u64], left: usize, cuts: &[u64], file: usize) -> u64
    requires left_in_bounds { left ≤ length rests.now }
    requires file_bound { file < left + length cuts.now }
    ensures { result ≡ get_or (take left rests.now ++ cuts.now) file 0 }
{
    if file < left {
        return rests[file];
    }
    cuts[file - left]
}
