ghost use Rattle.std.specs.Prelude.{◌≡◌, ◌<◌, length, get_or, set};
ghost use Rattle.rules.specs.Layout.{table_ids};
ghost use Rattle.location_table.specs.Tables.{Formed};
ghost use Rattle.gc_split.specs.Tally.{tally, tally_from, Within};
ghost use Rattle.gc_files.specs.Places.{Whole, OfUsed, Splitting, placed_ops, entry_taken, entry_piece, pieces_along};

use crate::places::{moving_at, shard_of};
use batch::size_of;
use gc_split::Totals;
use location_table::{id_at, used};
use rules::Settings;

// An entry of the table: where it stands, its id, and the place of its operation.
#[derive(Clone, Copy)]
struct Placed {
    at: usize,
    id: u64,
    place: u32,
}

// One entry of the table joins its shard, if its operation is moved, and gets the number of its piece.
fn split_entry(
    heap: &[u8],
    e: Placed,
    shards: &mut [u64],
    cuts: &mut [u64],
    pieces: &mut [u32],
    totals: Totals,
    settings: Settings,
) -> Totals
    requires whole { 1 < e.place → Whole heap.now e.place }
    requires at_in_bounds { e.at < length pieces.old }
    requires entries_bound { totals.entries < 65536 }
    requires within { Within (tally shards.old cuts.old totals) }
    ensures tallies { tally shards.new cuts.new result
        ≡ entry_taken settings.target_file_size settings.slot_bytes heap.now e.id e.place
        (tally shards.old cuts.old totals) }
    ensures pieces { pieces.new ≡ set pieces.old e.at
        (entry_piece settings.target_file_size settings.slot_bytes heap.now e.id e.place
        (get_or pieces.old e.at 0)
        (tally shards.old cuts.old totals)) }
{
    if e.place == 0 {
        return totals;
    }
    let o = moving_at(heap, e.id, e.place);
    let shard = shard_of(o);
    let size = size_of(o);
    let t = gc_split::join(shards, cuts, totals, shard, size, settings);
    let at = e.at;
    pieces[at] = gc_split::piece_in(shards, shard) as u32;
    t
}

// Every used entry of the table, ids ascending: none is moved behind them.
pub fn split(
    heap: &[u8],
    table: &[u64],
    places: &[u32],
    shards: &mut [u64],
    cuts: &mut [u64],
    pieces: &mut [u32],
    totals: Totals,
    settings: Settings,
) -> Totals
    requires splitting { Splitting heap.now (table_ids table.now) places.now pieces.old totals.entries }
    requires formed { Formed table.now × OfUsed table.now places.now }
    requires within { Within (tally shards.old cuts.old totals) }
    ensures tallies { tally shards.new cuts.new result
        ≡ tally_from settings.target_file_size settings.slot_bytes
        (placed_ops heap.now (table_ids table.now) places.now)
        (tally shards.old cuts.old totals) }
    ensures pieces { pieces.new ≡ pieces_along settings.target_file_size settings.slot_bytes
        heap.now (table_ids table.now) places.now pieces.old
        (tally shards.old cuts.old totals) }
{
    let mut t = totals;
    for i in 0..used(table) {
        let e = Placed {
            at: i,
            id: id_at(table, i),
            place: places[i],
        };
        t = split_entry(heap, e, shards, cuts, pieces, t, settings);
    }
    t
}
