// The notes of a rewrite, which the host lends: a place and a piece for each table entry.

#![tactic(auto)]

ghost use Rattle.std.specs.Prelude.{◌≡◌, length, replicate};
ghost use Rattle.rules.specs.TwoCalls.{room_of, short};

use location_table::capacity;

// "shorter: 1": whether a list of notes has fewer places than the table has entries.
pub fn too_short(table: &[u64], places: &[u32], pieces: &[u32]) -> bool
    ensures { result ≡ short (room_of places.now pieces.now) table.now }
{
    let n = capacity(table);
    if places.len() < n {
        return true;
    }
    pieces.len() < n
}

// Zeros.
pub fn clear(notes: &mut [u32])
    ensures { notes.new ≡ replicate (length notes.old) 0 }
{
    notes.fill(0);
}
