// The entries of each file of a group chained, so that a file's walks are as long as the file: the notes have a file's number for
// each entry before, and the next entry of the same file after.

#![tactic(auto)]

ghost use Rattle.std.specs.Prelude.{ℕ, suc, ◌<◌, List, ◌≡◌, length, get_or, MatchOption};
ghost use Rattle.rules.specs.Layout.{table_ids, used_entries};
ghost use Rattle.location_table.specs.Tables.{Formed};
ghost use Rattle.gc_chains.specs.Chains.{FileOf, Linkable, Linked};
ghost use Rattle.gc_chains.specs.Linking.{Linking};

use location_table::used;

// A file's word has its number below, and its first entry from here on.
pub const FIRSTS: u64 = 4294967296;

// Numbers of one shard are this far apart.
const SHARDS: u32 = 65;

// The file with a number, if there is one: looked for at `near`, then from the front.
fn file_of(words: &[u64], number: u32, near: usize) -> Option<usize>
    ensures { MatchOption result (FileOf words.now number (length words.now))
        (λ j. (j < length words.now) × FileOf words.now number j) }
{
    let sought = number as u64;
    match words.get(near) {
        Some(word) if *word % FIRSTS == sought => Some(near),
        _ => words.iter().position(|word| *word % FIRSTS == sought),
    }
}

// An entry that is moved becomes the first of its file, and its link leads to the one that was; one whose number no file has is in no
// chain. `near` has where each shard's last file was found.
fn link_entry(place: u32, links: &mut [u32], words: &mut [u64], near: &mut [usize; 65], i: usize)
    requires i_in_bounds { i < length links.old }
    requires i_bound { i < 65536 }
    ensures { (ids places numbers order : List ℕ) (used : ℕ) → Linkable ids places numbers order used
        → i < length ids → place ≡ get_or places i 0
        → Linking ids places numbers order (suc i) links.old words.old
        → Linking ids places numbers order i links.new words.new }
{
    if place == 0 {
        return;
    }
    let number = links[i];
    let shard = (number % SHARDS) as usize;
    let Some(j) = file_of(words, number, near[shard]) else {
        links[i] = 0;
        return;
    };
    near[shard] = j;
    let word = words[j];
    links[i] = (word / FIRSTS) as u32;
    words[j] = (i as u64 + 1) * FIRSTS + number as u64;
}

// Every used entry, from the last back, so that a chain's entries ascend.
pub fn link(table: &[u64], places: &[u32], links: &mut [u32], words: &mut [u64])
    requires formed { Formed table.now }
    requires linkable { Linkable (table_ids table.now) places.now links.old words.old (length (used_entries table.now)) }
    ensures { Linked (table_ids table.now) places.now links.old words.old
        links.new words.new }
{
    let mut near = [0usize; 65];
    for i in (0..used(table)).rev() {
        link_entry(places[i], links, words, &mut near, i);
    }
}
