// The files that a group of maintenance comes to (`src/gc.rs`): its operations stand in the heap, each at a place.

#![tactic(auto)]

pub mod marked;
pub mod places;
pub mod split;
