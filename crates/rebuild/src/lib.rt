// What an accepted reopening leaves: the table, the live counts and the next position.

#![tactic(auto)]

pub mod counts;
pub mod table;
