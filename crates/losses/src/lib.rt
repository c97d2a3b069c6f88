// Request P9 of document 02: which slots a salvage gives up, as definitions; the order of the second kind, the lines and the stores.

#![tactic(auto)]

pub mod lines;
pub mod second;

use rules::Refusal;

// A line of the report: "slot and refusal number".
#[derive(Clone, Copy)]
pub struct Loss {
    pub slot: u64,
    pub refusal: Refusal,
}
