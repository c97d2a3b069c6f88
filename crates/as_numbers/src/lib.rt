// What a host in C sees: an answer's number, and the state and the claim record as lent numbers.

#![tactic(auto)]

pub mod answers;
pub mod claim_words;
pub mod four_words;
pub mod state_words;
