// A slot: its label, and what it shows as a whole.

#![tactic(auto)]

pub mod label;
pub mod slot;

use rules::{Label, Refusal};
