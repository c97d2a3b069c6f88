// A reopening's tests: 8 to 13 slot by slot, then 14 and 15 over all files.

#![tactic(auto)]

pub mod over_all;
pub mod overlap;
pub mod rising;
pub mod slots;

use rules::{Label, RECORDS};

// The labels of the 256 slots: zeros for a slot without a file.
#[derive(Clone, Copy)]
pub struct Labels {
    pub labels: [Label; RECORDS],
}
