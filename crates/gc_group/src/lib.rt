// One group of maintenance (`src/gc.rs`): the checks of its files, and what is found in them.

#![tactic(auto)]

pub mod check;
pub mod marks;

use rules::Settings;

// A group: the settings that it is rewritten under, and its generation.
#[derive(Clone, Copy)]
pub struct Group {
    pub settings: Settings,
    pub generation: u64,
}
