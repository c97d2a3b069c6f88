// Numbers in bytes: little-endian of any width, and groups of seven bits.

#![tactic(auto)]

pub mod groups;
pub mod little_endian;
