// An object as it stands in a file: its header, and where its body lies.

#![tactic(auto)]

pub mod object;

use rules::Refusal;

// An object's header, and how many bytes there are from it on.
#[derive(Clone, Copy)]
pub struct Header {
    pub checksum: u64,
    pub id: u64,
    pub size: u64,
    pub room: u64,
}

// What a walk over object bytes meets: their end, bytes too few for a header, or an object.
#[derive(Clone, Copy)]
pub enum Step {
    End,
    HeaderCut,
    Here(Header),
}
