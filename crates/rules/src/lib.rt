// The shared types of document 01, and the numbers of its bytes. Its rules are the definitions in specs/.

#![tactic(auto)]

// "a 64-byte label"
pub const LABEL_BYTES: usize = 64;

// "checksum 4, id 8, length 8 .. so the header is 20"
pub const OBJECT_HEADER: usize = 20;

// Where an object's length stands, behind "checksum 4, id 8".
pub const LENGTH_AT: usize = 12;

// A trailer before its entries: "checksum 4 .. entry count 8".
pub const TRAILER_HEAD: usize = 12;

// "per entry id 8 and raw relative location 8"
pub const TRAILER_ENTRY: usize = 16;

// "9 trailer under 20 bytes"
pub const TRAILER_LEAST: usize = 20;

// "a file map of 256 records", and as many slots at most
pub const RECORDS: usize = 256;

// "Settings": the six that a caller chooses; slots and table entries come from the buffers.
#[repr(C)]
#[derive(Clone, Copy, PartialEq, Eq)]
pub struct Settings {
    pub slot_bytes: u64,
    pub file_compaction_percent: u64,
    pub min_compaction_files: u64,
    pub target_file_size: u64,
    pub small_file_cleanup_threshold: u64,
    pub max_object_size: u64,
}

// A slot's label: its five numbers.
#[repr(C)]
#[derive(Clone, Copy, PartialEq, Eq)]
pub struct Label {
    pub lsn: u64,
    pub trailer_offset: u64,
    pub file_size: u64,
    pub present_objects: u64,
    pub generation: u64,
}

// "A record holds the label's five numbers and the live count" and, since request P6, "the synced mark": 0 clear, 1 set.
// All zeros: empty.
#[repr(C)]
#[derive(Clone, Copy, PartialEq, Eq)]
pub struct Record {
    pub label: Label,
    pub live: u64,
    pub synced: u64,
}

// An id and a raw location: relative in a trailer, absolute in the table.
#[derive(Clone, Copy)]
pub struct Entry {
    pub id: u64,
    pub location: u64,
}

// "a file map of 256 records"
#[repr(C)]
#[derive(Clone, Copy)]
pub struct FileMap {
    pub records: [Record; RECORDS],
}

// What a reopening hands to the calls after it.
#[repr(C)]
#[derive(Clone, Copy)]
pub struct State {
    pub settings: Settings,
    pub heap_len: u64,
    pub table_len: u64,
    pub files: FileMap,
    pub next_position: u64,
}

// "a claim record of the host's": slot s is bit s % 64 of word s / 64.
#[repr(C)]
#[derive(Clone, Copy, PartialEq, Eq)]
pub struct Claims {
    pub a: u64,
    pub b: u64,
    pub c: u64,
    pub d: u64,
}

// "Refusal numbers", 1 to 21 in order, and document 02's 22.
#[derive(Clone, Copy)]
pub enum Refusal {
    Limits,
    BatchBytes,
    ObjectSize,
    SlotRoom,
    NoEmptySlot,
    TableRoom,
    PositionsSpent,
    LabelBytes,
    TrailerShort,
    Checksum,
    EntryCount,
    EntryPosition,
    PresentCount,
    Overlap,
    NotRising,
    CutShort,
    OtherId,
    NotThere,
    EqualLocation,
    Location,
    Claim,
    Generation,
}

// What a read finds: the body's start in the heap and its length; or that the id is deleted, or never written.
#[derive(Clone, Copy)]
pub enum Lookup {
    Found(u64, u64),
    Deleted,
    NeverWritten,
}

// Why maintenance stopped: the refusal, its generation and the ids moved before it.
#[derive(Clone, Copy)]
pub struct Stopped {
    pub refusal: Refusal,
    pub generation: u64,
    pub moved: u64,
}

#[repr(C)]
#[derive(Clone, Copy)]
pub struct Counts {
    pub files: u64,
    pub bytes: u64,
    pub present: u64,
    pub live: u64,
}

// What a load tells of an id: its raw location, of an object or of a delete; or that it was never written.
#[derive(Clone, Copy)]
pub enum Loaded {
    At(u64),
    DeletedAt(u64),
    Never,
}

// What the label's bytes of a slot say: empty, five numbers, or no label.
#[derive(Clone, Copy)]
pub enum LabelAnswer {
    Vacant,
    Five(Label),
    Wrong,
}

// What a compare-and-store did: it stored, or the current location differs.
#[derive(Clone, Copy)]
pub enum Compared {
    Swapped,
    Differs(u64),
}
