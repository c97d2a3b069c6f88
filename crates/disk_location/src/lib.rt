// Locations: a position, doubled, with the delete mark in the lowest bit; the batch bit; the shard number.

#![tactic(auto)]

ghost use Rattle.std.specs.Prelude.{◌≡◌, ◌+◌, ◌^◌, ◌<◌};
ghost use Rattle.disk_location.specs.Locations.{position_of, delete_of, raw_of, located_at, relative_at, told, relative_told};
ghost use Rattle.disk_location.specs.Locations.{masked_of, batch_of, shard_of};

// "the batch bit, 2^62": positions of files end below it, so 7 and 8 hold a sum against it too.
pub const BATCH_BIT: u64 = 1 << 62;

// "a position or sum of 2^63 or more"
pub const POSITIONS: u64 = 1 << 63;

// A raw location that counts from its file's lsn.
#[derive(Clone, Copy)]
pub struct RelativeDiskLocation(pub u64);

// A raw location in the whole store.
// Kept: a type of its own, which no one can take for a relative one; one generic type could not be made as `DiskLocation(raw)`.
#[derive(Clone, Copy)]
pub struct DiskLocation(pub u64);

fn half(raw: u64) -> u64
    ensures answers { result ≡ position_of raw }
    ensures fits { result < 2 ^ 63 }
{
    raw >> 1
}

fn odd(raw: u64) -> bool
    ensures { result ≡ delete_of raw }
{
    raw & 1 == 1
}

fn shifted(position: u64, delete: bool) -> u64
    requires { position < 2 ^ 63 }
    ensures { result ≡ raw_of position delete }
{
    position << 1 | u64::from(delete)
}

// The paper's number: 20 for a refusal, 0 for a location.
pub fn number(located: Option<DiskLocation>) -> u64
    ensures { result ≡ (told located).number }
{
    match located {
        Some(_) => 0,
        None => 20,
    }
}

// The raw location, 0 for a refusal.
pub fn raw(located: Option<DiskLocation>) -> u64
    ensures { result ≡ (told located).raw }
{
    match located {
        Some(location) => location.raw(),
        None => 0,
    }
}

// Kept: these two beside the last two, since their clauses name a definition of their own, `relative_told`.
pub fn relative_number(located: Option<RelativeDiskLocation>) -> u64
    ensures { result ≡ (relative_told located).number }
{
    match located {
        Some(_) => 0,
        None => 20,
    }
}

pub fn relative_raw(located: Option<RelativeDiskLocation>) -> u64
    ensures { result ≡ (relative_told located).raw }
{
    match located {
        Some(location) => location.raw(),
        None => 0,
    }
}

impl RelativeDiskLocation {
    pub fn new(position: u64, delete: bool) -> Option<RelativeDiskLocation>
        ensures { result ≡ relative_at position delete }
    {
        if position < POSITIONS {
            return Some(RelativeDiskLocation(shifted(position, delete)));
        }
        None
    }

    pub fn position(self) -> u64
        ensures { result ≡ position_of self.0 }
    {
        half(self.0)
    }

    pub fn raw(self) -> u64
        ensures { result ≡ self.0 }
    {
        self.0
    }

    pub fn is_delete(self) -> bool
        ensures { result ≡ delete_of self.0 }
    {
        odd(self.0)
    }

    // The same place, counted from the start of the store, in a file of that lsn.
    pub fn to_absolute(self, lsn: u64) -> Option<DiskLocation>
        ensures { result ≡ located_at (position_of self.0 + lsn) (delete_of self.0) }
    {
        let position = self.position().checked_add(lsn)?;
        DiskLocation::new(position, self.is_delete())
    }
}

impl DiskLocation {
    pub fn new(position: u64, delete: bool) -> Option<DiskLocation>
        ensures { result ≡ located_at position delete }
    {
        let location = RelativeDiskLocation::new(position, delete)?;
        if location.0 == 0 {
            return None;
        }
        Some(DiskLocation(location.0))
    }

    pub fn position(self) -> u64
        ensures { result ≡ position_of self.0 }
    {
        half(self.0)
    }

    pub fn raw(self) -> u64
        ensures { result ≡ self.0 }
    {
        self.0
    }

    pub fn is_delete(self) -> bool
        ensures { result ≡ delete_of self.0 }
    {
        odd(self.0)
    }
}

// The position with the batch bit cleared.
pub fn masked(x: u64) -> u64
    ensures { result ≡ masked_of x }
{
    x & !BATCH_BIT
}

// The position with the batch bit set: a fresh batch's lsn.
pub fn with_batch(x: u64) -> u64
    ensures { result ≡ batch_of x }
{
    x | BATCH_BIT
}

// How many bits the length needs.
pub fn shard(length: u64) -> u32
    ensures { result ≡ shard_of length }
{
    64 - u64::leading_zeros(length)
}
