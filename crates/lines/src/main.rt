// Runs the lines of the paper that numbers, checksums and locations can answer: what is computed, then what the paper says.

#![tactic(auto)]

ghost use Rattle.std.specs.Prelude.{◌≡◌, ltb};
ghost use Rattle.disk_location.specs.Locations.{masked_of};

use disk_location::{DiskLocation, RelativeDiskLocation};
use std::{fmt, io};

// Line P5: whether a position is later than another, the batch bit aside.
fn is_later(a: u64, b: u64) -> bool
    ensures { result ≡ ltb (masked_of b) (masked_of a) }
{
    disk_location::masked(b) < disk_location::masked(a)
}

// What the paper tells of a location: 0 and its raw number, or a refusal's number and 0.
#[derive(Clone, Copy)]
struct Raw {
    number: u64,
    raw: u64,
}

impl fmt::Display for Raw {
    fn fmt<W: fmt::Write>(&self, f: &mut fmt::Formatter<W>) -> fmt::Result {
        let Raw { number, raw } = *self;
        if number == 0 {
            return write!(f, "raw {raw}");
        }
        write!(f, "refused {number}")
    }
}

fn relative(position: u64, delete: bool) -> Raw {
    let located = RelativeDiskLocation::new(position, delete);
    Raw {
        number: disk_location::relative_number(located),
        raw: disk_location::relative_raw(located),
    }
}

// What is told of a location in the whole store.
fn shown(located: Option<DiskLocation>) -> Raw {
    Raw {
        number: disk_location::number(located),
        raw: disk_location::raw(located),
    }
}

fn absolute(position: u64, delete: bool) -> Raw {
    shown(DiskLocation::new(position, delete))
}

// A relative location of that raw number in a file of that lsn.
fn in_file(raw: u64, lsn: u64) -> Raw {
    shown(RelativeDiskLocation(raw).to_absolute(lsn))
}

// The number at the front of some bytes, if one stands there.
#[derive(Clone, Copy)]
struct InGroups(Option<u64>);

impl fmt::Display for InGroups {
    fn fmt<W: fmt::Write>(&self, f: &mut fmt::Formatter<W>) -> fmt::Result {
        match self.0 {
            Some(n) => write!(f, "{n}"),
            None => write!(f, "malformed"),
        }
    }
}

fn decoded(s: &[u8]) -> InGroups {
    InGroups(numbers::groups::decode(s, 0).map(|(n, _)| n))
}

fn line_1(rt: &impl Print) -> io::Result<()> {
    println!(rt;
        "P1 | {} {} {} {} | position 5: raw 10; delete: 11 (either kind)",
        relative(5, false),
        relative(5, true),
        absolute(5, false),
        absolute(5, true)
    )
}

fn line_2(rt: &impl Print) -> io::Result<()> {
    println!(rt;
        "P2 | {} {} {} {} | absolute position 0: 20; delete: raw 1; relative raw 0 is fine; with lsn 0 it is 20",
        absolute(0, false),
        absolute(0, true),
        relative(0, false),
        in_file(0, 0)
    )
}

fn line_3(rt: &impl Print) -> io::Result<()> {
    println!(rt;
        "P3 | {} {} {} {} {} | position 2^63 - 1, delete: raw 2^64 - 1; 2^63: 20 (either kind; a sum of 2^63 - 1 object, of 2^63)",
        absolute(9223372036854775807, true),
        absolute(9223372036854775808, false),
        relative(9223372036854775808, true),
        in_file(2, 9223372036854775806),
        in_file(2, 9223372036854775807)
    )
}

fn line_4(rt: &impl Print) -> io::Result<()> {
    let mut out = [0u8; 10];
    let n = numbers::groups::encode(&mut out, 300);
    println!(rt;
        "P4 | {n} {:02x} {:02x} {} {} | 300 is 2 groups, ac 02; 80 00 is refused",
        out[0],
        out[1],
        decoded(&out),
        decoded(b"\x80\x00")
    )
}

fn line_5(rt: &impl Print) -> io::Result<()> {
    let with = disk_location::with_batch(101);
    let later = if is_later(205, with) { "later " } else { "" };
    println!(rt;
        "P5 | {} {} {later}| masked 205 without the bit is later than masked 101 with it",
        disk_location::masked(205),
        disk_location::masked(with)
    )
}

fn line_8(rt: &impl Print) -> io::Result<()> {
    println!(rt;
        "P8 | {} {} {} {} {} | lengths 0, 1, 60, 255, 256: shards 0, 1, 6, 8, 9",
        disk_location::shard(0),
        disk_location::shard(1),
        disk_location::shard(60),
        disk_location::shard(255),
        disk_location::shard(256)
    )
}

fn line_checksum(rt: &impl Print) -> io::Result<()> {
    let in_two = !checksum::feed(checksum::feed(0xffff_ffff, b"1234"), b"56789");
    println!(rt;
        "checksum | {:08x} {in_two:08x} | the check value of CRC-32 is cbf43926, in one part or two",
        checksum::sum(b"123456789")
    )
}

fn line_object(rt: &impl Print) -> io::Result<()> {
    println!(rt;
        "object | {:08x} {:08x} | over length, id, body in that order",
        checksum::object_sum(7, b"A"),
        checksum::sum(b"\x01\x00\x00\x00\x00\x00\x00\x00\x07\x00\x00\x00\x00\x00\x00\x00A")
    )
}

fn line_groups(rt: &impl Print) -> io::Result<()> {
    print!(rt;
        "groups | {} {} {} ",
        decoded(b"\xff\xff\xff\xff\xff\xff\xff\xff\xff\x01"),
        decoded(b"\x80\x80\x80\x80\x80\x80\x80\x80\x80\x02"),
        decoded(b"\x81\x81\x81\x81\x81\x81\x81\x81\x81\x81\x01")
    )?;
    print!(rt;
        "{} {} {} ",
        decoded(b"\xac"),
        decoded(b""),
        decoded(b"\xac\x80\x00")
    )?;
    println!(rt;
        "| 2^64 - 1 is the last; past 64 bits, eleven groups, cut short, nothing, not the shortest: malformed"
    )
}

fn main(rt: HostRuntime) -> io::Result<()> {
    println!(rt; "line | computed | the paper")?;
    line_1(&rt)?;
    line_2(&rt)?;
    line_3(&rt)?;
    line_4(&rt)?;
    line_5(&rt)?;
    line_8(&rt)?;
    line_checksum(&rt)?;
    line_object(&rt)?;
    line_groups(&rt)
}
