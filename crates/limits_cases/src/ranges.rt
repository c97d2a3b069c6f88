use crate::show::refused;
use rules::Settings;
use std::io;
use test_host::text;

// Whether settings, a heap of one slot and a table of one entry are outside the ranges.
fn out(s: Settings) -> bool {
    limits::out_of_range(s, s.slot_bytes, &[0u64; 2])
}

// A heap of that many bytes, slots of 4,096.
fn heap_out(n: u64) -> bool {
    limits::out_of_range(limits::defaults(), n, &[0u64; 2])
}

// Whether the four numbers at the ends of a range are outside it: below, lowest, highest, above.
fn ends<F: Fn(u64) -> bool>(
    rt: &impl Print,
    word: &[u8],
    numbers: [u64; 4],
    is_out: F,
) -> io::Result<()>
    requires { F.IsAlwaysCallable is_out }
{
    text(rt, word)?;
    for n in numbers {
        refused(rt, is_out(n))?;
    }
    text(rt, b"\n")
}

// "settings or buffer lengths outside the ranges", at the ends of each range; a range that begins with 0 has its lowest twice.
pub fn settings(rt: &impl Print) -> io::Result<()> {
    let usual = limits::defaults();
    ends(rt, b"S", [127, 128, 1048576, 1048577], |n| {
        out(Settings {
            slot_bytes: n,
            ..usual
        })
    })?;
    ends(rt, b"percent", [0, 0, 100, 101], |n| {
        out(Settings {
            file_compaction_percent: n,
            ..usual
        })
    })?;
    ends(rt, b"files", [0, 1, 256, 257], |n| {
        out(Settings {
            min_compaction_files: n,
            ..usual
        })
    })?;
    ends(rt, b"target", [0, 1, 1048576, 1048577], |n| {
        out(Settings {
            target_file_size: n,
            ..usual
        })
    })?;
    ends(rt, b"threshold", [0, 0, 256, 257], |n| {
        out(Settings {
            small_file_cleanup_threshold: n,
            ..usual
        })
    })?;
    ends(rt, b"object", [0, 1, 1048576, 1048577], |n| {
        out(Settings {
            max_object_size: n,
            ..usual
        })
    })?;
    ends(rt, b"heap", [0, 4096, 1048576, 1052672], heap_out)?;
    ends(
        rt,
        b"heap",
        [4095, 8192, 8193, 18446744073709551615],
        heap_out,
    )
}
