// Request P5 of document 02: one file's lines of the checker's list, told into the lent words.

#![tactic(auto)]

pub mod entries;
pub mod objects;
pub mod tell;

ghost use Rattle.std.specs.Prelude.{◌+◌, ◌^◌, ◌<◌, length};
ghost use Rattle.reopen_tests.specs.Shown.{file_seen, FileAt};
ghost use Rattle.faults.specs.Faults.{file_faults};
ghost use Rattle.file_faults.specs.Telling.{Tells};

use crate::entries::entry_lines;
use crate::objects::object_lines;
use rules::Label;
use slot_file::slot::{object_part, trailer_part};

// A sound file's lines: object by object, then entry by entry.
pub fn file_lines(listing: &mut [u64], count: u64, number: u64, slot: &[u8], l: Label) -> u64
    requires file_at { FileAt slot.now l }
    requires slot_bound { count + length (file_faults number (file_seen l slot.now)) + 2 < 2 ^ 64 }
    ensures { Tells count (file_faults number (file_seen l slot.now)) listing.old listing.new result }
{
    let objects = object_part(slot, l);
    let trailer = trailer_part(slot, l);
    let told = object_lines(listing, count, number, objects, trailer);
    entry_lines(listing, told, number, objects, trailer)
}
