// Commands that look at the desk and change nothing: whether what they ask for can be shown.
ghost use Rattle.std.specs.Prelude.{◌≡◌};
ghost use Rattle.rules.specs.Base.{List, ℕ};
ghost use Rattle.desk.specs.Desk.{desk, left};
ghost use Rattle.desk.specs.Commands.{nth, check_by, bytes_by};

use crate::turns::{bad_line, shown};
use crate::{Bench, Look, Turn};

pub fn check(b: Bench, n: [u64; 9]) -> Turn
    ensures { result ≡ check_by (nth n 0) b }
{
    let room = n[0];
    if 4096 < room {
        return bad_line(b);
    }
    shown(Look::Check(room), b)
}

pub fn bytes(b: Bench, at: u64, count: u64, heap: &[u8]) -> Turn
    ensures { (table : List ℕ)
        → left result heap.now table ≡ bytes_by at count (desk b heap.now table) }
{
    let len = heap.len() as u64;
    if 65536 < count {
        return bad_line(b);
    }
    if len < count {
        return bad_line(b);
    }
    if len - count < at {
        return bad_line(b);
    }
    shown(Look::Bytes(at, count), b)
}
