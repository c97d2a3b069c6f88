ghost use Rattle.std.specs.Prelude.{◌≡◌, take, drop};
ghost use Rattle.rules.specs.Base.{zeros};
ghost use Rattle.rules.specs.Label.{label_in, five_in};

use file_map::labelled;
use numbers::groups;
use rules::{LABEL_BYTES, LabelAnswer};

// "Zeros fill the 64 bytes."
fn rest_zero(s: &[u8], from: usize) -> bool
    ensures { result ≡ zeros (drop from s.now) }
{
    s.iter().skip(from).all(|b| *b == 0)
}

// Five numbers one behind the other, zeros behind them.
fn five(s: &[u8]) -> LabelAnswer
    ensures { result ≡ five_in s.now }
{
    let Some((lsn, a)) = groups::decode(s, 0) else {
        return LabelAnswer::Wrong;
    };
    let Some((offset, b)) = groups::decode(s, a) else {
        return LabelAnswer::Wrong;
    };
    let Some((size, c)) = groups::decode(s, b) else {
        return LabelAnswer::Wrong;
    };
    let Some((present, d)) = groups::decode(s, c) else {
        return LabelAnswer::Wrong;
    };
    let Some((generation, e)) = groups::decode(s, d) else {
        return LabelAnswer::Wrong;
    };
    if rest_zero(s, e) {
        return LabelAnswer::Five(labelled(lsn, offset, size, present, generation));
    }
    LabelAnswer::Wrong
}

// "First byte 0 means the slot is empty, whatever follows."
fn in_label(s: &[u8]) -> LabelAnswer
    ensures { result ≡ label_in s.now }
{
    if s.len() == 0 {
        return LabelAnswer::Vacant;
    }
    if s[0] == 0 {
        return LabelAnswer::Vacant;
    }
    five(s)
}

// The label in a slot's first 64 bytes; bytes too few for one are read as they are.
pub fn read(slot: &[u8]) -> LabelAnswer
    ensures { result ≡ label_in (take 64 slot.now) }
{
    if slot.len() < LABEL_BYTES {
        return in_label(slot);
    }
    in_label(&slot[..LABEL_BYTES])
}
