ghost use Rattle.std.specs.Prelude.{◌≡◌, ◌*◌, ◌≤◌, length};
ghost use Rattle.rules.specs.SlotFile.{views_in};
ghost use Rattle.reopen_tests.specs.Labels.{no_file, no_labels, label_shown, surveyed};

use crate::Labels;
use file_map::no_label;
use rules::{Label, RECORDS, Refusal};
use slot_file::slot;

// A slot without a file: no file has lsn 0.
pub fn no_file(l: Label) -> bool
    ensures { result ≡ no_file l }
{
    l.lsn == 0
}

pub fn no_labels() -> Labels
    ensures { result.labels ≡ no_labels }
{
    let l = no_label();
    Labels {
        labels: [l; RECORDS],
    }
}

pub fn label(shown: Result<Option<Label>, Refusal>) -> Label
    ensures { result ≡ label_shown shown }
{
    match shown {
        Ok(Some(l)) => l,
        Ok(None) | Err(_) => no_label(),
    }
}

// "Per non-empty slot, ascending: 8, 9, 10, 11, 12, 13." The first refusal, or the labels of all slots.
pub fn survey(heap: &[u8], size: usize, n: usize) -> Result<Labels, Refusal>
    requires size_in_bounds { n * size ≤ length heap.now }
    requires n_bound { n ≤ 256 }
    ensures { result ≡ surveyed (views_in n size heap.now) }
{
    let mut slots = no_labels();
    for k in 0..n {
        let shown = slot::check(slot::slot_at(heap, size, k))?;
        slots.labels[k] = shown.unwrap_or(no_label());
    }
    Ok(slots)
}
