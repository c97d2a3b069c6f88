// Write (`src/writepath.rs`): the whole batch is decided first; nothing is stored before.

#![tactic(auto)]

ghost use Rattle.std.specs.Prelude.{◌≡◌, ◌+◌, ◌*◌, ◌≤◌, ◌<◌, ◌^◌, length};
ghost use Rattle.rules.specs.declared.Claims.{Claims};
ghost use Rattle.rules.specs.Ops.{file_bytes, settled};
ghost use Rattle.rules.specs.Label.{label_bytes};
ghost use Rattle.rules.specs.Stores.{made, file_stores};
ghost use Rattle.rules.specs.Install.{installed};
ghost use Rattle.rules.specs.Write.{write_call};
ghost use Rattle.rules.specs.World.{world, leaving, answer_given};
ghost use Rattle.file_map.specs.Records.{labelled};
ghost use Rattle.batch.specs.Reading.{ops_in};
ghost use Rattle.batch.specs.Walk.{Begins};
ghost use Rattle.batch_file.specs.Steps.{Sized};
ghost use Rattle.writepath.specs.Filing.{Filed};

use batch::Cursor;
use install::StoredFile;
use rules::{Label, Refusal, Settings, State};
use write_decision::NewFile;

// The answer, and the state after the call.
#[derive(Clone, Copy)]
pub struct Written {
    pub answer: Result<(), Refusal>,
    pub state: State,
}

// "base = next position, lsn = base with the batch bit", "generation 0".
fn new_label(base: u64, count: u64, total: u64) -> Label
    requires base_bound { base < 2 ^ 62 }
    requires count_bound { total + (12 + 16 * count) < 2 ^ 63 }
    ensures { result ≡ labelled (base + 2 ^ 62) total (total + (12 + 16 * count)) count 0 }
{
    let lsn = disk_location::with_batch(base);
    install::new_label(lsn, count, total, 0)
}

// The whole run of the file: it is no longer than the heap.
fn put_file(
    heap: &mut [u8],
    start: usize,
    order: &mut [u64],
    batch: &[u8],
    begin: Cursor,
    new: Label,
)
    requires order_len { (length order.old ≡ 1024) × Begins batch.now order.old begin }
    requires sized { Sized batch.now new.present_objects new.trailer_offset }
    requires batch_in_bounds { start + (64 + length (file_bytes (settled (ops_in batch.now)))) ≤ length heap.old }
    ensures { heap.new
        ≡ made (file_stores start (label_bytes new) (file_bytes (settled (ops_in batch.now)))) heap.old }
{
    let k = heap.len() as u64;
    batch_file::write_file(heap, start, order, batch, begin, new, k);
}

// The file of the batch in its slot, then table, live counts, record and next position by the trailer that stands there.
fn add_file(
    settings: Settings,
    state: State,
    heap: &mut [u8],
    table: &mut [u64],
    order: &mut [u64],
    batch: &[u8],
    begin: Cursor,
    file: NewFile,
) -> State
    requires order_len { (length order.old ≡ 1024) × Begins batch.now order.old begin }
    requires filed { Filed settings state heap.old table.old batch.now file.slot file.count file.total }
    ensures { (c : Claims) → world settings result c heap.new table.new
        ≡ installed (2 ^ 62) 0 (world settings state c heap.old table.old)
        (settled (ops_in batch.now)) }
{
    let new = new_label(state.next_position, file.count, file.total);
    let start = file.slot * settings.slot_bytes as usize;
    put_file(heap, start, order, batch, begin, new);
    let files = state.files;
    let lsns = file_map::lsns(files);
    let mut lives = file_map::lives(files);
    let stored = StoredFile {
        start: start,
        count: file.count,
        total: file.total,
        lsn: new.lsn,
    };
    install::install(&lsns, &mut lives, table, heap, stored);
    install::with_file(state, &lives, file.slot, new)
}

pub fn write(
    settings: Settings,
    state: State,
    heap: &mut [u8],
    table: &mut [u64],
    batch: &[u8],
) -> Written
    ensures { (c : Claims) → leaving (answer_given result.answer)
        (world settings result.state c heap.new table.new)
        ≡ write_call (world settings state c heap.old table.old)
        batch.now }
{
    let mut order = [0u64; batch::ORDER_PLACES];
    let begin = batch::start(&mut order, batch);
    match write_decision::decided(settings, state, heap, table, &mut order, batch, begin) {
        Err(r) => Written {
            answer: Err(r),
            state: state,
        },
        Ok(None) => Written {
            answer: Ok(()),
            state: state,
        },
        Ok(Some(file)) => {
            let after = add_file(settings, state, heap, table, &mut order, batch, begin, file);
            Written {
                answer: Ok(()),
                state: after,
            }
        }
    }
}
