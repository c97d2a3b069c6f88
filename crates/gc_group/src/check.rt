ghost use Rattle.std.specs.Prelude.{List, ◌≡◌, ◌+◌, ◌*◌, ◌≤◌, length, drop};
ghost use Rattle.rules.specs.Base.{each};
ghost use Rattle.rules.specs.Refusal.{decide};
ghost use Rattle.rules.specs.Object.{stored_at};
ghost use Rattle.rules.specs.Trailer.{count_in, entries_in};
ghost use Rattle.rules.specs.Table.{load, never_written};
ghost use Rattle.rules.specs.Maintenance.{moved_tests};
ghost use Rattle.rules.specs.TableLaws.{Rising};
ghost use Rattle.rules.specs.declared.Entry.{Entry};
ghost use Rattle.stored_object.specs.Objects.{Walked};
ghost use Rattle.location_table.specs.Places.{place};
ghost use Rattle.location_table.specs.Tables.{Formed};
ghost use Rattle.rules.specs.Layout.{used_entries};
ghost use Rattle.gc_group.specs.Checks.{entry_tests};

use disk_location::RelativeDiskLocation;
use rules::{Entry, Loaded, OBJECT_HEADER, Refusal};
use stored_object::{Header, object};

// "id unmapped"
fn never_written(table: &[u64], id: u64) -> bool
    requires { Formed table.now }
    ensures { result ≡ never_written (load (used_entries table.now) id) }
{
    match location_table::load(table, id) {
        Loaded::At(_) => false,
        Loaded::DeletedAt(_) => false,
        Loaded::Never => true,
    }
}

// "header past T (16), length ≥ max_object_size (3), id unmapped (18), body past T (16), checksum (10)", for an object
// whose header is whole, and whose id has this place in the table.
pub fn check_object(
    objects: &[u8],
    position: u64,
    h: Header,
    found: Result<usize, usize>,
    limit: u64,
) -> Result<(), Refusal>
    requires { Walked objects.now position h }
    ensures { (table : List Entry) → Rising 0 table → found ≡ place table h.id
        → result ≡ decide (moved_tests limit table (stored_at position (drop position objects.now))) }
{
    if limit <= h.size {
        return Err(Refusal::ObjectSize);
    }
    if found.is_err() {
        return Err(Refusal::NotThere);
    }
    if (h.room - OBJECT_HEADER as u64) < h.size {
        return Err(Refusal::CutShort);
    }
    if object::bad_checksum(objects, position, h) {
        return Err(Refusal::Checksum);
    }
    Ok(())
}

// "delete entries: sum too great (20), id unmapped (18)"; an object's entry is not looked at.
fn check_entry(e: Entry, lsn: u64, table: &[u64]) -> Result<(), Refusal>
    requires { Formed table.now }
    ensures { result ≡ decide (entry_tests lsn (used_entries table.now) e) }
{
    let location = RelativeDiskLocation(e.location);
    if !location.is_delete() {
        return Ok(());
    }
    if disk_location::number(location.to_absolute(lsn)) != 0 {
        return Err(Refusal::Location);
    }
    if never_written(table, e.id) {
        return Err(Refusal::NotThere);
    }
    Ok(())
}

// In entry order.
pub fn check_deletes(trailer: &[u8], lsn: u64, table: &[u64]) -> Result<(), Refusal>
    requires trailer_in_bounds { 12 + 16 * count_in trailer.now ≤ length trailer.now }
    requires formed { Formed table.now }
    ensures { result
        ≡ decide (each (entry_tests lsn (used_entries table.now)) (entries_in trailer.now)) }
{
    for k in 0..trailer::count(trailer) {
        check_entry(trailer::entry(trailer, k), lsn, table)?;
    }
    Ok(())
}
