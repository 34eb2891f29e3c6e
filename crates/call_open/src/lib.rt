// The calls that open a file: new, for work, for reading.
#![tactic(auto)]

ghost use Rattle.std.specs.Prelude.{◌≡◌, ◌<◌, length};
ghost use Rattle.placing.specs.Sizes.{entries, places, tables_length};
ghost use Rattle.rules.specs.Calls.{opens};
ghost use Rattle.rules.specs.Calls as way;
ghost use Rattle.tables.specs.Layout.{record_at, put_opening};
ghost use Rattle.cells.specs.Outcomes.{outcome, request_out};
ghost use Rattle.cells.specs.Laws.Catalogue.{old_opening};
ghost use Rattle.call_open.specs.Vacant.{AtVacant};
ghost use Rattle.call_open.specs.Ways.{way_of};

use answers::{Answer, Refusal};
use placing::{GREATEST_SPECIES, OPENING_LENGTH, OPENINGS_START};

// The entry that is to be opened: "Order: 20, 1, 2, then for an opening 3".
fn vacant(store: &[u32], tables: &[u32], user: u32, entry: u32) -> Result<usize, Refusal>
    ensures { AtVacant store.now tables.now user entry result }
{
    let at = gate::pass(store.len(), tables, user, entry)?;
    let opened = OPENINGS_START + OPENING_LENGTH * at;
    if tables[opened] == 1 {
        return Err(Refusal::Open);
    }
    Ok(at)
}

pub fn open_new(store: &[u32], tables: &mut [u32], user: u32, entry: u32, species: u32) -> Answer
    ensures { outcome result store.now tables.new ≡ request_out (opens (way.new species)) store.now tables.old user entry }
{
    let at = vacant(store, tables, user, entry)?;
    if GREATEST_SPECIES < species {
        return Err(Refusal::Species);
    }
    let opening = opening_values::new_opening(species);
    tables_openings::put_opening(tables, at, opening);
    Ok(0)
}

// The record at a place is opened at an entry.
fn open_record(tables: &mut [u32], at: usize, place: usize, work: bool)
    requires { (length tables.old ≡ tables_length) × (at < entries) × (place < places) }
    ensures { tables.new ≡ put_opening tables.old at (old_opening work place (record_at tables.old place)) }
{
    let filed = tables_records::load_record(tables, place);
    let opening = opening_values::old_opening(filed, place as u32, work);
    tables_openings::put_opening(tables, at, opening);
}

// "Work and read open a permanent file by name."
fn open_old(
    store: &[u32],
    tables: &mut [u32],
    user: u32,
    entry: u32,
    name: &[u8],
    work: bool,
) -> Answer
    ensures { outcome result store.now tables.new ≡ request_out (opens (way_of work name.now)) store.now tables.old user entry }
{
    let at = vacant(store, tables, user, entry)?;
    let symbols = names::name_of(name);
    let place = open_choice::choose(tables, user, symbols, work)?;
    open_record(tables, at, place, work);
    Ok(0)
}

pub fn open_work(store: &[u32], tables: &mut [u32], user: u32, entry: u32, name: &[u8]) -> Answer
    ensures { outcome result store.now tables.new ≡ request_out (opens (way.work name.now)) store.now tables.old user entry }
{
    open_old(store, tables, user, entry, name, true)
}

pub fn open_read(store: &[u32], tables: &mut [u32], user: u32, entry: u32, name: &[u8]) -> Answer
    ensures { outcome result store.now tables.new ≡ request_out (opens (way.read name.now)) store.now tables.old user entry }
{
    open_old(store, tables, user, entry, name, false)
}
