// The inquiries about an open file.
#![tactic(auto, using(crate::proofs::Laws::inquiring))]

ghost use Rattle.std.specs.Prelude.{◌≡◌, ◌+◌, ◌<◌, length};
ghost use Rattle.placing.specs.Sizes.{entries, tables_length, opening_length};
ghost use Rattle.rules.specs.Calls.{uses};
ghost use Rattle.rules.specs.Calls as call;
ghost use Rattle.cells.specs.Outcomes.{outcome, request_out};
ghost use Rattle.gate.specs.Gates.{reach_of};
ghost use Rattle.call_ask.specs.Told.{field_at, told};

use answers::{Answer, Refusal};
use placing::{GREATEST_POINTER, NAME_SYMBOLS, OPENING_LENGTH, OPENINGS_START, Position};
use tables::layout;

// The number of a name's last symbol.
const LAST_SYMBOL: u32 = NAME_SYMBOLS as u32 - 1;

// The symbol of no place of a name, a number that users know: "63 for k of 12 or more".
const NO_PLACE: u32 = 63;

// A cell of an opening, by its number in the row.
fn field(tables: &[u32], at: usize, number: usize) -> u32
    requires { (length tables.now ≡ tables_length) × (at < entries) × (number < opening_length) }
    ensures { result ≡ field_at tables.now at number }
{
    tables[OPENINGS_START + OPENING_LENGTH * at + number]
}

// An inquiry that one cell of the opening answers. `claim`, `symbol` and `value` have only the line of the gate in common with
// it and with each other: a function that passes the gate and takes the rest as a closure is no plainer, for it takes the
// same arguments, the closure, and a clause on what that asks of an entry behind the gate.
fn tell(cells: usize, tables: &[u32], user: u32, entry: u32, number: usize) -> Answer
    requires { number < opening_length }
    ensures { result ≡ told tables.now number (reach_of cells tables.now user entry) }
{
    let at = gate::reach(cells, tables, user, entry)?;
    Ok(field(tables, at, number))
}

// The value of a pointer, as its cell has it.
fn value_at(tables: &[u32], at: usize, pointer: u32) -> Position
    requires { (length tables.now ≡ tables_length) × (at < entries) × (pointer < 8) }
    ensures { result.0 ≡ field_at tables.now at (4 + pointer) }
{
    let number = layout::OPENING_POINTERS + pointer as usize;
    Position::of(field(tables, at, number))
}

// "Inquiries: species, claim, work permit (1 or 0), symbol k of the name (k from 0; 63 for k of 12 or more), begin, end, value
// of a pointer"

pub fn species(store: &[u32], tables: &[u32], user: u32, entry: u32) -> Answer
    ensures { outcome result store.now tables.now ≡ request_out (uses call.ask_species) store.now tables.now user entry }
{
    tell(store.len(), tables, user, entry, layout::OPENING_SPECIES)
}

// "The claim is the number of positions from b to the end of the last held stretch, 0 for an empty file."
pub fn claim(store: &[u32], tables: &[u32], user: u32, entry: u32) -> Answer
    ensures { outcome result store.now tables.now ≡ request_out (uses call.ask_claim) store.now tables.now user entry }
{
    let at = gate::reach(store.len(), tables, user, entry)?;
    let species = field(tables, at, layout::OPENING_SPECIES);
    let begin = value_at(tables, at, 0);
    let end = value_at(tables, at, 1);
    Ok(placing::claim(species, begin, end))
}

// "work permit (1 or 0)"
pub fn permit(store: &[u32], tables: &[u32], user: u32, entry: u32) -> Answer
    ensures { outcome result store.now tables.now ≡ request_out (uses call.ask_permit) store.now tables.now user entry }
{
    tell(store.len(), tables, user, entry, layout::OPENING_PERMIT)
}

// "symbol k of the name (k from 0; 63 for k of 12 or more)"
pub fn symbol(store: &[u32], tables: &[u32], user: u32, entry: u32, k: u32) -> Answer
    ensures { outcome result store.now tables.now ≡ request_out (uses (call.ask_symbol k)) store.now tables.now user entry }
{
    let at = gate::reach(store.len(), tables, user, entry)?;
    if LAST_SYMBOL < k {
        return Ok(NO_PLACE);
    }
    let number = layout::OPENING_NAME + k as usize;
    Ok(field(tables, at, number))
}

pub fn begin(store: &[u32], tables: &[u32], user: u32, entry: u32) -> Answer
    ensures { outcome result store.now tables.now ≡ request_out (uses call.ask_begin) store.now tables.now user entry }
{
    tell(store.len(), tables, user, entry, layout::OPENING_BEGIN)
}

pub fn end(store: &[u32], tables: &[u32], user: u32, entry: u32) -> Answer
    ensures { outcome result store.now tables.now ≡ request_out (uses call.ask_end) store.now tables.now user entry }
{
    tell(store.len(), tables, user, entry, layout::OPENING_END)
}

// "value of a pointer"; "not a pointer of the file" is 4.
pub fn value(store: &[u32], tables: &[u32], user: u32, entry: u32, pointer: u32) -> Answer
    ensures { outcome result store.now tables.now ≡ request_out (uses (call.ask_value pointer)) store.now tables.now user entry }
{
    let at = gate::reach(store.len(), tables, user, entry)?;
    if GREATEST_POINTER < pointer {
        return Err(Refusal::Pointer);
    }
    let found = value_at(tables, at, pointer);
    if found.is_none() {
        return Err(Refusal::Pointer);
    }
    Ok(found.number())
}
