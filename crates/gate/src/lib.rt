// The refusals that come before a call's own: "Order: 20, 1, 2".
#![tactic(auto)]

ghost use Rattle.std.specs.Prelude.{◌≡◌};
ghost use Rattle.gate.specs.Gates.{pass_of, reach_of};

use answers::Refusal;
use placing::{GREATEST_ENTRY, GREATEST_USER, OPENING_LENGTH, OPENINGS_START, ROW_ENTRIES};

// The entry by its number of 32, whether it is open or not; the store has so many cells.
pub fn pass(cells: usize, tables: &[u32], user: u32, entry: u32) -> Result<usize, Refusal>
    ensures { result ≡ pass_of cells tables.now user entry }
{
    if !sound::sound(tables, cells) {
        return Err(Refusal::Tables);
    }
    if GREATEST_USER < user {
        return Err(Refusal::User);
    }
    if GREATEST_ENTRY < entry {
        return Err(Refusal::Entry);
    }
    let of_all = ROW_ENTRIES * user + entry;
    Ok(of_all as usize)
}

// An open entry: "entry above 3, or not open where it must be" is 2.
pub fn reach(cells: usize, tables: &[u32], user: u32, entry: u32) -> Result<usize, Refusal>
    ensures { result ≡ reach_of cells tables.now user entry }
{
    let at = pass(cells, tables, user, entry)?;
    let opened = OPENINGS_START + OPENING_LENGTH * at;
    if tables[opened] != 1 {
        return Err(Refusal::Entry);
    }
    Ok(at)
}
