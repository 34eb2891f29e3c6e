// The operator's call that tidies: the listed segments get the lowest numbers.
#![tactic(auto, using(crate::proofs::Laws::tests))]

ghost use Rattle.std.specs.Prelude.{not, ◌≡◌, length};
ghost use Rattle.placing.specs.Sizes.{tables_length};
ghost use Rattle.rules.specs.House.{has_open};
ghost use Rattle.cells.specs.Says.{house_of};
ghost use Rattle.cells.specs.Outcomes.{outcome, tidy_out};

use answers::{Answer, Refusal};
use placing::{ENTRIES, OPENING_LENGTH, OPENINGS_START, SEGMENT_CELLS};
use tidy_plan::ROOM;

// "With nothing open": for work or only to be read, a new file too.
fn nothing_open(tables: &[u32]) -> bool
    requires { length tables.now ≡ tables_length }
    ensures { result ≡ not (has_open (house_of tables.now)) }
{
    for entry in 0..ENTRIES {
        if tables[OPENINGS_START + OPENING_LENGTH * entry] == 1 {
            return false;
        }
    }
    true
}

// "The answer is the count of cells copied"
pub fn tidy(store: &mut [u32], tables: &mut [u32]) -> Answer
    ensures { outcome result store.new tables.new ≡ tidy_out store.old tables.old }
{
    if !sound::sound(tables, store.len()) {
        return Err(Refusal::Tables);
    }
    if !nothing_open(tables) {
        return Err(Refusal::NotNow);
    }
    let mut room = [0u32; ROOM];
    let count = tidy_plan::plan(tables, &mut room);
    if count == 0 {
        return Ok(0);
    }
    moves_carry::carry(store, tables, &room[0..2 * count]);
    let cells = (SEGMENT_CELLS * count) as u32;
    Ok(cells)
}
