// The call that gives an open file another name.
#![tactic(auto)]

ghost use Rattle.std.specs.Prelude.{◌≡◌};
ghost use Rattle.rules.specs.Calls.{uses};
ghost use Rattle.rules.specs.Calls as act;
ghost use Rattle.cells.specs.Outcomes.{outcome, request_out};

use answers::Answer;

// "Renaming (needs the work permit) changes the opening's name only."
pub fn rename(store: &[u32], tables: &mut [u32], user: u32, entry: u32, name: &[u8]) -> Answer
    ensures { outcome result store.now tables.new ≡ request_out (uses (act.rename name.now)) store.now tables.old user entry }
{
    let at = gate::reach(store.len(), tables, user, entry)?;
    let opening = tables_openings::load_opening(tables, at);
    let symbols = names::name_of(name);
    let (answer, renamed) = opening.rename(symbols)?;
    tables_openings::put_opening(tables, at, renamed);
    Ok(answer)
}
