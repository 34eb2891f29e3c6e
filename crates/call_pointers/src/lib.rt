// The calls that move, make and delete pointers of an open file. Each has the same lines around its method of an opening: a
// function that takes the method as a closure is no plainer, for it takes a clause on what that tells of every opening.
#![tactic(auto, using(crate::proofs::Laws::behind))]

ghost use Rattle.std.specs.Prelude.{◌≡◌};
ghost use Rattle.rules.specs.Calls.{uses};
ghost use Rattle.rules.specs.Calls as call;
ghost use Rattle.cells.specs.Outcomes.{outcome, request_out};

use answers::Answer;

// "A new own pointer takes the lowest free name, which is the answer, and the value of a given pointer."
pub fn new_pointer(store: &[u32], tables: &mut [u32], user: u32, entry: u32, pointer: u32) -> Answer
    ensures { outcome result store.now tables.new ≡ request_out (uses (call.new_pointer pointer)) store.now tables.old user entry }
{
    let at = gate::reach(store.len(), tables, user, entry)?;
    let opening = tables_openings::load_opening(tables, at);
    let (answer, changed) = opening.new_pointer(pointer)?;
    tables_openings::put_opening(tables, at, changed);
    Ok(answer)
}

// "Only 3 to 7 can be deleted."
pub fn delete_pointer(
    store: &[u32],
    tables: &mut [u32],
    user: u32,
    entry: u32,
    pointer: u32,
) -> Answer
    ensures { outcome result store.now tables.new ≡ request_out (uses (call.delete_pointer pointer)) store.now tables.old user entry }
{
    let at = gate::reach(store.len(), tables, user, entry)?;
    let opening = tables_openings::load_opening(tables, at);
    let (answer, changed) = opening.delete_pointer(pointer)?;
    tables_openings::put_opening(tables, at, changed);
    Ok(answer)
}

// "Reset puts pointer 2 at the begin value."
pub fn reset(store: &[u32], tables: &mut [u32], user: u32, entry: u32) -> Answer
    ensures { outcome result store.now tables.new ≡ request_out (uses call.reset) store.now tables.old user entry }
{
    let at = gate::reach(store.len(), tables, user, entry)?;
    let opening = tables_openings::load_opening(tables, at);
    tables_openings::put_opening(tables, at, opening.reset());
    Ok(0)
}
