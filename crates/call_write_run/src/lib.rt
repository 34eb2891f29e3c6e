// The call that writes a run of elements: turn by turn, each as far as a segment goes.
#![tactic(auto)]

ghost use Rattle.std.specs.Prelude.{◌≡◌, ◌≤◌, ◌<◌, length};
ghost use Rattle.rules.specs.Calls.{writes};
ghost use Rattle.tables.specs.Fields.{value_of};
ghost use Rattle.cells.specs.Outcomes.{lent, run_out};
ghost use Rattle.cells.specs.Runs.{written, written_by};
ghost use Rattle.opening_laws.specs.Back.{OpenFile};
ghost use Rattle.gate_laws.specs.Standing.{Standing};
ghost use Rattle.run_laws.specs.Singles.{uses_on, writes_of};
ghost use Rattle.write_plan.specs.declared.Plan.TheVariants.{Drop};
ghost use Rattle.call_write_run.specs.Turned.{Decided, Leave, Turned, Admitted, Handed, wrote};

use answers::Refusal;
use tables::Opening;
use write_plan::Plan;

// One element, as the single call writes it.
fn single(
    store: &mut [u32],
    tables: &mut [u32],
    entry: usize,
    opening: Opening,
    pointer: u32,
    list: &[u32],
    plan: Plan,
) -> Result<usize, Refusal>
    requires { Decided store.old tables.old entry opening pointer list.now plan }
    ensures { Turned entry pointer list.now store.old tables.old result store.new tables.new }
{
    call_write::carry(store, tables, entry, opening, pointer, list[0], Ok(plan))?;
    Ok(1)
}

// How many elements leave the first stretch, so that one stays there: as many as the list has numbers before the first
// that is too wide.
fn how_many_leave(opening: Opening, list: &[u32]) -> usize
    requires { OpenFile opening × (value_of opening 0 < value_of opening 1) }
    ensures { Leave opening list.now result }
{
    let begin = opening.value(0);
    let end = opening.value(1);
    let ahead = run_spans::ahead(opening.species, begin, end);
    let left = run_spans::fewer(ahead - 1, list.len());
    run_spans::fitting(opening.species, list, left)
}

// "Through 0: the first element is dropped, no segment is taken and no store cell changes.": as many as leave an element
// in the first stretch, so that the list of segments stays; else one.
fn drop_stretch(
    store: &mut [u32],
    tables: &mut [u32],
    entry: usize,
    opening: Opening,
    pointer: u32,
    list: &[u32],
    plan: Plan,
) -> Result<usize, Refusal>
    requires { Decided store.old tables.old entry opening pointer list.now plan × (plan ≡ Drop) }
    ensures { Turned entry pointer list.now store.old tables.old result store.new tables.new }
{
    let count = how_many_leave(opening, list);
    if count == 0 {
        return single(store, tables, entry, opening, pointer, list, plan);
    }
    let begin = opening.value(0);
    let after = opening.step(0, run_spans::on_by(begin, count));
    tables_openings::put_opening(tables, entry, after);
    Ok(count)
}

// A turn: the elements of the list that go into one segment, or one element, or a refusal; how many are written.
fn advance(
    store: &mut [u32],
    tables: &mut [u32],
    entry: usize,
    pointer: u32,
    list: &[u32],
) -> Result<usize, Refusal>
    requires { Standing (length store.old) tables.old entry × (1 ≤ length list.now) }
    ensures { Turned entry pointer list.now store.old tables.old result store.new tables.new }
{
    let opening = tables_openings::load_opening(tables, entry);
    let wide = numbers::is_too_wide_plain(opening.species, list[0]);
    let plan = write_plan::decide(tables, opening, pointer, false, wide)?;
    match plan {
        Plan::Put(own) => {
            let count = run_puts::put_stretch(store, tables, entry, opening, pointer, own, list);
            Ok(count)
        }
        Plan::Drop => drop_stretch(store, tables, entry, opening, pointer, list, plan),
        _ => single(store, tables, entry, opening, pointer, list, plan),
    }
}

// The run behind its own refusals: "It stops at the first element that the single call would refuse": how many are
// written before it, and why it is refused.
fn run_on(
    store: &mut [u32],
    tables: &mut [u32],
    entry: usize,
    pointer: u32,
    list: &[u32],
) -> Result<(), (usize, Refusal)>
    requires { Standing (length store.old) tables.old entry }
    ensures { Handed list.now result (lent store.new tables.new) (wrote list.now 0 (uses_on entry (writes_of pointer list.now) (lent store.old tables.old))) }
{
    // Not a `for`: a turn goes on by a whole stretch and not by one.
    let mut n: usize = 0;
    while n < list.len() {
        match advance(store, tables, entry, pointer, &list[n..]) {
            Ok(count) => n += count,
            Err(why) => return Err((n, why)),
        }
    }
    Ok(())
}

// The entry, of 32, that a run writes through: "a list of length 0 still gets refusals 20, 1, 2, 4, 5 where they
// apply"; and 19 after 2, for species 6.
fn admitted(
    store: &[u32],
    tables: &[u32],
    user: u32,
    entry: u32,
    pointer: u32,
) -> Result<usize, Refusal>
    ensures { Admitted pointer store.now tables.now user entry result }
{
    let at = gate::reach(store.len(), tables, user, entry)?;
    let opening = tables_openings::load_opening(tables, at);
    if numbers::is_foreign(false, opening.species) {
        return Err(Refusal::Species);
    }
    if opening.value(pointer).is_none() {
        return Err(Refusal::Pointer);
    }
    if opening.permit != 1 {
        return Err(Refusal::Permit);
    }
    Ok(at)
}

// The whole run: how many elements are written before the one that is refused, and why.
fn run(
    store: &mut [u32],
    tables: &mut [u32],
    user: u32,
    entry: u32,
    pointer: u32,
    list: &[u32],
) -> Result<(), (usize, Refusal)>
    ensures { Handed list.now result (lent store.new tables.new) (written_by pointer list.now (run_out (writes pointer list.now) store.old tables.old user entry)) }
{
    match admitted(store, tables, user, entry, pointer) {
        Ok(at) => run_on(store, tables, at, pointer, list),
        Err(why) => Err((0, why)),
    }
}

// Writes the elements of a list through a pointer of an entry of a user, till the first that is refused: "the writer
// hands back the unwritten rest of the caller's own list, and puts that refusal's number, or 0, in a lent place", which
// C lends.
pub fn write_run<'l>(
    store: &mut [u32],
    tables: &mut [u32],
    user: u32,
    entry: u32,
    pointer: u32,
    list: &'l [u32],
    place: &mut u32,
) -> &'l [u32]
    ensures { written result.now place.new (lent store.new tables.new) ≡ written_by pointer list.now (run_out (writes pointer list.now) store.old tables.old user entry) }
{
    match run(store, tables, user, entry, pointer, list) {
        Ok(()) => {
            *place = 0;
            &list[list.len()..]
        }
        Err((n, why)) => {
            *place = answers::number(why);
            &list[n..]
        }
    }
}
