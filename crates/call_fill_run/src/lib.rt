// The call that fills a list by next: a stretch at a time.
#![tactic(auto)]

ghost use Rattle.std.specs.Prelude.{◌≡◌, ◌<◌, false, length, Ok};
ghost use Rattle.rules.specs.Calls.{fills};
ghost use Rattle.tables.specs.Layout.{opening_at};
ghost use Rattle.cells.specs.Outcomes.{lent, run_out};
ghost use Rattle.cells.specs.Runs.{filled, filled_by};
ghost use Rattle.gate_laws.specs.Standing.{Standing};
ghost use Rattle.run_laws.specs.Singles.{uses_on, nexts_of};
ghost use Rattle.call_next_prev.specs.Reads.{NextPlan};
ghost use Rattle.call_fill_run.specs.Turned.{Turned, Admitted, Handed};

use answers::Refusal;
use call_next_prev::{Direction, Reading};
use tables::Opening;

// One element, as the single call delivers it.
fn single(
    store: &[u32],
    tables: &mut [u32],
    entry: usize,
    opening: Opening,
    pointer: u32,
    reading: Reading,
    list: &mut [u32],
    from: usize,
) -> Result<usize, Refusal>
    requires { Standing (length store.now) tables.old entry × (opening ≡ opening_at tables.old entry) × NextPlan opening false pointer (Ok reading) × (from < length list.old) }
    ensures { Turned entry pointer store.now tables.old list.old from result tables.new list.new }
{
    let told = Direction::Forward.deliver(
        store,
        tables,
        entry,
        opening,
        pointer,
        false,
        Ok(reading),
    )?;
    list[from] = told;
    Ok(1)
}

// A turn: the elements of one stretch, or one element, or a refusal; how many are in the list.
fn advance(
    store: &[u32],
    tables: &mut [u32],
    entry: usize,
    pointer: u32,
    list: &mut [u32],
    from: usize,
) -> Result<usize, Refusal>
    requires { Standing (length store.now) tables.old entry × (from < length list.old) }
    ensures { Turned entry pointer store.now tables.old list.old from result tables.new list.new }
{
    let opening = tables_openings::load_opening(tables, entry);
    let reading = Direction::Forward.read(opening, pointer, false)?;
    let count = run_takes::how_far(opening, pointer, list.len() - from);
    if count == 0 {
        return single(store, tables, entry, opening, pointer, reading, list, from);
    }
    run_takes::take_stretch(
        store,
        tables,
        entry,
        opening,
        pointer,
        reading.segment,
        list,
        from,
        count,
    );
    Ok(count)
}

// The fill behind its own refusals, turn after turn: how many elements are in the list before the one that is refused,
// and why.
fn run_on(
    store: &[u32],
    tables: &mut [u32],
    entry: usize,
    pointer: u32,
    list: &mut [u32],
) -> Result<(), (usize, Refusal)>
    requires { Standing (length store.now) tables.old entry }
    ensures { Handed list.new result (lent store.now tables.new) (filled_by pointer list.old (uses_on entry (nexts_of pointer list.old) (lent store.now tables.old))) }
{
    // Not a `for`: a turn goes on by a whole stretch and not by one.
    let mut n: usize = 0;
    while n < list.len() {
        match advance(store, tables, entry, pointer, list, n) {
            Ok(count) => n += count,
            Err(why) => return Err((n, why)),
        }
    }
    Ok(())
}

// The entry, of 32, that a fill reads from: "a list of length 0 still gets refusals 20, 1, 2, 4, 5 where they apply": 4,
// and through pointer 0 also 5; species 6 is refused "with 19, after 2 and before 4; so do P1's runs, at length 0 too"
// (document 02, P5).
fn admitted(
    store: &[u32],
    tables: &[u32],
    user: u32,
    entry: u32,
    pointer: u32,
) -> Result<usize, Refusal>
    ensures { Admitted pointer store.now tables.now user entry result }
{
    let at = gate::reach(store.len(), tables, user, entry)?;
    let opening = tables_openings::load_opening(tables, at);
    if numbers::is_foreign(false, opening.species) {
        return Err(Refusal::Species);
    }
    if opening.value(pointer).is_none() {
        return Err(Refusal::Pointer);
    }
    if pointer != 0 {
        return Ok(at);
    }
    if opening.permit != 1 {
        return Err(Refusal::Permit);
    }
    Ok(at)
}

// The whole fill: how many elements are in the list before the one that is refused, and why.
fn run(
    store: &[u32],
    tables: &mut [u32],
    user: u32,
    entry: u32,
    pointer: u32,
    list: &mut [u32],
) -> Result<(), (usize, Refusal)>
    ensures { Handed list.new result (lent store.now tables.new) (filled_by pointer list.old (run_out (fills pointer list.old) store.now tables.old user entry)) }
{
    match admitted(store, tables, user, entry, pointer) {
        Ok(at) => run_on(store, tables, at, pointer, list),
        Err(why) => Err((0, why)),
    }
}

// Fills a list with the elements from a pointer of an entry of a user on, till the first that is refused. It answers how
// many places it filled, and leaves the others as they were; that refusal's number, or 0, is put in the place,
// which C lends.
pub fn fill_run(
    store: &[u32],
    tables: &mut [u32],
    user: u32,
    entry: u32,
    pointer: u32,
    list: &mut [u32],
    place: &mut u32,
) -> usize
    ensures { filled result place.new list.new (lent store.now tables.new) ≡ filled_by pointer list.old (run_out (fills pointer list.old) store.now tables.old user entry) }
{
    match run(store, tables, user, entry, pointer, list) {
        Ok(()) => {
            *place = 0;
            list.len()
        }
        Err((n, why)) => {
            *place = answers::number(why);
            n
        }
    }
}
