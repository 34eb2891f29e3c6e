// What a write is to do, decided before anything is changed.
#![tactic(auto)]

ghost use Rattle.std.specs.Prelude.{◌≡◌, ◌≤◌};
ghost use Rattle.placing.specs.Sizes.{most_held};
ghost use Rattle.tables.specs.Fields.{value_of};
ghost use Rattle.tables.specs.Laws.Sound.{Ranged};
ghost use Rattle.opening_laws.specs.Shared.{lists_number, shares_number};
ghost use Rattle.gate_laws.specs.Known.{Known};
ghost use Rattle.write_plan.specs.Plans.{room_of, Seats, write_verdict, seat_verdict, append_verdict, inside_verdict, Planned};

use answers::Refusal;
use placing::{LIST_LENGTH, MOST_HELD, Segment};
use tables::Opening;

// What a write is to do. A place is one of the opening's list.
#[derive(Clone, Copy)]
pub enum Plan {
    // the first element is dropped
    Drop,
    // into the segment that the opening holds
    Put(Segment),
    // into a copy of the first segment in the second, which takes the place
    Copy(usize, Segment, Segment),
    // into the zeroed segment, which takes the place
    Zero(usize, Segment),
}

// Whether a segment is among the held ones of a list.
fn lists(list: [Segment; LIST_LENGTH], held: u32, segment: Segment) -> bool
    requires { held ≤ most_held }
    ensures { result ≡ lists_number list held segment.0 }
{
    let number = segment.number();
    for found in &list[..held as usize] {
        if found.number() == number {
            return true;
        }
    }
    false
}

// "A work opening of an old file shares the record's segments until it changes one"
fn shares(tables: &[u32], opening: Opening, segment: Segment) -> bool
    requires { Known tables.now opening }
    ensures { result ≡ shares_number tables.now opening segment.0 }
{
    let Some(place) = opening.place.checked_sub(1) else {
        return false;
    };
    let filed = tables_records::load_record(tables, place as usize);
    let held = placing::held(filed.species, filed.begin, filed.end);
    lists(filed.segments, held, segment)
}

// "A taken segment is always the lowest-numbered free one"; "no room: a segment needed, none free" is 9.
fn room(tables: &[u32]) -> Result<Segment, Refusal>
    requires { Ranged tables.now }
    ensures { result ≡ room_of tables.now }
{
    let free = free_lowest::lowest_free(tables);
    if tables[0] <= free.number() {
        return Err(Refusal::Room);
    }
    Ok(free)
}

// The segment for the element at a pointer: "Taken for a stretch that had none, it is zeroed before use."; "before a
// write into a shared segment, that segment is copied to a taken one".
fn seat(tables: &[u32], opening: Opening, pointer: u32) -> Result<Plan, Refusal>
    requires { Known tables.now opening × Seats opening pointer }
    ensures { Planned tables.now opening pointer (seat_verdict tables.now opening pointer) result }
{
    let position = opening.value(pointer);
    let place = opening_steps::place_of(opening, position);
    let at = place as usize;
    if opening_steps::holds(opening) <= place {
        let free = room(tables)?;
        return Ok(Plan::Zero(at, free));
    }
    let own = opening.segments[at];
    if !shares(tables, opening, own) {
        return Ok(Plan::Put(own));
    }
    let free = room(tables)?;
    Ok(Plan::Copy(at, own, free))
}

// "Through 1: append, e grows by 1.": 10 at the greatest end; a number that is too wide is 23, "before 10".
fn append(tables: &[u32], opening: Opening, wide: bool) -> Result<Plan, Refusal>
    requires { Known tables.now opening }
    ensures { Planned tables.now opening 1 (append_verdict tables.now opening wide) result }
{
    let end = opening.value(1);
    let last = end.is_last();
    if wide {
        return Err(Refusal::Wide);
    }
    if last {
        return Err(Refusal::Positions);
    }
    let longer = opening.step(1, end.after());
    if MOST_HELD < opening_steps::holds(longer) {
        return Err(Refusal::Segments);
    }
    seat(tables, opening, 1)
}

// "p not 1 and v >= e is 7"; a number that is too wide is 23, "after 7 .., through any pointer": through 0 too, where
// none is stored.
fn inside(tables: &[u32], opening: Opening, pointer: u32, wide: bool) -> Result<Plan, Refusal>
    requires { Known tables.now opening × (value_of opening 0 ≤ value_of opening pointer) }
    ensures { Planned tables.now opening pointer (inside_verdict tables.now opening pointer wide) result }
{
    let value = opening.value(pointer);
    let end = opening.value(1);
    let first = pointer == 0;
    if end.is_at_most(value) {
        return Err(Refusal::Beyond);
    }
    if wide {
        return Err(Refusal::Wide);
    }
    if first {
        return Ok(Plan::Drop);
    }
    seat(tables, opening, pointer)
}

// "Write: v < b is 6"; "Write always .. need the work permit."; document 02, P5: the other kind's species is 19, "after
// 2 and before 4". The plan serves all bits of a number that is too wide or not.
pub fn decide(
    tables: &[u32],
    opening: Opening,
    pointer: u32,
    signed: bool,
    wide: bool,
) -> Result<Plan, Refusal>
    requires { Known tables.now opening }
    ensures { Planned tables.now opening pointer (write_verdict tables.now opening pointer signed wide) result }
{
    let foreign = numbers::is_foreign(signed, opening.species);
    let value = opening.value(pointer);
    let none = value.is_none();
    if foreign {
        return Err(Refusal::Species);
    }
    if none {
        return Err(Refusal::Pointer);
    }
    if opening.permit != 1 {
        return Err(Refusal::Permit);
    }
    let begin = opening.value(0);
    if value.is_before(begin) {
        return Err(Refusal::Below);
    }
    if pointer == 1 {
        return append(tables, opening, wide);
    }
    inside(tables, opening, pointer, wide)
}
