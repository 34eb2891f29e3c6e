// Openings by value: what they hold, and the first or the last element leaves.
#![tactic(auto)]

ghost use Rattle.std.specs.Prelude.{◌≡◌, [], ◌∷◌, ◌++◌, ◌≤◌, ◌<◌, drop};
ghost use Rattle.placing.specs.Sizes.{most_held};
ghost use Rattle.placing.specs.Placing.{segment, held_of, slot_of};
ghost use Rattle.tables.specs.Fields.{value_of};
ghost use Rattle.opening_laws.specs.Deeded.{with_segment, shifted, first_left, last_left};
ghost use Rattle.opening_laws.specs.Back.{OpenFile};
ghost use Rattle.opening_steps.specs.Spans.{Spans};

use placing::{LIST_LENGTH, Position, Segment};
use tables::Opening;

// The last place of a list.
const LAST_SLOT: usize = LIST_LENGTH - 1;

// "A file holds one segment for each stretch with at least one of its positions, and no other"
pub fn holds(opening: Opening) -> u32
    requires { Spans opening }
    ensures { result ≡ held_of opening.species (value_of opening 0) (value_of opening 1) }
{
    let begin = opening.value(0);
    let end = opening.value(1);
    placing::held(opening.species, begin, end)
}

// The place of a position's stretch in the opening's list.
pub fn place_of(opening: Opening, position: Position) -> u32
    requires { Spans opening × (value_of opening 0 ≤ position.0) }
    ensures { result ≡ slot_of opening.species (value_of opening 0) position.0 }
{
    let begin = opening.value(0);
    position.slot(begin, opening.species)
}

// The list without its first segment: "Unused list places are zero".
fn from_second(list: [Segment; LIST_LENGTH]) -> [Segment; LIST_LENGTH]
    ensures { result ≡ drop 1 list ++ (segment 0 ∷ []) }
{
    let mut rest = [Segment::of(0); LIST_LENGTH];
    // By a loop: `copy_from_slice` reads the list, just written, across its words, and took 65 ns more.
    for slot in 0..LAST_SLOT {
        rest[slot] = list[slot + 1];
    }
    rest
}

// The first segment leaves the list.
fn shift(mut opening: Opening) -> Opening
    ensures { result ≡ shifted opening }
{
    let list = opening.segments;
    let rest = from_second(list);
    opening.segments = rest;
    opening
}

// A place of the list gets a segment.
pub fn with_segment(mut opening: Opening, place: usize, given: Segment) -> Opening
    requires { place < most_held }
    ensures { result ≡ with_segment opening place given }
{
    opening.segments[place] = given;
    opening
}

// The opening without its first element.
pub fn first_left(opening: Opening) -> Opening
    requires { OpenFile opening × (value_of opening 0 < value_of opening 1) }
    ensures { result ≡ first_left opening }
{
    let begin = opening.value(0);
    let next = begin.after();
    let moved = opening.step(0, next);
    if holds(moved) < holds(opening) {
        return shift(moved);
    }
    moved
}

// The opening without its last element.
pub fn last_left(opening: Opening) -> Opening
    requires { OpenFile opening × (value_of opening 0 < value_of opening 1) }
    ensures { result ≡ last_left opening }
{
    let end = opening.value(1);
    let last = end.before();
    let moved = opening.step(1, last);
    let held = holds(opening);
    if holds(moved) < held {
        return with_segment(moved, (held - 1) as usize, Segment::of(0));
    }
    moved
}
