// What next and prev are to deliver, decided before anything is changed.
ghost use Rattle.std.specs.Prelude.{◌≡◌, ◌≤◌, ◌<◌};
ghost use Rattle.tables.specs.Fields.{value_of};
ghost use Rattle.opening_laws.specs.Back.{OpenFile};
ghost use Rattle.call_next_prev.specs.Reads.{segment_for, lacks_permit, ReadPlan};

use crate::{Direction, Reading};
use answers::Refusal;
use placing::{Position, Segment};
use tables::Opening;

// "next through 0 and prev through 1 need the work permit": `which` is the pointer that needs it.
fn lacks_permit(pointer: u32, which: u32, permit: u32) -> bool
    ensures { result ≡ lacks_permit pointer which permit }
{
    if pointer != which {
        return false;
    }
    permit != 1
}

// The segment of a position of the file.
fn segment_for(opening: Opening, position: Position) -> Segment
    requires { OpenFile opening × (value_of opening 0 ≤ position.0) × (position.0 < value_of opening 1) }
    ensures { result ≡ segment_for opening position.0 }
{
    let place = opening_steps::place_of(opening, position) as usize;
    opening.segments[place]
}

impl Direction {
    // "Next: v < b is 6, v >= e is 7. Delivers position v"; "Prev: v <= b is 6, v > e is 7. v falls by 1, delivers that
    // position.": for both, 6 is a delivered position before the begin, 7 one that is not before the end. A species
    // that is not of the call's kind is 19, "after 2 and before 4" (document 02, P5).
    pub fn read(self, opening: Opening, pointer: u32, signed: bool) -> Result<Reading, Refusal>
        requires { OpenFile opening }
        ensures { ReadPlan self opening signed pointer result }
    {
        let foreign = numbers::is_foreign(signed, opening.species);
        let value = opening.value(pointer);
        let none = value.is_none();
        if foreign {
            return Err(Refusal::Species);
        }
        if none {
            return Err(Refusal::Pointer);
        }
        if lacks_permit(pointer, self.edge(), opening.permit) {
            return Err(Refusal::Permit);
        }
        let position = self.element(value);
        let begin = opening.value(0);
        if position.is_before(begin) {
            return Err(Refusal::Below);
        }
        let end = opening.value(1);
        if end.is_at_most(position) {
            return Err(Refusal::Beyond);
        }
        let segment = segment_for(opening, position);
        Ok(Reading { segment, position })
    }
}
