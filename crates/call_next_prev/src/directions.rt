// What differs between next and prev.
ghost use Rattle.std.specs.Prelude.{◌≡◌, ◌≤◌, ◌<◌};
ghost use Rattle.placing.specs.Sizes.{greatest_end};
ghost use Rattle.tables.specs.Fields.{value_of};
ghost use Rattle.opening_laws.specs.Back.{OpenFile};
ghost use Rattle.call_next_prev.specs.Reads.{edge_of, edge_left, from_of, to_of};

use crate::Direction;
use placing::Position;
use tables::Opening;

impl Direction {
    // The pointer through which the element leaves the file, and which needs the work permit.
    pub(crate) fn edge(self) -> u32
        ensures { result ≡ edge_of self }
    {
        match self {
            Direction::Forward => 0,
            Direction::Backward => 1,
        }
    }

    // The position that a pointer delivers: "Delivers position v", "v falls by 1, delivers that position".
    pub(crate) fn element(self, value: Position) -> Position
        requires { 1 ≤ value.0 }
        ensures { value.0 ≡ from_of self result.0 }
    {
        match self {
            Direction::Forward => value,
            Direction::Backward => value.before(),
        }
    }

    // Where the pointer is when the position is delivered: "v grows", "v falls by 1".
    pub(crate) fn moved(self, position: Position) -> Position
        requires { position.0 < greatest_end }
        ensures { result.0 ≡ to_of self position.0 }
    {
        match self {
            Direction::Forward => position.after(),
            Direction::Backward => position,
        }
    }

    // The opening without the element at the edge.
    pub(crate) fn shortened(self, opening: Opening) -> Opening
        requires { OpenFile opening × (value_of opening 0 < value_of opening 1) }
        ensures { result ≡ edge_left self opening }
    {
        match self {
            Direction::Forward => opening_steps::first_left(opening),
            Direction::Backward => opening_steps::last_left(opening),
        }
    }
}
