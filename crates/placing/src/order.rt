// Positions in their order: a pointer's value is tested, and moves by one. The tests have names beside the derived
// order, for pages and must-fail edits name them.
ghost use Rattle.std.specs.Prelude.{◌≡◌, ◌≤◌, ◌<◌, ◌+◌, ◌-◌, leb, ltb, eqb};
ghost use Rattle.placing.specs.Sizes.{greatest_end};

use crate::{GREATEST_END, Position};

impl Position {
    // What stands for the value of a pointer that does not exist.
    pub fn none() -> Position
        ensures { result.0 ≡ 0 }
    {
        Position(0)
    }

    // Whether it is the value of no pointer: "not a pointer of the file" is 4.
    pub fn is_none(self) -> bool
        ensures { result ≡ eqb self.0 0 }
    {
        self.0 == 0
    }

    pub fn is_before(self, other: Position) -> bool
        ensures { result ≡ ltb self.0 other.0 }
    {
        self < other
    }

    pub fn is_at_most(self, other: Position) -> bool
        ensures { result ≡ leb self.0 other.0 }
    {
        self <= other
    }

    // Whether no end is beyond it: an append is refused for 10 there.
    pub fn is_last(self) -> bool
        ensures { result ≡ leb greatest_end self.0 }
    {
        GREATEST_END <= self.0
    }

    // "v grows by 1"
    pub fn after(self) -> Position
        requires { self.0 < greatest_end }
        ensures { result.0 ≡ self.0 + 1 }
    {
        Position(self.0 + 1)
    }

    // "v falls by 1"
    pub fn before(self) -> Position
        requires { 1 ≤ self.0 }
        ensures { result.0 ≡ self.0 - 1 }
    {
        Position(self.0 - 1)
    }
}
