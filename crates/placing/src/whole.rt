// Species 5, "where an element is a cell" (document 02, P3).
ghost use Rattle.std.specs.Prelude.{◌≡◌, ◌≤◌};
ghost use Rattle.placing.specs.Placing.{cell_of};
ghost use Rattle.placing.specs.Laws.Whole.{whole_species};

use crate::{Cell, Position, SEGMENT_CELLS, Segment};

pub const WHOLE_SPECIES: u32 = 5;

impl Segment {
    // The cell that is the element at a position.
    pub fn whole_cell(self, position: Position) -> Cell
        requires { 1 ≤ position.0 }
        ensures { result ≡ cell_of whole_species self position }
    {
        let before = (position.0 - 1) as usize % SEGMENT_CELLS;
        Cell((self.0 as usize) * SEGMENT_CELLS + before)
    }
}
