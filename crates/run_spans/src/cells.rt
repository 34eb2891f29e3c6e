// Elements of one stretch of species 5: each is a cell, the next one the next cell, so that a row of them is copied.
ghost use Rattle.std.specs.Prelude.{◌+◌, ◌≤◌, ◌≡◌, length};
ghost use Rattle.std.proofs.Math.Seq.{paste};
ghost use Rattle.combine.specs.Lists.{part};
ghost use Rattle.placing.specs.Placing.{cell_of};
ghost use Rattle.placing.specs.Laws.Whole.{whole_species};

use placing::{Position, Segment};

// So many elements of a list, from a position on.
pub fn put_cells(store: &mut [u32], segment: Segment, first: Position, list: &[u32], count: usize)
    requires { (1 ≤ first.0) × ((cell_of whole_species segment first).0 + count ≤ length store.old) × (count ≤ length list.now) }
    ensures { store.new ≡ paste store.old (cell_of whole_species segment first).0 list.now count }
{
    let at = segment.whole_cell(first).index();
    store[at..at + count].copy_from_slice(&list[0..count]);
}

// So many elements from a position on, into a list from a place on.
pub fn take_cells(
    store: &[u32],
    segment: Segment,
    first: Position,
    list: &mut [u32],
    from: usize,
    count: usize,
)
    requires { (1 ≤ first.0) × ((cell_of whole_species segment first).0 + count ≤ length store.now) × (from + count ≤ length list.old) }
    ensures { list.new ≡ paste list.old from (part store.now (cell_of whole_species segment first).0 count) count }
{
    let at = segment.whole_cell(first).index();
    list[from..from + count].copy_from_slice(&store[at..at + count]);
}
