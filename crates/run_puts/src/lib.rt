// The elements of a run that lie in one segment, which the opening holds alone.
#![tactic(auto)]

ghost use Rattle.std.specs.Prelude.{◌≡◌, ◌+◌, ◌*◌, ◌≤◌, ◌<◌, length};
ghost use Rattle.placing.specs.Sizes.{segment_cells, greatest_species, tables_length, entries};
ghost use Rattle.run_spans.specs.Ahead.{Follow, Fits};
ghost use Rattle.run_spans.specs.Bits.{Row};
ghost use Rattle.run_puts.specs.Puts.{put_row, put_first, limit_of, Points, Many, Stretched};

use placing::whole::WHOLE_SPECIES;
use placing::{GREATEST_END, Position, Segment};
use run_spans::bits::{bits_to, put_after};
use run_spans::cells::put_cells;
use tables::Opening;

// So many elements of a list, each of a width, one after another from some bits on.
fn put_row(store: &mut [u32], from: usize, width: u32, list: &[u32], count: usize)
    requires { Row (length store.old) from width count × (count ≤ length list.now) }
    ensures { store.new ≡ put_row store.old from width list.now count }
{
    let mut bits = from;
    for number in &list[0..count] {
        put_after(store, bits, width, *number);
        bits += width as usize;
    }
}

// So many elements of a list, from a position on, all of one stretch, into its segment: of species 5 cells are copied.
fn put_all(
    store: &mut [u32],
    species: u32,
    segment: Segment,
    first: Position,
    list: &[u32],
    count: usize,
)
    requires segment_cells_in_bounds { segment.0 * segment_cells + segment_cells ≤ length store.old }
    requires le_first { (1 ≤ first.0) × (species ≤ greatest_species) × (count ≤ length list.now) × Follow species first.0 count }
    ensures { store.new ≡ put_first store.old species segment first.0 list.now count }
{
    if species == WHOLE_SPECIES {
        put_cells(store, segment, first, list, count);
        return;
    }
    let width = placing::width(species);
    let from = bits_to(segment, first, species);
    put_row(store, from, width, list, count);
}

// The first position that the pointer does not write at.
fn limit(opening: Opening, pointer: u32) -> Position
    ensures { result.0 ≡ limit_of opening pointer }
{
    if pointer == 1 {
        return Position::of(GREATEST_END);
    }
    opening.value(1)
}

// How many elements of the list go into the stretch of the pointer's position, up to the first that is too wide.
fn how_many(opening: Opening, pointer: u32, list: &[u32]) -> usize
    requires { Points opening pointer × (1 ≤ length list.now) × Fits opening.species list.now 0 }
    ensures { Many opening pointer list.now result }
{
    let value = opening.value(pointer);
    let beyond = limit(opening, pointer);
    let most = run_spans::ahead(opening.species, value, beyond);
    let left = run_spans::fewer(most, list.len());
    run_spans::fitting(opening.species, list, left)
}

// So many elements of the list go into the segment that the opening holds for the pointer's position: how many.
pub fn put_stretch(
    store: &mut [u32],
    tables: &mut [u32],
    entry: usize,
    opening: Opening,
    pointer: u32,
    own: Segment,
    list: &[u32],
) -> usize
    requires { (length tables.old ≡ tables_length) × (entry < entries) × (own.0 * segment_cells + segment_cells ≤ length store.old) × Points opening pointer × (1 ≤ length list.now) × Fits opening.species list.now 0 }
    ensures { Stretched store.old tables.old entry opening pointer own list.now result store.new tables.new }
{
    let value = opening.value(pointer);
    let count = how_many(opening, pointer, list);
    put_all(store, opening.species, own, value, list, count);
    let after = opening.step(pointer, run_spans::on_by(value, count));
    tables_openings::put_opening(tables, entry, after);
    count
}
