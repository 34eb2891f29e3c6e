// The elements that a run takes from one stretch: how many, and they are taken.
#![tactic(auto)]

ghost use Rattle.std.specs.Prelude.{◌≡◌, ◌+◌, ◌*◌, ◌≤◌, ◌<◌, length};
ghost use Rattle.std.proofs.Math.Seq.{paste};
ghost use Rattle.placing.specs.Sizes.{segment_cells, greatest_species, tables_length, entries};
ghost use Rattle.tables.specs.Fields.{value_of};
ghost use Rattle.run_spans.specs.Ahead.{Follow};
ghost use Rattle.run_spans.specs.Bits.{Row};
ghost use Rattle.run_takes.specs.Takes.{taken, taken_row, Points, Far, Took};

use placing::whole::WHOLE_SPECIES;
use placing::{Position, Segment};
use run_spans::bits::{bits_to, take_after};
use run_spans::cells::take_cells;
use tables::Opening;

// How many elements from a pointer's value on are of one stretch, of so many that are left. "Through 0 the element leaves the
// file.", and with a stretch's last element its segment does: that one is not among them.
pub fn how_far(opening: Opening, pointer: u32, left: usize) -> usize
    requires { Points opening pointer }
    ensures { Far opening pointer left result }
{
    let value = opening.value(pointer);
    let end = opening.value(1);
    let most = run_spans::ahead(opening.species, value, end);
    if pointer == 0 {
        return run_spans::fewer(most - 1, left);
    }
    run_spans::fewer(most, left)
}

// So many elements, each of a width, one after another from some bits on, into a list from a place on.
fn take_row(store: &[u32], first: usize, width: u32, list: &mut [u32], from: usize, count: usize)
    requires { Row (length store.now) first width count × (from + count ≤ length list.old) }
    ensures { list.new ≡ paste list.old from (taken_row store.now first width count) count }
{
    let mut bits = first;
    for n in 0..count {
        list[from + n] = take_after(store, bits, width);
        bits += width as usize;
    }
}

// So many elements from a position on, all of one stretch, from its segment into a list from a place on: of species 5 cells are copied.
fn take_all(
    store: &[u32],
    species: u32,
    segment: Segment,
    first: Position,
    list: &mut [u32],
    from: usize,
    count: usize,
)
    requires segment_cells_in_bounds { segment.0 * segment_cells + segment_cells ≤ length store.now }
    requires le_first { (1 ≤ first.0) × (species ≤ greatest_species) × (from + count ≤ length list.old) × Follow species first.0 count }
    ensures { list.new ≡ paste list.old from (taken store.now species segment first.0 count) count }
{
    if species == WHOLE_SPECIES {
        take_cells(store, segment, first, list, from, count);
        return;
    }
    let width = placing::width(species);
    let bits = bits_to(segment, first, species);
    take_row(store, bits, width, list, from, count);
}

// So many elements from a pointer's value on: the pointer moves once, and the opening is put back once.
pub fn take_stretch(
    store: &[u32],
    tables: &mut [u32],
    entry: usize,
    opening: Opening,
    pointer: u32,
    segment: Segment,
    list: &mut [u32],
    from: usize,
    count: usize,
)
    requires { (length tables.old ≡ tables_length) × (entry < entries) × (segment.0 * segment_cells + segment_cells ≤ length store.now) × Points opening pointer × (value_of opening pointer + count ≤ value_of opening 1) × (from + count ≤ length list.old) × Follow opening.species (value_of opening pointer) count }
    ensures { Took store.now tables.old entry opening pointer segment list.old from count tables.new list.new }
{
    let value = opening.value(pointer);
    take_all(store, opening.species, segment, value, list, from, count);
    let after = opening.step(pointer, run_spans::on_by(value, count));
    tables_openings::put_opening(tables, entry, after);
}
