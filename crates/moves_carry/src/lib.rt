// Moves carried out: the cells of each from go to its to, and the records list them there.
#![tactic(auto)]

ghost use Rattle.std.specs.Prelude.{true, map, ◌≡◌, ℕ, ◌+◌, ◌*◌, ◌<◌, ◌≤◌, get_or, length};
ghost use Rattle.placing.specs.Sizes.{most_segments, places, segment_cells, tables_length};
ghost use Rattle.tables.specs.Layout.{record_at, segments_in};
ghost use Rattle.tables.specs.Records.{recordb};
ghost use Rattle.tables.specs.Laws.Sound.{Ranged};
ghost use Rattle.moves_carry.specs.Numbers.{mapped};
ghost use Rattle.segments.specs.Moves.{exchange, moved_cells};
ghost use Rattle.cells.specs.Moved.{moved_tables, renumbered_at, renumbered_first};

use free_count::MARKS;
use placing::{PLACES, RECORD_LENGTH, RECORDS_START, Segment};
use tables::layout;

fn copy_pairs(store: &mut [u32], plan: &[u32])
    requires { (k : ℕ) → k < length plan.now → get_or plan.now k 0 * segment_cells + segment_cells ≤ length store.old }
    ensures { store.new ≡ moved_cells store.old plan.now }
{
    for pair in plan.chunks_exact(2) {
        let from = Segment::of(pair[0]);
        let to = Segment::of(pair[1]);
        store::copy_segment(store, from, to);
    }
}

// The new number of each segment: at first each is itself.
fn identity(numbers: &mut [u32; MARKS])
    requires { length numbers.old ≡ most_segments }
    ensures size { length numbers.new ≡ most_segments }
    ensures by_index { (g : ℕ) → g < most_segments → get_or numbers.new g 0 ≡ g }
{
    for (number, cell) in numbers.iter_mut().enumerate() {
        *cell = number as u32;
    }
}

// Then those of each pair change places: from the last pair to the first, as that counts which is named first.
fn exchange_pairs(plan: &[u32], numbers: &mut [u32; MARKS])
    requires { (length numbers.old ≡ most_segments) × ((k : ℕ) → k < length plan.now → get_or plan.now k 0 < most_segments) × ((g : ℕ) → g < most_segments → get_or numbers.old g 0 ≡ g) }
    ensures { (g : ℕ) → g < most_segments → get_or numbers.new g 0 ≡ exchange plan.now g }
{
    for pair in (0..plan.len() / 2).rev() {
        let from = plan[2 * pair];
        let to = plan[2 * pair + 1];
        numbers[to as usize] = from;
        numbers[from as usize] = to;
    }
}

fn renumber_row(row: &mut [u32], numbers: &[u32; MARKS])
    requires { (k : ℕ) → k < length row.old → get_or row.old k 0 < most_segments }
    ensures { row.new ≡ map (mapped numbers.now) row.old }
{
    for cell in row.iter_mut() {
        *cell = numbers[*cell as usize];
    }
}

// Only the places that are held: one that is not used holds none.
fn renumber_at(tables: &mut [u32], place: usize, numbers: &[u32; MARKS])
    requires { (length tables.old ≡ tables_length) × (place < places) × (segments_in tables.old ≤ most_segments) × (recordb (segments_in tables.old) (record_at tables.old place) ≡ true) }
    ensures { tables.new ≡ renumbered_at (mapped numbers.now) place tables.old }
{
    let at = RECORDS_START + RECORD_LENGTH * place;
    let held = free_count::held_by(
        tables[at],
        tables[at + layout::RECORD_SPECIES],
        tables[at + layout::RECORD_BEGIN],
        tables[at + layout::RECORD_END],
    );
    let start = at + layout::RECORD_SEGMENTS;
    let beyond = start + held;
    renumber_row(&mut tables[start..beyond], numbers);
}

fn renumber_records(tables: &mut [u32], numbers: &[u32; MARKS])
    requires { Ranged tables.old }
    ensures { tables.new ≡ renumbered_first (mapped numbers.now) places tables.old }
{
    for place in 0..PLACES {
        renumber_at(tables, place, numbers);
    }
}

// Nothing is to be open: only records are renumbered.
pub fn carry(store: &mut [u32], tables: &mut [u32], plan: &[u32])
    requires { Ranged tables.old × (segment_cells * segments_in tables.old ≤ length store.old) × ((k : ℕ) → k < length plan.now → get_or plan.now k 0 < segments_in tables.old) }
    ensures cells { store.new ≡ moved_cells store.old plan.now }
    ensures tables_after { tables.new ≡ moved_tables plan.now tables.old }
{
    copy_pairs(store, plan);
    let mut numbers = [0u32; MARKS];
    identity(&mut numbers);
    exchange_pairs(plan, &mut numbers);
    renumber_records(tables, &numbers);
}
