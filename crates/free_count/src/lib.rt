// Free segments: how many there are. A list of segment numbers is a row of cells of the tables.
#![tactic(auto)]

ghost use Rattle.std.specs.Prelude.{◌≡◌, not, ◌&&◌, cond, ℕ, ◌<◌, ◌≤◌, eqb, get_or, length};
ghost use Rattle.combine.specs.Below.{count_below};
ghost use Rattle.combine.specs.Lists.{is_in};
ghost use Rattle.placing.specs.Sizes.{most_segments, lists};
ghost use Rattle.placing.specs.Placing.{held_of};
ghost use Rattle.segments.specs.Free.{is_free, free_count};
ghost use Rattle.tables.specs.Lists.{held_in};
ghost use Rattle.tables.specs.Laws.Sound.{Ranged};
ghost use Rattle.cells.specs.Says.{house_of};
ghost use Rattle.tables.specs.Laws.ExtentFacts.{SoundExtent};
ghost use Rattle.free_count.specs.Rows.{start_of};

use placing::{
    LISTS, OPENING_LENGTH, OPENINGS_START, PLACES, Position, RECORD_LENGTH, RECORDS_START,
};
use tables::layout;

// A mark for each segment.
pub use sound_lists::marks::MARKS;

// Where the lists of the first record and of the first opening start.
const RECORD_LIST: usize = RECORDS_START + layout::RECORD_SEGMENTS;

const OPENING_LIST: usize = OPENINGS_START + layout::OPENING_SEGMENTS;

// Where the row of list i starts: the lists of the records, then those of the openings.
pub fn row_start(i: usize) -> usize
    requires { i < lists }
    ensures { result ≡ start_of i }
{
    if i < PLACES {
        return RECORD_LIST + RECORD_LENGTH * i;
    }
    OPENING_LIST + OPENING_LENGTH * (i - PLACES)
}

// How many segments a record or an opening holds; its first cell is 0 where there is none.
pub fn held_by(used: u32, species: u32, begin: u32, end: u32) -> usize
    requires { (used ≡ 0 → ⊥) → SoundExtent species begin end }
    ensures { result ≡ cond (eqb used 0) 0 (held_of species begin end) }
{
    if used == 0 {
        return 0;
    }
    placing::held(species, Position::of(begin), Position::of(end)) as usize
}

// How many segments list i holds.
pub fn held_in(tables: &[u32], i: usize) -> usize
    requires { Ranged tables.now × (i < lists) }
    ensures { result ≡ held_in tables.now i }
{
    if i < PLACES {
        let record = RECORDS_START + RECORD_LENGTH * i;
        return held_by(
            tables[record],
            tables[record + layout::RECORD_SPECIES],
            tables[record + layout::RECORD_BEGIN],
            tables[record + layout::RECORD_END],
        );
    }
    let opening = OPENINGS_START + OPENING_LENGTH * (i - PLACES);
    held_by(
        tables[opening],
        tables[opening + layout::OPENING_SPECIES],
        tables[opening + layout::OPENING_BEGIN],
        tables[opening + layout::OPENING_END],
    )
}

// Marks the numbers of a row.
// Not that of `sound_lists`, which marks bytes: `mark_lists` and `unmarked` are lent u32, and callers may rely on it.
fn mark_row(row: &[u32], marks: &mut [u32; MARKS])
    requires { (length marks.old ≡ most_segments) × ((k : ℕ) → k < length row.now → get_or row.now k 0 < most_segments) }
    ensures size { length marks.new ≡ most_segments }
    ensures by_index { (g : ℕ) → eqb (get_or marks.new g 0) 0 ≡ (eqb (get_or marks.old g 0) 0 && not (is_in g row.now)) }
{
    for number in row {
        marks[*number as usize] = 1;
    }
}

// How many of the first numbers are not marked.
pub fn unmarked(marks: &[u32; MARKS], segments: u32) -> u32
    requires { segments ≤ most_segments }
    ensures { result ≡ count_below segments (λ g. eqb (get_or marks.now g 0) 0) }
{
    let mut count: u32 = 0;
    for mark in &marks[..segments as usize] {
        count += (*mark == 0) as u32;
    }
    count
}

// Marks the numbers that the lists hold.
pub fn mark_lists(tables: &[u32], marks: &mut [u32; MARKS])
    requires { Ranged tables.now × (length marks.old ≡ most_segments) }
    ensures size { length marks.new ≡ most_segments }
    ensures by_index { (g : ℕ) → eqb (get_or marks.new g 0) 0 ≡ (eqb (get_or marks.old g 0) 0 && is_free (house_of tables.now) g) }
{
    for list in 0..LISTS {
        let start = row_start(list);
        let count = held_in(tables, list);
        mark_row(&tables[start..start + count], marks);
    }
}

// "the number of free segments"
pub fn free_count(tables: &[u32]) -> u32
    requires { Ranged tables.now }
    ensures { result ≡ free_count (house_of tables.now) }
{
    let mut marks = [0u32; MARKS];
    mark_lists(tables, &mut marks);
    unmarked(&marks, tables[0])
}
