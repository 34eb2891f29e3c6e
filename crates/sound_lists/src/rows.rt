// Where the segments of a record or of an opening stand in the tables, and which stretches they are of.
ghost use Rattle.std.specs.Prelude.{◌≡◌, ◌≢◌, ◌+◌, ◌<◌, get_or};
ghost use Rattle.placing.specs.Sizes.{places, entries};
ghost use Rattle.placing.specs.Placing.{held_of, stretch_of};
ghost use Rattle.tables.specs.Layout.{record_base, opening_base};
ghost use Rattle.tables.specs.Laws.ExtentFacts.{SoundExtent};
ghost use Rattle.tables.specs.Laws.Sound.{Ranged};
ghost use Rattle.sound_lists.specs.Rows.{cell_from, RowIn, RowOf};
ghost use Rattle.sound_lists.specs.Shared.{has_at};

use placing::{OPENING_LENGTH, OPENINGS_START, Position, RECORD_LENGTH, RECORDS_START, Segment};
use tables::layout;

// So many cells of the tables from `start` on; `first` is the stretch of the first segment, and the others follow.
#[derive(Clone, Copy)]
pub struct Row {
    pub start: usize,
    pub held: usize,
    pub first: u32,
}

// The row of a file whose segment numbers start there.
fn row_at(start: usize, species: u32, begin: Position, end: Position) -> Row
    requires { SoundExtent species begin.0 end.0 }
    ensures { (result.start ≡ start) × (result.held ≡ held_of species begin.0 end.0) × (result.first ≡ stretch_of species begin.0) }
{
    Row {
        start: start,
        held: placing::held(species, begin, end) as usize,
        first: begin.stretch(species),
    }
}

// The row of a record in use.
pub fn record_row(tables: &[u32], place: usize) -> Row
    requires { Ranged tables.now × (place < places) × (get_or tables.now (record_base place) 0 ≢ 0) }
    ensures { RowOf tables.now place result.start result.held result.first }
{
    let base = RECORDS_START + RECORD_LENGTH * place;
    row_at(
        base + layout::RECORD_SEGMENTS,
        tables[base + layout::RECORD_SPECIES],
        Position::of(tables[base + layout::RECORD_BEGIN]),
        Position::of(tables[base + layout::RECORD_END]),
    )
}

// The row of an opening.
pub fn opening_row(tables: &[u32], entry: usize) -> Row
    requires { Ranged tables.now × (entry < entries) × (get_or tables.now (opening_base entry) 0 ≢ 0) }
    ensures { RowOf tables.now (places + entry) result.start result.held result.first }
{
    let base = OPENINGS_START + OPENING_LENGTH * entry;
    row_at(
        base + layout::OPENING_SEGMENTS,
        tables[base + layout::OPENING_SPECIES],
        Position::of(tables[base + layout::OPENING_BEGIN]),
        Position::of(tables[base + layout::OPENING_END]),
    )
}

// Whether the row has the segment at the stretch.
pub fn has_at(tables: &[u32], row: Row, stretch: u32, segment: Segment) -> bool
    requires { RowIn tables.now row.start row.held row.first }
    ensures { result ≡ has_at (cell_from tables.now row.start) row.held row.first stretch segment.0 }
{
    let start = row.start;
    if stretch < row.first {
        return false;
    }
    let place = (stretch - row.first) as usize;
    if row.held <= place {
        return false;
    }
    tables[start + place] == segment.number()
}
