// Whether lent cells are sound tables.
#![tactic(auto)]

ghost use Rattle.std.specs.Prelude.{◌≡◌};
ghost use Rattle.tables.specs.Sound.{numberb, soundb};

use placing::{MOST_SEGMENTS, SEGMENT_CELLS, TABLES_LENGTH};

// "the number of segments is 1 to 1,024 and fits the store": "A number fits a store of at least 64 times as many cells"
fn number_sound(segments: u32, cells: usize) -> bool
    ensures { result ≡ numberb segments cells }
{
    if segments < 1 {
        return false;
    }
    if segments > MOST_SEGMENTS {
        return false;
    }
    SEGMENT_CELLS * (segments as usize) <= cells
}

// Whether any lent cells are sound tables beside a store of so many cells.
pub fn sound(tables: &[u32], cells: usize) -> bool
    ensures { result ≡ soundb cells tables.now }
{
    if tables.len() != TABLES_LENGTH {
        return false;
    }
    let segments = tables[0];
    if !number_sound(segments, cells) {
        return false;
    }
    if !sound_records::records_sound(tables, segments) {
        return false;
    }
    if !sound_openings::openings_sound(tables) {
        return false;
    }
    sound_lists::distinct(tables)
}
