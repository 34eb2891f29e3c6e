// Whether the records of lent tables are sound.
#![tactic(auto)]

ghost use Rattle.std.specs.Prelude.{◌≡◌, length};
ghost use Rattle.combine.specs.Below.{all_below};
ghost use Rattle.placing.specs.Sizes.{places, tables_length, record_length};
ghost use Rattle.tables.specs.Layout.{record_of, record_at};
ghost use Rattle.tables.specs.Records.{usedb, recordb, recordsb};

use placing::{GREATEST_USER, PLACES, RECORD_LENGTH, RECORDS_START};
use tables::layout;

fn used_sound(cells: &[u32], segments: u32) -> bool
    requires { length cells.now ≡ record_length }
    ensures { result ≡ usedb segments (record_of cells.now) }
{
    if cells[layout::RECORD_USED] != 1 {
        return false;
    }
    if !names::name_sound(&cells[layout::RECORD_NAME..layout::RECORD_OWNER]) {
        return false;
    }
    if cells[layout::RECORD_OWNER] > GREATEST_USER {
        return false;
    }
    if cells[layout::RECORD_PRIVATE] > 1 {
        return false;
    }
    sound_extents::content_sound(
        cells[layout::RECORD_SPECIES],
        cells[layout::RECORD_BEGIN],
        cells[layout::RECORD_END],
        &cells[layout::RECORD_SEGMENTS..RECORD_LENGTH],
        segments,
    )
}

// Whether the 50 cells of a record are sound in tables of so many segments.
pub fn record_sound(cells: &[u32], segments: u32) -> bool
    requires { length cells.now ≡ record_length }
    ensures { result ≡ recordb segments (record_of cells.now) }
{
    if cells[layout::RECORD_USED] == 0 {
        return combine::all_zero(cells);
    }
    used_sound(cells, segments)
}

fn each_sound(tables: &[u32], segments: u32) -> bool
    requires { length tables.now ≡ tables_length }
    ensures { result ≡ all_below places (λ p. recordb segments (record_at tables.now p)) }
{
    for p in 0..PLACES {
        let from = RECORDS_START + RECORD_LENGTH * p;
        if !record_sound(&tables[from..from + RECORD_LENGTH], segments) {
            return false;
        }
    }
    true
}

// Whether all records are sound, and no two names clash.
pub fn records_sound(tables: &[u32], segments: u32) -> bool
    requires { length tables.now ≡ tables_length }
    ensures { result ≡ recordsb tables.now segments }
{
    if !each_sound(tables, segments) {
        return false;
    }
    sound_names::names_sound(tables)
}
