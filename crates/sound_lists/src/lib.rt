// Whether the segments in all lists are distinct: each list marks its own segments, without a test, and they are distinct exactly
// if as many marks stand as were set.
#![tactic(auto)]

ghost use Rattle.std.specs.Prelude.{◌≡◌, true, ◌+◌, ◌*◌, ◌<◌};
ghost use Rattle.placing.specs.Sizes.{places, entries, most_held, lists};
ghost use Rattle.tables.specs.Lists.{distinctb};
ghost use Rattle.tables.specs.Laws.Sound.{Ranged};
ghost use Rattle.sound_lists.specs.Marks.{Marked};
ghost use Rattle.sound_lists.specs.Rows.{cell_from, RowIn};
ghost use Rattle.sound_lists.specs.Shared.{changed};
ghost use Rattle.sound_lists.specs.Passed.{Passes};

use crate::marks::MARKS;
use crate::rows::Row;
use placing::{
    ENTRIES, OPENING_LENGTH, OPENINGS_START, PLACES, RECORD_LENGTH, RECORDS_START, Segment,
};
use tables::layout;

pub mod marks; // a mark for each segment
mod rows; // where the segments of a record or of an opening stand

// Marks the segments of a row; how many marks were set.
fn mark_whole(tables: &[u32], row: Row, marks: &mut [u8; MARKS]) -> u32
    requires { RowIn tables.now row.start row.held row.first }
    ensures { Marked (λ k. true) (cell_from tables.now row.start) marks.old row.held marks.new result }
{
    let start = row.start;
    let held = row.held;
    marks::mark_row(&tables[start..start + held], marks);
    held as u32
}

// Marks the segments of an opening's row that its record's row does not have at the same stretch; how many marks were set.
fn mark_changed(tables: &[u32], row: Row, filed: Row, marks: &mut [u8; MARKS]) -> u32
    requires { RowIn tables.now row.start row.held row.first × RowIn tables.now filed.start filed.held filed.first }
    ensures { Marked
        (changed (cell_from tables.now row.start) row.first (cell_from tables.now filed.start) filed.held filed.first)
        (cell_from tables.now row.start) marks.old row.held marks.new result }
{
    let start = row.start;
    let mut set = 0;
    for k in 0..row.held {
        let segment = Segment::of(tables[start + k]);
        let shared = rows::has_at(tables, filed, row.first + k as u32, segment);
        set += marks::mark_unshared(segment, shared, marks);
    }
    set
}

// Marks the segments of the record at a place; how many marks were set.
fn mark_record(tables: &[u32], place: usize, marks: &mut [u8; MARKS]) -> u32
    requires { Ranged tables.now × (place < places) }
    ensures { Passes tables.now place (place + 1) marks.old marks.new result most_held }
{
    if tables[RECORDS_START + RECORD_LENGTH * place] == 0 {
        return 0;
    }
    let row = rows::record_row(tables, place);
    mark_whole(tables, row, marks)
}

// Marks the opening's own segments; how many marks were set.
fn mark_opening(tables: &[u32], entry: usize, marks: &mut [u8; MARKS]) -> u32
    requires { Ranged tables.now × (entry < entries) }
    ensures { Passes tables.now (places + entry) (places + entry + 1) marks.old marks.new result most_held }
{
    let base = OPENINGS_START + OPENING_LENGTH * entry;
    // A closed entry has no permit and holds nothing; a read opening "has that record's .. segments", and so none of its own.
    if tables[base + layout::OPENING_PERMIT] == 0 {
        return 0;
    }
    let row = rows::opening_row(tables, entry);
    let place = tables[base + layout::OPENING_PLACE];
    if place == 0 {
        return mark_whole(tables, row, marks);
    }
    let filed = rows::record_row(tables, place as usize - 1);
    mark_changed(tables, row, filed, marks)
}

// Marks the segments of all records; how many marks were set.
fn mark_records(tables: &[u32], marks: &mut [u8; MARKS]) -> u32
    requires { Ranged tables.now }
    ensures { Passes tables.now 0 places marks.old marks.new result (places * most_held) }
{
    let mut set = 0;
    for place in 0..PLACES {
        set += mark_record(tables, place, marks);
    }
    set
}

// Marks the own segments of all openings; how many marks were set.
fn mark_openings(tables: &[u32], marks: &mut [u8; MARKS]) -> u32
    requires { Ranged tables.now }
    ensures { Passes tables.now places lists marks.old marks.new result (entries * most_held) }
{
    let mut set = 0;
    for entry in 0..ENTRIES {
        set += mark_opening(tables, entry, marks);
    }
    set
}

// "segments in all lists are distinct, but for a record and its openings at one stretch": a mark that was set twice stands once.
pub fn distinct(tables: &[u32]) -> bool
    requires { Ranged tables.now }
    ensures { result ≡ distinctb tables.now lists }
{
    let mut marks = [0u8; MARKS];
    let filed = mark_records(tables, &mut marks);
    let opened = mark_openings(tables, &mut marks);
    marks::standing(&marks) == filed + opened
}
