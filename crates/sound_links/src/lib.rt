// Whether an opening and its record go together: an opening and a record are rows of the tables' cells.
#![tactic(auto)]

ghost use Rattle.std.specs.Prelude.{◌≡◌, ◌<◌, length};
ghost use Rattle.combine.specs.Below.{all_below};
ghost use Rattle.placing.specs.Sizes.{entries, tables_length, record_length, opening_length};
ghost use Rattle.tables.specs.Layout.{record_of, opening_of};
ghost use Rattle.tables.specs.Openings.{workb};
ghost use Rattle.sound_links.specs.Linked.{elsewhereb, linkedb};

use placing::{ENTRIES, OPENING_LENGTH, OPENINGS_START, RECORD_LENGTH, RECORDS_START};
use sound_reading::ROW_ENTRIES;
use tables::layout;

// What an opening has for the record at the last place: its place and 1.
const LAST_PLACE: u32 = placing::PLACES as u32;

// The cell of the first opening's place.
const FIRST_PLACE: usize = OPENINGS_START + layout::OPENING_PLACE;

// Whether an entry is the opening's own, or has not its record.
fn elsewhere(tables: &[u32], other: usize, entry: usize, place: u32) -> bool
    requires { (length tables.now ≡ tables_length) × (other < entries) }
    ensures { result ≡ elsewhereb tables.now entry place other }
{
    if other == entry {
        return true;
    }
    tables[FIRST_PLACE + OPENING_LENGTH * other] != place
}

// "and has no other opening"
fn alone(tables: &[u32], entry: usize, place: u32) -> bool
    requires { length tables.now ≡ tables_length }
    ensures { result ≡ all_below entries (elsewhereb tables.now entry place) }
{
    for other in 0..ENTRIES {
        if !elsewhere(tables, other, entry, place) {
            return false;
        }
    }
    true
}

// "a work opening's record is its user's own, of the same species, and has no other opening"
fn work_sound(tables: &[u32], entry: usize, row: &[u32], filed: &[u32]) -> bool
    requires { (length tables.now ≡ tables_length) × (length row.now ≡ opening_length) × (length filed.now ≡ record_length) }
    ensures { result ≡ workb tables.now entry (opening_of row.now) (record_of filed.now) }
{
    if filed[layout::RECORD_OWNER] as usize != entry / ROW_ENTRIES {
        return false;
    }
    if filed[layout::RECORD_SPECIES] != row[layout::OPENING_SPECIES] {
        return false;
    }
    alone(tables, entry, row[layout::OPENING_PLACE])
}

// "each opening names one existing record, or none and then has the work permit"
pub fn link_sound(tables: &[u32], entry: usize, row: &[u32]) -> bool
    requires { (length tables.now ≡ tables_length) × (length row.now ≡ opening_length) }
    ensures { result ≡ linkedb tables.now entry (opening_of row.now) }
{
    let place = row[layout::OPENING_PLACE];
    let permit = row[layout::OPENING_PERMIT];
    if place == 0 {
        return permit == 1;
    }
    if place > LAST_PLACE {
        return false;
    }
    let at = RECORDS_START + RECORD_LENGTH * (place as usize - 1);
    let filed = &tables[at..at + RECORD_LENGTH];
    if filed[layout::RECORD_USED] != 1 {
        return false;
    }
    if permit == 0 {
        return sound_reading::read_sound(row, filed, entry);
    }
    work_sound(tables, entry, row, filed)
}
