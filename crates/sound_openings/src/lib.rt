// Whether the openings in lent cells are sound: an opening is a row of the tables' cells.
#![tactic(auto)]

ghost use Rattle.std.specs.Prelude.{◌≡◌, ◌<◌, length};
ghost use Rattle.placing.specs.Sizes.{entries, tables_length, name_symbols, opening_length};
ghost use Rattle.tables.specs.Layout.{opening_of};
ghost use Rattle.tables.specs.Openings.{pointersb, openb, openingb, openingsb};
ghost use Rattle.names.specs.Names.{opening_nameb};

use placing::{ENTRIES, OPENING_LENGTH, OPENINGS_START};
use tables::layout;

// "an opening's name is as a record's or all 63"
fn title_sound(name: &[u32]) -> bool
    requires { length name.now ≡ name_symbols }
    ensures { result ≡ opening_nameb name.now }
{
    if names::name_sound(name) {
        return true;
    }
    combine::all_equal(name, 63)
}

// "the values of pointers 2 to 7, where they exist, are 1 to the greatest end value": the work pointer always exists, and no cell is above that
// value
fn pointers_sound(row: &[u32]) -> bool
    requires { length row.now ≡ opening_length }
    ensures { result ≡ pointersb (opening_of row.now) }
{
    row[layout::OPENING_WORK] >= 1
}

// An open entry: its own fields, and then its record.
fn open_sound(tables: &[u32], entry: usize, row: &[u32]) -> bool
    requires { (length tables.now ≡ tables_length) × (length row.now ≡ opening_length) }
    ensures { result ≡ openb tables.now entry (opening_of row.now) }
{
    if row[layout::OPENING_OPENED] != 1 {
        return false;
    }
    if row[layout::OPENING_PERMIT] > 1 {
        return false;
    }
    if !pointers_sound(row) {
        return false;
    }
    if !title_sound(&row[layout::OPENING_NAME..layout::OPENING_SEGMENTS]) {
        return false;
    }
    // "its species, begin, end and number of held segments are as for records", and so is the list of these
    if !sound_extents::content_sound(
        row[layout::OPENING_SPECIES],
        row[layout::OPENING_BEGIN],
        row[layout::OPENING_END],
        &row[layout::OPENING_SEGMENTS..OPENING_LENGTH],
        tables[0],
    ) {
        return false;
    }
    sound_links::link_sound(tables, entry, row)
}

// One entry of 32; a closed one is all zero.
pub fn opening_sound(tables: &[u32], entry: usize) -> bool
    requires { (length tables.now ≡ tables_length) × (entry < entries) }
    ensures { result ≡ openingb tables.now entry }
{
    let at = OPENINGS_START + OPENING_LENGTH * entry;
    let row = &tables[at..at + OPENING_LENGTH];
    if row[layout::OPENING_OPENED] == 0 {
        return combine::all_zero(row);
    }
    open_sound(tables, entry, row)
}

// Every entry.
pub fn openings_sound(tables: &[u32]) -> bool
    requires { length tables.now ≡ tables_length }
    ensures { result ≡ openingsb tables.now }
{
    for entry in 0..ENTRIES {
        if !opening_sound(tables, entry) {
            return false;
        }
    }
    true
}
