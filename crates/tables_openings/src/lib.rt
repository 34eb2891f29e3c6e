// An opening from its cells, and back: on tables_records, which has the same form, see there.
#![tactic(auto)]

ghost use Rattle.std.specs.Prelude.{◌≡◌, ◌<◌, length};
ghost use Rattle.placing.specs.Sizes.{entries, tables_length, opening_length};
ghost use Rattle.tables.specs.Layout.{opening_of, opening_cells, opening_at, put_opening};

use placing::{OPENING_LENGTH, OPENINGS_START};
use tables::{Opening, layout};

// The opening of 56 cells.
fn opening_from(row: &[u32]) -> Opening
    requires { length row.now ≡ opening_length }
    ensures { result ≡ opening_of row.now }
{
    let pointers = tables_rows::pointers_from(&row[layout::OPENING_POINTERS..layout::OPENING_NAME]);
    let name = tables_rows::name_from(&row[layout::OPENING_NAME..layout::OPENING_SEGMENTS]);
    let segments = tables_rows::segments_from(&row[layout::OPENING_SEGMENTS..OPENING_LENGTH]);
    Opening {
        opened: row[layout::OPENING_OPENED],
        place: row[layout::OPENING_PLACE],
        permit: row[layout::OPENING_PERMIT],
        species: row[layout::OPENING_SPECIES],
        pointers,
        name,
        segments,
    }
}

// The opening at an entry.
pub fn load_opening(tables: &[u32], entry: usize) -> Opening
    requires { (length tables.now ≡ tables_length) × (entry < entries) }
    ensures { result ≡ opening_at tables.now entry }
{
    let from = OPENINGS_START + OPENING_LENGTH * entry;
    let beyond = from + OPENING_LENGTH;
    opening_from(&tables[from..beyond])
}

// The 56 cells become the opening's.
fn put_opening_row(row: &mut [u32], opening: Opening)
    requires { length row.old ≡ opening_length }
    ensures { row.new ≡ opening_cells opening }
{
    let pointers = opening.pointers;
    let name = opening.name;
    let segments = opening.segments;
    row[..layout::OPENING_POINTERS].copy_from_slice(&[
        opening.opened,
        opening.place,
        opening.permit,
        opening.species,
    ]);
    tables_rows::put_pointers(
        &mut row[layout::OPENING_POINTERS..layout::OPENING_NAME],
        pointers,
    );
    tables_rows::put_name(
        &mut row[layout::OPENING_NAME..layout::OPENING_SEGMENTS],
        name,
    );
    tables_rows::put_segments(&mut row[layout::OPENING_SEGMENTS..OPENING_LENGTH], segments);
}

// The opening becomes that at an entry.
pub fn put_opening(tables: &mut [u32], entry: usize, opening: Opening)
    requires { (length tables.old ≡ tables_length) × (entry < entries) }
    ensures { tables.new ≡ put_opening tables.old entry opening }
{
    let at = OPENINGS_START + OPENING_LENGTH * entry;
    let beyond = at + OPENING_LENGTH;
    put_opening_row(&mut tables[at..beyond], opening);
}
