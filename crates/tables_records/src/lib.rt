// A record from its cells, and back. This crate and tables_openings are alike in form only: over a trait of both kinds
// of row the public functions, whose clauses name records or openings, would stand as they do, and the trait's ghost
// laws beside them.
#![tactic(auto)]

ghost use Rattle.std.specs.Prelude.{◌≡◌, ◌<◌, length};
ghost use Rattle.placing.specs.Sizes.{places, tables_length, record_length};
ghost use Rattle.tables.specs.Layout.{record_of, record_cells, record_at, put_record};

use placing::{Position, RECORD_LENGTH, RECORDS_START};
use tables::{Record, layout};

// The record of 50 cells.
fn record_from(row: &[u32]) -> Record
    requires { length row.now ≡ record_length }
    ensures { result ≡ record_of row.now }
{
    let name = tables_rows::name_from(&row[layout::RECORD_NAME..layout::RECORD_OWNER]);
    let begin = Position::of(row[layout::RECORD_BEGIN]);
    let end = Position::of(row[layout::RECORD_END]);
    let segments = tables_rows::segments_from(&row[layout::RECORD_SEGMENTS..RECORD_LENGTH]);
    Record {
        used: row[layout::RECORD_USED],
        name,
        owner: row[layout::RECORD_OWNER],
        private: row[layout::RECORD_PRIVATE],
        species: row[layout::RECORD_SPECIES],
        begin,
        end,
        segments,
    }
}

// The record at a place of the catalogue.
pub fn load_record(tables: &[u32], place: usize) -> Record
    requires { (length tables.now ≡ tables_length) × (place < places) }
    ensures { result ≡ record_at tables.now place }
{
    let from = RECORDS_START + RECORD_LENGTH * place;
    let beyond = from + RECORD_LENGTH;
    record_from(&tables[from..beyond])
}

// The 50 cells become the record's.
fn put_record_row(row: &mut [u32], filed: Record)
    requires { length row.old ≡ record_length }
    ensures { row.new ≡ record_cells filed }
{
    let name = filed.name;
    let segments = filed.segments;
    row[layout::RECORD_USED] = filed.used;
    tables_rows::put_name(&mut row[layout::RECORD_NAME..layout::RECORD_OWNER], name);
    row[layout::RECORD_OWNER..layout::RECORD_SEGMENTS].copy_from_slice(&[
        filed.owner,
        filed.private,
        filed.species,
        filed.begin.number(),
        filed.end.number(),
    ]);
    tables_rows::put_segments(&mut row[layout::RECORD_SEGMENTS..RECORD_LENGTH], segments);
}

// The record becomes that at a place of the catalogue.
pub fn put_record(tables: &mut [u32], place: usize, filed: Record)
    requires { (length tables.old ≡ tables_length) × (place < places) }
    ensures { tables.new ≡ put_record tables.old place filed }
{
    let at = RECORDS_START + RECORD_LENGTH * place;
    let beyond = at + RECORD_LENGTH;
    put_record_row(&mut tables[at..beyond], filed);
}
