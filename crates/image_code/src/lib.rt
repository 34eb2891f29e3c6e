// The catalogue image of the tables, and the tables of a catalogue image, in either form.
#![tactic(auto)]

ghost use Rattle.std.specs.Prelude.{◌≡◌, true, ◌++◌, ◌+◌, ◌-◌, ◌*◌, ◌/◌, ◌^◌, ◌≤◌, ◌<◌, eqb, length, get_or, take, drop, replicate};
ghost use Rattle.combine.specs.Below.{all_below};
ghost use Rattle.combine.specs.Lists.{joined, tab};
ghost use Rattle.packing.specs.Packing.{sum, unpacked, row_of};
ghost use Rattle.packing_rows.specs.Waiting.{Narrow};
ghost use Rattle.placing.specs.Sizes.{tables_length, places, most_segments, record_length, openings_start};
ghost use Rattle.tables.specs.Laws.Sound.{Ranged};
ghost use Rattle.image.specs.Image.{image_length, head_widths, row_widths, packed_record, head_image, record_image, image_of, record_from, tables_from};
ghost use Rattle.image.specs.Forms.{form_of};
ghost use Rattle.image.specs.Reformed.{reachesb};
ghost use Rattle.image_code.specs.Fits.{Fits, Writable};
ghost use Rattle.image_code.specs.Widths.{fewest_cells};

use image::{Form, OLD_RECORD_CELLS};
use placing::{PLACES, RECORD_LENGTH, RECORDS_START};

pub mod spares; // the zero bits at the records' ends
mod widths; // the widths of the image's fields

// Where the record after the first starts in the tables.
const SECOND_RECORD: usize = RECORDS_START + RECORD_LENGTH;

// The image's first cell: the form, the number of segments, zero bits.
fn put_head(form: Form, segments: u32, out: &mut [u32])
    requires { (length out.old ≡ 1) × (segments ≤ most_segments) }
    ensures { out.new ≡ head_image (form_of form) segments }
{
    let values = [form.number(), segments, 0];
    packing_rows::pack(out, &widths::HEAD, &values);
}

// Form, number of segments and zero bits of the image's first cell.
pub fn take_head(cells: &[u32]) -> [u32; 3]
    requires { length cells.now ≡ 1 }
    ensures { result ≡ unpacked head_widths (row_of cells.now) }
{
    let mut values = [0u32; 3];
    packing_rows::unpack(cells, &widths::HEAD, &mut values);
    values
}

// A record's 50 cells of the tables, and zeros behind them where the form has some, into its cells of the image.
fn pack_record(form: Form, values: &[u32], widths: &[u32], out: &mut [u32])
    requires { (length values.now ≡ record_length) × (length out.old ≡ (form_of form).cells) × Fits (form_of form) values.now × (widths.now ≡ row_widths (form_of form)) }
    ensures { out.new ≡ packed_record (form_of form) values.now }
{
    let mut row = [0u32; widths::MOST];
    row[..RECORD_LENGTH].copy_from_slice(values);
    packing_rows::pack(out, widths, &row[0..widths::count(form)]);
}

// The same for a record that may be unused, where its cells of the image are zero: "an unused record is all zero", and so
// they stay.
fn put_record(form: Form, values: &[u32], widths: &[u32], out: &mut [u32])
    requires { (length values.now ≡ record_length) × (out.old ≡ replicate (form_of form).cells 0) × Writable (form_of form) values.now × (widths.now ≡ row_widths (form_of form)) }
    ensures { out.new ≡ packed_record (form_of form) values.now }
{
    if values[0] == 0 {
        return;
    }
    pack_record(form, values, widths, out);
}

// Whether a record's cells of the image are all zero: where it is used the first one is not, and no other is looked at.
// The last one is looked at by itself, so that the others are a row of one length in both forms.
fn is_blank(cells: &[u32]) -> bool
    requires { (fewest_cells ≤ length cells.now) × (length cells.now ≤ fewest_cells + 1) }
    ensures { result ≡ all_below (length cells.now) (λ k. eqb (get_or cells.now k 0) 0) }
{
    if cells[0] != 0 {
        return false;
    }
    if cells[cells.len() - 1] != 0 {
        return false;
    }
    combine::all_zero(&cells[..OLD_RECORD_CELLS])
}

// The cells of the record that its cells of the image say, by the widths of its fields, where all was zero: so they stay
// for cells that are.
fn take_record(cells: &[u32], fields: &[u32], out: &mut [u32])
    requires fewest_cells_in_bounds { (fewest_cells ≤ length cells.now) × (length cells.now ≤ fewest_cells + 1) }
    requires narrow { Narrow fields.now × (out.old ≡ replicate (length fields.now) 0) }
    requires fields_bound { (sum fields.now ≤ 32 * length cells.now) × (32 * length cells.now < sum fields.now + 32) }
    ensures { out.new ≡ unpacked fields.now (row_of cells.now / 2 ^ (32 * length cells.now - sum fields.now)) }
{
    if is_blank(cells) {
        return;
    }
    packing_rows::unpack(cells, fields, out);
}

// "Saving writes the records only, whatever is open.": into an image that is zero behind its first cell.
fn put_records(form: Form, tables: &[u32], image: &mut [u32])
    requires ranged { Ranged tables.now × (reachesb (form_of form) tables.now ≡ true) × (length image.old ≡ image_length (form_of form)) }
    requires image_value { drop 1 image.old ≡ replicate (places * (form_of form).cells) 0 }
    ensures { image.new ≡ take 1 image.old ++ joined (tab places (record_image (form_of form) tables.now)) }
{
    let all = widths::row(form);
    let widths = &all[..widths::count(form)];
    let cells = form.record_cells();
    // By place, and not by `chunks_exact_mut`: once that is through, a proof knows nothing of the cells.
    for p in 0..PLACES {
        let at = 1 + cells * p;
        put_record(
            form,
            &tables[RECORDS_START + RECORD_LENGTH * p..SECOND_RECORD + RECORD_LENGTH * p],
            widths,
            &mut image[at..at + cells],
        );
    }
}

// The records of the image into tables that are zero behind their first cell.
fn take_records(form: Form, image: &[u32], tables: &mut [u32])
    requires { (length image.now ≡ image_length (form_of form)) × (length tables.old ≡ tables_length) × (drop 1 tables.old ≡ replicate (tables_length - 1) 0) }
    ensures { tables.new ≡ take 1 tables.old ++ (joined (tab places (record_from (form_of form) image.now)) ++ drop openings_start tables.old) }
{
    let all = widths::row(form);
    let fields = &all[..RECORD_LENGTH];
    let cells = form.record_cells();
    for p in 0..PLACES {
        let at = 1 + cells * p;
        take_record(
            &image[at..at + cells],
            fields,
            &mut tables[RECORDS_START + RECORD_LENGTH * p..SECOND_RECORD + RECORD_LENGTH * p],
        );
    }
}

// The image of sound tables, in a form that has room for every begin and end.
pub fn put_image(form: Form, tables: &[u32], image: &mut [u32])
    requires { Ranged tables.now × (reachesb (form_of form) tables.now ≡ true) × (length image.old ≡ image_length (form_of form)) }
    ensures { image.new ≡ image_of (form_of form) tables.now }
{
    image.fill(0);
    put_head(form, tables[0], &mut image[0..1]);
    put_records(form, tables, image);
}

// The tables of the image, with nothing open, where all was zero.
pub fn take_image(form: Form, image: &[u32], tables: &mut [u32])
    requires { (length image.now ≡ image_length (form_of form)) × (tables.old ≡ replicate tables_length 0) }
    ensures { tables.new ≡ tables_from (form_of form) image.now }
{
    let head = take_head(&image[0..1]);
    tables[0] = head[1];
    take_records(form, image, tables);
}
