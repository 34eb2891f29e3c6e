// Whether a read opening is as its record: an opening and a record are rows of the tables' cells.
#![tactic(auto)]

ghost use Rattle.std.specs.Prelude.{◌≡◌, ◌||◌, eqb, length};
ghost use Rattle.placing.specs.Sizes.{user_of, record_length, opening_length};
ghost use Rattle.tables.specs.Layout.{record_of, opening_of};
ghost use Rattle.tables.specs.Openings.{readb};

use placing::{OPENING_LENGTH, RECORD_LENGTH};
use tables::layout;

// How many entries a user has.
pub const ROW_ENTRIES: usize = placing::ROW_ENTRIES as usize;

// "a read opening's record is public or its user's own"
fn may_read(filed: &[u32], entry: usize) -> bool
    requires { length filed.now ≡ record_length }
    ensures { result ≡ (eqb (record_of filed.now).private 0 || eqb (record_of filed.now).owner (user_of entry)) }
{
    if filed[layout::RECORD_PRIVATE] == 0 {
        return true;
    }
    filed[layout::RECORD_OWNER] as usize == entry / ROW_ENTRIES
}

// ", and the opening has that record's name, species, begin, end and segments"
pub fn read_sound(row: &[u32], filed: &[u32], entry: usize) -> bool
    requires { (length row.now ≡ opening_length) × (length filed.now ≡ record_length) }
    ensures { result ≡ readb entry (opening_of row.now) (record_of filed.now) }
{
    if row[layout::OPENING_SPECIES] != filed[layout::RECORD_SPECIES] {
        return false;
    }
    if row[layout::OPENING_BEGIN] != filed[layout::RECORD_BEGIN] {
        return false;
    }
    if row[layout::OPENING_END] != filed[layout::RECORD_END] {
        return false;
    }
    if !may_read(filed, entry) {
        return false;
    }
    if row[layout::OPENING_NAME..layout::OPENING_SEGMENTS]
        != filed[layout::RECORD_NAME..layout::RECORD_OWNER]
    {
        return false;
    }
    row[layout::OPENING_SEGMENTS..OPENING_LENGTH] == filed[layout::RECORD_SEGMENTS..RECORD_LENGTH]
}
