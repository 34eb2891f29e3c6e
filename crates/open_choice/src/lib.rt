// Which record an opening by name is of, or why it is refused: "15, 11/12/13, 14 (old)", of which document 02's P4 took
// the 12.
#![tactic(auto)]

ghost use Rattle.std.specs.Prelude.{◌≡◌, true, not, ◌&&◌, ◌<◌, eqb, length};
ghost use Rattle.std.proofs.Math.Option.{some};
ghost use Rattle.placing.specs.Sizes.{places, tables_length};
ghost use Rattle.rules.specs.Rules.{open_record, open_old};
ghost use Rattle.tables.specs.Layout.{record_at};
ghost use Rattle.tables.specs.Fields.{is_used};
ghost use Rattle.tables.specs.Handles.{heading_of};
ghost use Rattle.catalogue_laws.specs.Places.{headings};
ghost use Rattle.catalogue_laws.specs.Entries.{others_in};
ghost use Rattle.open_choice.specs.Chosen.{chosen, There};

use answers::Refusal;
use placing::{NAME_SYMBOLS, PLACES, RECORD_LENGTH, RECORDS_START};
use tables::layout;

// The cell of the first record's owner.
const FIRST_OWNER: usize = RECORDS_START + layout::RECORD_OWNER;

// "Work on another's public file: 13."
fn works_on_anothers(tables: &[u32], user: u32, place: usize, work: bool) -> bool
    requires { (length tables.now ≡ tables_length) × (place < places) }
    ensures { result ≡ (work && not (eqb (record_at tables.now place).owner user)) }
{
    if !work {
        return false;
    }
    tables[FIRST_OWNER + RECORD_LENGTH * place] != user
}

// The place of the record that look-up found.
fn found(tables: &[u32], user: u32, place: usize, work: bool) -> Result<usize, Refusal>
    requires { (length tables.now ≡ tables_length) × (place < places) × (is_used (record_at tables.now place) ≡ true) }
    ensures verdict { chosen work tables.now result ≡ open_record work user place (some (heading_of (record_at tables.now place))) (others_in tables.now) }
    ensures there { There tables.now result }
{
    if works_on_anothers(tables, user, place, work) {
        return Err(Refusal::NoWork);
    }
    if catalogue_search::busy(tables, place as u32, work) {
        return Err(Refusal::NotNow);
    }
    Ok(place)
}

// What look-up does not find is unknown: "A file that is another's and private must look absent: 11 in place of 12, for
// read and for work".
pub fn choose(
    tables: &[u32],
    user: u32,
    name: [u32; NAME_SYMBOLS],
    work: bool,
) -> Result<usize, Refusal>
    requires { length tables.now ≡ tables_length }
    ensures verdict { chosen work tables.now result ≡ open_old work user name (headings tables.now) (others_in tables.now) }
    ensures there { There tables.now result }
{
    if names::is_scratch(name) {
        return Err(Refusal::Empty);
    }
    let place = catalogue_search::look_up(tables, user, &name);
    if place < PLACES {
        return found(tables, user, place, work);
    }
    Err(Refusal::Unknown)
}
