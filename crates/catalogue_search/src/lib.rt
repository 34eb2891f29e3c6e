// Searches through the catalogue in lent tables.
#![tactic(auto)]

ghost use Rattle.std.specs.Prelude.{◌≡◌, not, ◌<◌, eqb, ltb, length};
ghost use Rattle.combine.specs.First.{first_below};
ghost use Rattle.placing.specs.Sizes.{entries, places, tables_length, record_length, opening_length};
ghost use Rattle.rules.specs.Rules.{look_up};
ghost use Rattle.tables.specs.Layout.{record_of, record_at, opening_of, opening_at};
ghost use Rattle.tables.specs.Fields.{is_used};
ghost use Rattle.catalogue_laws.specs.Places.{headings, used_with, another};
ghost use Rattle.catalogue_laws.specs.Entries.{keeps_off};
ghost use Rattle.catalogue_search.specs.Sought.{concerned, sought};

use placing::{
    ENTRIES, NAME_SYMBOLS, OPENING_LENGTH, OPENINGS_START, PLACES, RECORD_LENGTH, RECORDS_START,
};
use tables::layout;

// Of whose files a search is: the user's own, or the public ones.
#[derive(Clone, Copy)]
pub enum Wanted {
    Own(u32),
    Public,
}

fn concerns(wanted: Wanted, owner: u32, private: u32) -> bool
    ensures { result ≡ concerned wanted owner (eqb private 1) }
{
    match wanted {
        Wanted::Own(user) => owner == user,
        Wanted::Public => private != 1,
    }
}

// Whether a record is used, has the name and is wanted.
fn fits(row: &[u32], wanted: Wanted, name: &[u32; NAME_SYMBOLS]) -> bool
    requires { length row.now ≡ record_length }
    ensures { result ≡ used_with (sought wanted name.now) (record_of row.now) }
{
    if row[layout::RECORD_USED] != 1 {
        return false;
    }
    if !concerns(
        wanted,
        row[layout::RECORD_OWNER],
        row[layout::RECORD_PRIVATE],
    ) {
        return false;
    }
    combine::same_cells(&row[layout::RECORD_NAME..layout::RECORD_OWNER], name)
}

// The same of the record at a place, but for the one that the number of an opening names.
fn fits_at(
    tables: &[u32],
    wanted: Wanted,
    name: &[u32; NAME_SYMBOLS],
    but: usize,
    place: usize,
) -> bool
    requires { (length tables.now ≡ tables_length) × (place < places) }
    ensures { result ≡ another (sought wanted name.now) tables.now but place }
{
    if place + 1 == but {
        return false;
    }
    let from = RECORDS_START + RECORD_LENGTH * place;
    fits(&tables[from..from + RECORD_LENGTH], wanted, name)
}

// The lowest place with such a record; 64, where there is none, and no Option: so the rules say it (`look_up`,
// `place_for`), and the clauses here name them.
pub fn find(tables: &[u32], wanted: Wanted, name: &[u32; NAME_SYMBOLS], but: usize) -> usize
    requires { length tables.now ≡ tables_length }
    ensures { result ≡ first_below places (another (sought wanted name.now) tables.now but) }
{
    for place in 0..PLACES {
        if fits_at(tables, wanted, name, but, place) {
            return place;
        }
    }
    PLACES
}

// "Look-up takes the user's own record of that name first, then a public one"; 64, where there is neither, as the
// rules' `look_up` says.
pub fn look_up(tables: &[u32], user: u32, name: &[u32; NAME_SYMBOLS]) -> usize
    requires { length tables.now ≡ tables_length }
    ensures { result ≡ look_up user name.now (headings tables.now) }
{
    let own = find(tables, Wanted::Own(user), name, 0);
    if own < PLACES {
        return own;
    }
    find(tables, Wanted::Public, name, 0)
}

// "the lowest free place"; 64, where none is free, as the rules' `place_for` says.
pub fn unused(tables: &[u32]) -> usize
    requires { length tables.now ≡ tables_length }
    ensures { result ≡ first_below places (λ q. not (is_used (record_at tables.now q))) }
{
    for lowest in 0..PLACES {
        if tables[RECORDS_START + RECORD_LENGTH * lowest] != 1 {
            return lowest;
        }
    }
    PLACES
}

// Whether an opening keeps others from the record at a place.
fn keeps_off(row: &[u32], place: u32, work: bool) -> bool
    requires { (length row.now ≡ opening_length) × (place < places) }
    ensures { result ≡ keeps_off work place (opening_of row.now) }
{
    if row[layout::OPENING_OPENED] != 1 {
        return false;
    }
    if place + 1 != row[layout::OPENING_PLACE] {
        return false;
    }
    if work {
        return true;
    }
    row[layout::OPENING_PERMIT] == 1
}

// "Then 14: for work, if any opening of that record exists; for read, if a work opening of it exists."
pub fn busy(tables: &[u32], place: u32, work: bool) -> bool
    requires { (length tables.now ≡ tables_length) × (place < places) }
    ensures { result ≡ ltb (first_below entries (λ i. keeps_off work place (opening_at tables.now i))) entries }
{
    for entry in 0..ENTRIES {
        let from = OPENINGS_START + OPENING_LENGTH * entry;
        if keeps_off(&tables[from..from + OPENING_LENGTH], place, work) {
            return true;
        }
    }
    false
}
