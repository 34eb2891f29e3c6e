// What a close does, or why it is refused: "for close 18, 16, 17".
#![tactic(auto)]

ghost use Rattle.std.specs.Prelude.{◌≡◌, ℕ, ◌≤◌, length};
ghost use Rattle.placing.specs.Sizes.{places, tables_length};
ghost use Rattle.rules.specs.Rules.{without, place_for, close_rule};
ghost use Rattle.tables.specs.Handles.{handle_in, place_of};
ghost use Rattle.catalogue_laws.specs.Places.{headings};
ghost use Rattle.tables.specs.declared.Opening as opening;
ghost use Rattle.close_choice.specs.Planned.{planned, takenb, ending_of, filing_of, InRange};

use answers::Refusal;
use catalogue_search::Wanted;
use placing::{NAME_SYMBOLS, PLACES};
use tables::Opening;

// What is done with an opening: it ends; it ends and the record at a place is freed; it becomes the record at a place,
// public or private.
#[derive(Clone, Copy)]
pub enum Plan {
    Ends,
    Unfiles(usize),
    Files(usize, bool),
}

// Where no record is written: "Read: the opening ends. New scratch: the file vanishes. Old work renamed to scratch: its
// record and all segments are freed."
fn ending(permit: u32, place: u32, public: bool) -> Result<Plan, Refusal>
    requires { place ≤ places }
    ensures verdict { (u : ℕ) (o : opening.Opening) → planned u o result ≡ ending_of permit place public }
    ensures range { InRange result }
{
    if public {
        return Err(Refusal::Public);
    }
    if permit != 1 {
        return Ok(Plan::Ends);
    }
    match place.checked_sub(1) {
        None => Ok(Plan::Ends),
        Some(at) => Ok(Plan::Unfiles(at as usize)),
    }
}

// "another record has the same owner and name, or public is asked and another public record has the name"
fn taken(tables: &[u32], user: u32, name: &[u32; NAME_SYMBOLS], place: u32, public: bool) -> bool
    requires { length tables.now ≡ tables_length }
    ensures { result ≡ takenb (without (headings tables.now) (place_of place)) user name.now public }
{
    let own = catalogue_search::find(tables, Wanted::Own(user), name, place as usize);
    if own < PLACES {
        return true;
    }
    if !public {
        return false;
    }
    catalogue_search::find(tables, Wanted::Public, name, place as usize) < PLACES
}

// The record's place, "a new file in the lowest free place"; 64 where none is free, and no `Option`: the rule's
// `place_for`, which the clause names, and `unused` say it so, and an `Option` would only move the test of it from the
// caller to here.
fn place_for(tables: &[u32], place: u32) -> usize
    requires { length tables.now ≡ tables_length }
    ensures { result ≡ place_for (headings tables.now) (place_of place) }
{
    match place.checked_sub(1) {
        None => catalogue_search::unused(tables),
        Some(at) => at as usize,
    }
}

// Where a record is written: "name, privacy, species, begin, end and segments become the record".
fn filing(
    tables: &[u32],
    user: u32,
    name: &[u32; NAME_SYMBOLS],
    place: u32,
    public: bool,
) -> Result<Plan, Refusal>
    requires { length tables.now ≡ tables_length }
    ensures verdict { (o : opening.Opening) → planned user o result ≡ filing_of tables.now user name.now place public (handle_in o) }
    ensures range { InRange result }
{
    if taken(tables, user, name, place, public) {
        return Err(Refusal::Taken);
    }
    let at = place_for(tables, place);
    if PLACES <= at {
        return Err(Refusal::Place);
    }
    Ok(Plan::Files(at, public))
}

pub fn decide(tables: &[u32], user: u32, opening: Opening, public: bool) -> Result<Plan, Refusal>
    requires { (length tables.now ≡ tables_length) × (opening.place ≤ places) }
    ensures verdict { planned user opening result ≡ close_rule public user (headings tables.now) (handle_in opening) }
    ensures range { InRange result }
{
    let name = opening.name;
    let permit = opening.permit;
    let place = opening.place;
    if names::is_scratch(name) {
        return ending(permit, place, public);
    }
    if permit != 1 {
        return ending(permit, place, public);
    }
    filing(tables, user, &name, place, public)
}
