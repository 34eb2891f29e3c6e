// Openings and records by value, as the calls make them: a new opening, one of a record, a closed entry, an unused record,
// and the record that an opening becomes.
#![tactic(auto)]

ghost use Rattle.std.specs.Prelude.{◌≡◌, not, ◌<◌};
ghost use Rattle.placing.specs.Sizes.{places};
ghost use Rattle.rules.specs.Rules.{work_start};
ghost use Rattle.tables.specs.Layout.{unused_record, closed_opening};
ghost use Rattle.tables.specs.Handles.{bit};
ghost use Rattle.cells.specs.Laws.Catalogue.{new_opening, old_opening, filed_record};

use placing::{ALL_POINTERS, LIST_LENGTH, NAME_SYMBOLS, Position, Segment};
use tables::{Opening, Record};

// "New makes an empty scratch file with work permit."; "It starts with b = e = 1."
pub fn new_opening(species: u32) -> Opening
    ensures { result ≡ new_opening species }
{
    let one = Position::of(1);
    let none = Position::of(0);
    let no_segment = Segment::of(0);
    Opening {
        opened: 1,
        place: 0,
        permit: 1,
        species,
        pointers: [one, one, one, none, none, none, none, none],
        name: [63; NAME_SYMBOLS],
        segments: [no_segment; LIST_LENGTH],
    }
}

fn permit(work: bool) -> u32
    ensures { result ≡ bit work }
{
    u32::from(work)
}

// "From now on a work opening of an old file puts pointer 2 at the end value; new and read openings stay as in 01."
fn work_start(work: bool, begin: Position, end: Position) -> Position
    ensures { result ≡ work_start work begin end }
{
    if work {
        return end;
    }
    begin
}

// The record at a place, opened.
pub fn old_opening(filed: Record, place: u32, work: bool) -> Opening
    requires { place < places }
    ensures { result ≡ old_opening work place filed }
{
    let none = Position::of(0);
    let begin = filed.begin;
    let end = filed.end;
    let start = work_start(work, begin, end);
    let name = filed.name;
    let segments = filed.segments;
    Opening {
        opened: 1,
        place: place + 1,
        permit: permit(work),
        species: filed.species,
        pointers: [begin, end, start, none, none, none, none, none],
        name,
        segments,
    }
}

// A closed entry is all zero.
pub fn closed_opening() -> Opening
    ensures { result ≡ closed_opening }
{
    let none = Position::of(0);
    let no_segment = Segment::of(0);
    Opening {
        opened: 0,
        place: 0,
        permit: 0,
        species: 0,
        pointers: [none; ALL_POINTERS],
        name: [0; NAME_SYMBOLS],
        segments: [no_segment; LIST_LENGTH],
    }
}

// "an unused record is all zero"
pub fn unused_record() -> Record
    ensures { result ≡ unused_record }
{
    let none = Position::of(0);
    let no_segment = Segment::of(0);
    Record {
        used: 0,
        name: [0; NAME_SYMBOLS],
        owner: 0,
        private: 0,
        species: 0,
        begin: none,
        end: none,
        segments: [no_segment; LIST_LENGTH],
    }
}

fn privacy(public: bool) -> u32
    ensures { result ≡ bit (not public) }
{
    u32::from(!public)
}

// "name, privacy, species, begin, end and segments become the record"
pub fn filed_record(opening: Opening, user: u32, public: bool) -> Record
    ensures { result ≡ filed_record public user opening }
{
    let pointers = opening.pointers;
    let name = opening.name;
    let segments = opening.segments;
    Record {
        used: 1,
        name,
        owner: user,
        private: privacy(public),
        species: opening.species,
        begin: pointers[0],
        end: pointers[1],
        segments,
    }
}
