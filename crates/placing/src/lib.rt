// "Segment numbers, positions and cell numbers are different kinds of number and are never to be mixed": each is a
// struct with a private field, and one is made of another by the placing rules alone. They are made by `of` and read by
// `number` and `index`, and not by `From`, since an `.into()` does not name its kind and would let the kinds be mixed.
#![tactic(auto)]

ghost use Rattle.std.specs.Prelude.{◌≡◌, ◌≤◌, ◌<◌, ◌*◌};
ghost use Rattle.placing.specs.Sizes.{segment_cells, most_held, greatest_end, greatest_species, width_of, elements_of, least_elements};
ghost use Rattle.placing.specs.Placing.{
  segment,
  position,
  stretch_of,
  offset_of,
  cell_of,
  bit_of,
  held_of,
  claim_of,
  slot_of,
};

pub mod order; // positions compared, and moved by one
pub mod stretch; // a position within its stretch
pub mod whole; // species 5, where an element is a cell

// "Users 0 to 7. Each user has entries 0 to 3", a row of them: 32 in all.
pub const GREATEST_USER: u32 = 7;

pub const GREATEST_ENTRY: u32 = 3;

pub const ROW_ENTRIES: u32 = GREATEST_ENTRY + 1;

pub const ENTRIES: usize = ((GREATEST_USER + 1) * ROW_ENTRIES) as usize;

// "Catalogue: 64 places."
pub const PLACES: usize = 64;

// "a segment is 4 blocks, 64 cells", and a store has one at least, and "at most 1,024"
pub const SEGMENT_CELLS: usize = 64;

pub const LEAST_STORE: usize = SEGMENT_CELLS;

pub const MOST_SEGMENTS: u32 = 1024;

// "Names have at most 12 symbols."
pub const NAME_SYMBOLS: usize = 12;

// "3 to 7 are own pointers": 8 in all
pub const FIRST_OWN_POINTER: u32 = 3;

pub const GREATEST_POINTER: u32 = 7;

pub const ALL_POINTERS: usize = GREATEST_POINTER as usize + 1;

// The places of a list of a file's segments; the lists of all records and openings.
pub const LIST_LENGTH: usize = MOST_HELD as usize;

pub const LISTS: usize = PLACES + ENTRIES;

// The rows of a record and of an opening in the tables; where the first of each starts; "docs/ fixes its one length".
pub const RECORD_LENGTH: usize = 1 + NAME_SYMBOLS + 5 + LIST_LENGTH;

pub const OPENING_LENGTH: usize = 4 + ALL_POINTERS + NAME_SYMBOLS + LIST_LENGTH;

pub const RECORDS_START: usize = 1;

pub const OPENINGS_START: usize = RECORDS_START + PLACES * RECORD_LENGTH;

pub const TABLES_LENGTH: usize = OPENINGS_START + ENTRIES * OPENING_LENGTH;

// "Species 0 to 5 have elements of 1, 2, 4, 8, 16 and 32 bits"; species 6, signed, of 16 (document 02, P5)
pub const GREATEST_SPECIES: u32 = 6;

pub const SIGNED_SPECIES: u32 = 6;

pub const WIDTHS: [u32; 7] = [1, 2, 4, 8, 16, 32, 16];

// "so E = 2048, 1024, 512, 256, 128 and 64 elements in a segment"; of species 6, "E = 128". They stand beside the
// widths as the document has them: made of the widths, they would be seven quotients written out, or a division more
// for each element.
pub const ELEMENTS: [u32; 7] = [2048, 1024, 512, 256, 128, 64, 128];

// "Raise the begin and end limit to 4,294,967,295" (document 02, P6)
pub const GREATEST_END: u32 = 4294967295;

// "A file holds at most 32 segments."
pub const MOST_HELD: u32 = 32;

// The number of a segment of the store.
#[derive(Clone, Copy, PartialEq, Eq)]
pub struct Segment(u32);

// A position of a file; in a pointer's place, 0 is no pointer.
#[derive(Clone, Copy, PartialEq, Eq, PartialOrd, Ord)]
pub struct Position(u32);

// The number of a cell of the store.
#[derive(Clone, Copy)]
pub struct Cell(usize);

pub fn width(species: u32) -> u32
    requires { species ≤ greatest_species }
    ensures { result ≡ width_of species }
{
    WIDTHS[species as usize]
}

pub fn elements(species: u32) -> u32
    requires { species ≤ greatest_species }
    ensures { (result ≡ elements_of species) × (least_elements ≤ result) }
{
    ELEMENTS[species as usize]
}

impl Segment {
    // A segment by its number, as a list has it.
    pub fn of(number: u32) -> Segment
        ensures { result ≡ segment number }
    {
        Segment(number)
    }

    pub fn number(self) -> u32
        ensures { result ≡ self.0 }
    {
        self.0
    }

    // The segment's first cell.
    pub fn start(self) -> Cell
        ensures { result.0 ≡ self.0 * segment_cells }
    {
        Cell((self.0 as usize) * SEGMENT_CELLS)
    }

    // "it is in cell floor(o·w/32) of that stretch's segment"
    pub fn cell(self, position: Position, species: u32) -> Cell
        requires { (1 ≤ position.0) × (species ≤ greatest_species) }
        ensures { result ≡ cell_of species self position }
    {
        let before = position.bits_before(species);
        Cell((self.0 as usize) * SEGMENT_CELLS + (before / 32) as usize)
    }
}

impl Position {
    // A position by its number, as a pointer has it.
    pub fn of(number: u32) -> Position
        ensures { result ≡ position number }
    {
        Position(number)
    }

    pub fn number(self) -> u32
        ensures { result ≡ self.0 }
    {
        self.0
    }

    // "Position x lies in the file's stretch floor((x-1)/E)"
    pub fn stretch(self, species: u32) -> u32
        requires { (1 ≤ self.0) × (species ≤ greatest_species) }
        ensures { result ≡ stretch_of species self.0 }
    {
        (self.0 - 1) / elements(species)
    }

    // o·w: "at offset o = (x-1) mod E. With width w"
    fn bits_before(self, species: u32) -> u32
        requires { (1 ≤ self.0) × (species ≤ greatest_species) }
        ensures { (result ≡ offset_of species self.0 * width_of species) × (result < 2048) }
    {
        ((self.0 - 1) % elements(species)) * width(species)
    }

    // "its top bit (o·w mod 32) bits below the cell's top bit"
    pub fn bit(self, species: u32) -> u32
        requires { (1 ≤ self.0) × (species ≤ greatest_species) }
        ensures { result ≡ bit_of species self }
    {
        self.bits_before(species) % 32
    }

    // The place of the position's stretch in the list of the segments of a file that begins at `begin`.
    pub fn slot(self, begin: Position, species: u32) -> u32
        requires { (1 ≤ begin.0) × (begin.0 ≤ self.0) × (species ≤ greatest_species) }
        ensures { result ≡ slot_of species begin.0 self.0 }
    {
        let first = begin.stretch(species);
        self.stretch(species) - first
    }
}

impl Cell {
    // The cell's place in the lent store.
    pub fn index(self) -> usize
        ensures { result ≡ self.0 }
    {
        self.0
    }
}

// "A file holds one segment for each stretch with at least one of its positions, and no other; an empty file holds
// none."
pub fn held(species: u32, begin: Position, end: Position) -> u32
    requires { (species ≤ greatest_species) × (1 ≤ begin.0) × (begin.0 ≤ end.0) × (end.0 ≤ greatest_end) }
    ensures { result ≡ held_of species begin.0 end.0 }
{
    let first = begin.0;
    let beyond = end.0;
    if first == beyond {
        return 0;
    }
    let last = Position(beyond - 1);
    last.slot(begin, species) + 1
}

// "The claim is the number of positions from b to the end of the last held stretch, 0 for an empty file.": those of the
// held stretches but for the first one's before b, as the end of the last may lie beyond every position.
pub fn claim(species: u32, begin: Position, end: Position) -> u32
    requires species_le_greatest_species { (species ≤ greatest_species) × (1 ≤ begin.0) × (begin.0 ≤ end.0) × (end.0 ≤ greatest_end) }
    requires end_bound { held_of species begin.0 end.0 ≤ most_held }
    ensures { result ≡ claim_of species begin.0 end.0 }
{
    let first = begin.0;
    let stretches = held(species, begin, end);
    if stretches == 0 {
        return 0;
    }
    let size = elements(species);
    stretches * size - (first - 1) % size
}
