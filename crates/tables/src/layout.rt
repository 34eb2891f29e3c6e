// Where the fields lie in the row of a record, and in that of an opening: docs/TABLES.md.
use placing::{ALL_POINTERS, NAME_SYMBOLS};

// A record has the fields of the image's record in the image's order.
pub const RECORD_USED: usize = 0;

pub const RECORD_NAME: usize = 1;

pub const RECORD_OWNER: usize = RECORD_NAME + NAME_SYMBOLS;

pub const RECORD_PRIVATE: usize = RECORD_OWNER + 1;

pub const RECORD_SPECIES: usize = RECORD_OWNER + 2;

pub const RECORD_BEGIN: usize = RECORD_OWNER + 3;

pub const RECORD_END: usize = RECORD_OWNER + 4;

pub const RECORD_SEGMENTS: usize = RECORD_OWNER + 5;

// "Pointer 0 is the begin, 1 the end, 2 the work pointer"
pub const OPENING_OPENED: usize = 0;

pub const OPENING_PLACE: usize = 1;

pub const OPENING_PERMIT: usize = 2;

pub const OPENING_SPECIES: usize = 3;

pub const OPENING_POINTERS: usize = 4;

pub const OPENING_BEGIN: usize = OPENING_POINTERS;

pub const OPENING_END: usize = OPENING_POINTERS + 1;

pub const OPENING_WORK: usize = OPENING_POINTERS + 2;

pub const OPENING_NAME: usize = OPENING_POINTERS + ALL_POINTERS;

pub const OPENING_SEGMENTS: usize = OPENING_NAME + NAME_SYMBOLS;
