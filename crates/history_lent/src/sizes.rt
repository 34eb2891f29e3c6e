// The sizes of the buffers, and what is lent of them at first: "store (65,600 cells), tables (at least 64 cells longer
// than the tables' one length), image0 to image3 (1,024 cells each)"; "Two list buffers, list0 and list1, 2,112 cells
// each". Images and lists lie in one slice.
use history_buffers::BUFFERS;
use image::IMAGE_LENGTH;
use placing::{MOST_SEGMENTS, SEGMENT_CELLS, TABLES_LENGTH};

// A store of all segments, and some cells more, so that a history can lend too many.
const WHOLE_STORE: usize = MOST_SEGMENTS as usize * SEGMENT_CELLS;

pub const STORE_BUFFER: usize = WHOLE_STORE + 64;

// So for the tables.
pub const TABLES_BUFFER: usize = TABLES_LENGTH + 64;

// An image's buffer; the lists' come after all four.
pub const IMAGE_BUFFER: usize = 1024;

pub const LISTS_START: usize = 4 * IMAGE_BUFFER;

pub const LIST_BUFFER: usize = 2112;

const LISTS_LENGTH: usize = 2 * LIST_BUFFER;

pub const OTHERS_BUFFER: usize = LISTS_START + LISTS_LENGTH;

// The number of the first image's buffer, and of the first list's.
pub const FIRST_IMAGE: usize = 2;

pub const FIRST_LIST: usize = 6;

pub const LAST_IMAGE: usize = 3;

pub const LAST_LIST: usize = 1;

// Of store, tables and each image, what a call takes; of a list, "40 cells of each are lent at first".
const IMAGE_LENT: u32 = IMAGE_LENGTH as u32;

const LIST_LENT: u32 = 40;

pub const LENT: [u32; BUFFERS] = [
    WHOLE_STORE as u32,
    TABLES_LENGTH as u32,
    IMAGE_LENT,
    IMAGE_LENT,
    IMAGE_LENT,
    IMAGE_LENT,
    LIST_LENT,
    LIST_LENT,
];
