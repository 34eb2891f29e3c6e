// What C and Rust call: store, tables (and image) as lent slices, then the numbers or the name's bytes; the answer is one number. Nothing is
// asked of a caller's numbers, lengths or cells.
#![tactic(auto, unfolding(crate::specs::Handed::handed))]

pub mod packed; // an answer as one number
pub mod version; // the door's version
pub mod lengths; // the one length of the tables, and of an image
pub mod naming; // what a byte string names
pub mod operator; // fresh start, save, load, free segments, tidying
pub mod forms; // images moved from one form to the other
pub mod catalogue; // open, rename, close, abandon
pub mod elements; // pointers, write, next, prev
pub mod signed; // the same three of species 6, with signed numbers
pub mod runs; // runs of elements
pub mod inquiry; // what is asked about an open file
