// Arrays from a row of cells of the same length, and back.
#![tactic(auto)]

ghost use Rattle.std.specs.Prelude.{◌≡◌, map, length};
ghost use Rattle.placing.specs.Sizes.{most_held, name_symbols, all_pointers};
ghost use Rattle.placing.specs.Placing.{segment, position};
ghost use Rattle.tables.specs.Layout.{segment_number, position_number};

use placing::{ALL_POINTERS, LIST_LENGTH, NAME_SYMBOLS, Position, Segment};

// A function for this and the next would take a closure, and a clause of what it answers: no plainer than a line
// each.
pub fn segments_from(row: &[u32]) -> [Segment; LIST_LENGTH]
    requires { length row.now ≡ most_held }
    ensures { result ≡ map segment row.now }
{
    std::array::from_fn(|i| Segment::of(row[i]))
}

pub fn pointers_from(row: &[u32]) -> [Position; ALL_POINTERS]
    requires { length row.now ≡ all_pointers }
    ensures { result ≡ map position row.now }
{
    std::array::from_fn(|i| Position::of(row[i]))
}

pub fn name_from(row: &[u32]) -> [u32; NAME_SYMBOLS]
    requires { length row.now ≡ name_symbols }
    ensures { result ≡ row.now }
{
    let mut name = [0u32; NAME_SYMBOLS];
    name.copy_from_slice(row);
    name
}

// By a loop, as a copy of `segments.map(..)` took more than ten times as long. put_pointers is the same of the other
// kind of number: one function over both would ask by clauses, of each caller, what its closure answers.
pub fn put_segments(row: &mut [u32], segments: [Segment; LIST_LENGTH])
    requires { length row.old ≡ most_held }
    ensures { row.new ≡ map segment_number segments }
{
    for (i, segment) in segments.iter().enumerate() {
        row[i] = segment.number();
    }
}

pub fn put_pointers(row: &mut [u32], pointers: [Position; ALL_POINTERS])
    requires { length row.old ≡ all_pointers }
    ensures { row.new ≡ map position_number pointers }
{
    for (i, pointer) in pointers.iter().enumerate() {
        row[i] = pointer.number();
    }
}

pub fn put_name(row: &mut [u32], name: [u32; NAME_SYMBOLS])
    requires { length row.old ≡ name_symbols }
    ensures { row.new ≡ name }
{
    row.copy_from_slice(&name);
}
