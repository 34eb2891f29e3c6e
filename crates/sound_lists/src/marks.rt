// A mark for each segment: set without a test, and counted.
ghost use Rattle.std.specs.Prelude.{◌≡◌, true, not, ℕ, ◌+◌, ◌<◌, ◌≤◌, length, get_or};
ghost use Rattle.combine.specs.Below.{count_below};
ghost use Rattle.placing.specs.Sizes.{most_segments};
ghost use Rattle.sound_lists.specs.Marks.{is_marked, part_length, standing, mark_those, Marked};

use placing::{MOST_SEGMENTS, Segment};

pub const MARKS: usize = MOST_SEGMENTS as usize;

// The marks are counted by parts of so many: those of a part can be counted in a byte.
const PART: usize = 128;

const PARTS: usize = MARKS / PART;

// Marks the segments of a row.
pub fn mark_row(row: &[u32], marks: &mut [u8; MARKS])
    requires { (k : ℕ) → k < length row.now → get_or row.now k 0 < most_segments }
    ensures { marks.new ≡ mark_those (λ k. true) (λ k. get_or row.now k 0) marks.old (length row.now) }
{
    for cell in row {
        marks[*cell as usize] = 1;
    }
}

// Marks a segment that is not shared; how many marks were set.
pub fn mark_unshared(segment: Segment, shared: bool, marks: &mut [u8; MARKS]) -> u32
    requires { segment.0 < most_segments }
    ensures { Marked (λ k. not shared) (λ k. segment.0) marks.old 1 marks.new result }
{
    if shared {
        return 0;
    }
    let number = segment.number() as usize;
    marks[number] = 1;
    1
}

// How many marks of the part from `start` on stand. The loop has no early exit and its sum is a byte, so that the compiler makes it
// as wide as it can.
fn standing_from(marks: &[u8; MARKS], start: usize) -> u8
    requires { start + part_length ≤ most_segments }
    ensures { (result ≡ count_below part_length (λ k. is_marked marks.now (start + k))) × (result ≤ part_length) }
{
    let mut count: u8 = 0;
    for place in 0..PART {
        count += (marks[start + place] != 0) as u8;
    }
    count
}

// How many marks stand.
pub fn standing(marks: &[u8; MARKS]) -> u32
    ensures { result ≡ standing marks.now }
{
    let mut count: u32 = 0;
    for part in 0..PARTS {
        count += standing_from(marks, PART * part) as u32;
    }
    count
}
