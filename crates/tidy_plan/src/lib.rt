// What a tidying is to move: "Listed segments numbered H or above, in rising order, go to the free ones below H, in
// rising order".
#![tactic(auto)]

ghost use Rattle.std.specs.Prelude.{◌≡◌, ℕ, ◌*◌, ◌<◌, ◌≤◌, get_or, length, take};
ghost use Rattle.combine.specs.Below.{count_below};
ghost use Rattle.placing.specs.Sizes.{most_segments};
ghost use Rattle.segments.specs.Moves.{is_high, tidy_moves};
ghost use Rattle.tables.specs.Laws.Sound.{Ranged};
ghost use Rattle.cells.specs.Says.{house_of};
ghost use Rattle.tidy_plan.specs.Kinds.{kind_of};

use free_count::MARKS;
use moves_pairs::{CAN_TAKE, TO_MOVE};

// A pair of numbers for each segment at the most.
pub const ROOM: usize = 2 * MARKS;

fn kind(mark: u32, number: usize, low: usize) -> u32
    ensures { result ≡ kind_of mark number low }
{
    if mark != 0 {
        if low <= number {
            return TO_MOVE;
        }
        return 0;
    }
    if number < low {
        return CAN_TAKE;
    }
    0
}

// The marks of what is listed become kinds.
fn sort(marks: &mut [u32; MARKS], segments: usize, low: usize)
    requires { (length marks.old ≡ most_segments) × (segments ≤ most_segments) }
    ensures { (g : ℕ) → g < segments → get_or marks.new g 0 ≡ kind_of (get_or marks.old g 0) g low }
{
    for number in 0..segments {
        marks[number] = kind(marks[number], number, low);
    }
}

// The moves, as pairs in the first places of the room, and how many they are.
pub fn plan(tables: &[u32], room: &mut [u32]) -> usize
    requires { Ranged tables.now × (length room.old ≡ 2 * most_segments) }
    ensures size { (length room.new ≡ 2 * most_segments) × (result ≤ most_segments) }
    ensures count { result ≡ count_below (house_of tables.now).segments (is_high (house_of tables.now)) }
    ensures room_after { take (2 * result) room.new ≡ tidy_moves (house_of tables.now) }
{
    let mut marks = [0u32; MARKS];
    free_count::mark_lists(tables, &mut marks);
    let segments = tables[0];
    let low = segments - free_count::unmarked(&marks, segments);
    // As many are to move as are free below H.
    let count = free_count::unmarked(&marks, low) as usize;
    if count == 0 {
        return 0;
    }
    sort(&mut marks, segments as usize, low as usize);
    moves_pairs::pairs(&marks, segments as usize, count, room);
    count
}
