// Which segments go where: the numbers of those that are to move, rising, paired with the numbers of those that can
// take them, rising.
#![tactic(auto)]

ghost use Rattle.std.specs.Prelude.{true, ◌≡◌, ◌*◌, ◌<◌, ◌≤◌, length};
ghost use Rattle.std.proofs.Math.Seq.{paste};
ghost use Rattle.combine.specs.Below.{count_below, picked};
ghost use Rattle.combine.specs.Lists.{paired};
ghost use Rattle.placing.specs.Sizes.{most_segments};
ghost use Rattle.moves_pairs.specs.Kinds.{is_kind, to_move, can_take};

use free_count::MARKS;

// What a segment is to moves: it is to move, it can take one that is; any other kind stays as it is.
pub const TO_MOVE: u32 = 1;

pub const CAN_TAKE: u32 = 2;

// A kind for each segment.
pub const KINDS: usize = MARKS;

// The lowest number of the kind that is not below `start`; there is one.
fn next_of(kinds: &[u32; KINDS], kind: u32, start: usize, segments: usize) -> usize
    requires { (segments ≤ most_segments) × (count_below start (is_kind kinds.now kind) < count_below segments (is_kind kinds.now kind)) }
    ensures { (result < segments) × (is_kind kinds.now kind result ≡ true) × (count_below result (is_kind kinds.now kind) ≡ count_below start (is_kind kinds.now kind)) }
{
    for number in start..segments {
        if kinds[number] == kind {
            return number;
        }
    }
    // There is one, so that this is never reached.
    segments
}

// One hand goes over the numbers that are to move, one over those that can take them; the room after the pairs stays as
// it was.
pub fn pairs(kinds: &[u32; KINDS], segments: usize, count: usize, room: &mut [u32])
    requires { (segments ≤ most_segments) × (count ≡ count_below segments (is_kind kinds.now to_move)) × (count ≤ count_below segments (is_kind kinds.now can_take)) × (2 * count ≤ length room.old) }
    ensures { room.new ≡ paste room.old 0 (paired (picked segments (is_kind kinds.now to_move)) (picked segments (is_kind kinds.now can_take))) (2 * count) }
{
    let mut from: usize = 0;
    let mut to: usize = 0;
    for pair in 0..count {
        let source = next_of(kinds, TO_MOVE, from, segments);
        let target = next_of(kinds, CAN_TAKE, to, segments);
        room[2 * pair] = source as u32;
        room[2 * pair + 1] = target as u32;
        from = source + 1;
        to = target + 1;
    }
}
