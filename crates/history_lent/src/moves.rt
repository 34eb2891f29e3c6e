// An image moved from one form to the other: two image buffers are lent, and neither store nor tables.
ghost use Rattle.std.specs.Prelude.{◌≡◌};
ghost use Rattle.call_up_down.specs.Moved.{moved_outcome};
ghost use Rattle.history_lent.specs.Moves.{moved_by, moving, move_call, move_line};

use crate::sizes::{FIRST_IMAGE, IMAGE_BUFFER, LAST_IMAGE, OTHERS_BUFFER};
use answers::Answer;
use history_buffers::BUFFERS;
use history_calls::Reply;
use history_words::Numbers;

// Up, or down: by a flag, and by no function that is handed in, as the contracts say of each flag what a move comes to,
// and of a function would have to ask that it comes to the same.
fn moved(image: &[u32], buffer: &mut [u32], segments: u32, climbs: bool) -> Answer
    ensures { moved_outcome result buffer.new ≡ moved_by climbs image.now buffer.old segments }
{
    if climbs {
        return call_up_down::up(image, buffer, segments);
    }
    call_up_down::down(image, buffer, segments)
}

// Image i into image j: through a row beside the buffers, as two parts of their slice are not lent at once.
fn move_call(
    others: &mut [u32],
    lengths: [u32; BUFFERS],
    i: u32,
    j: u32,
    segments: u32,
    climbs: bool,
) -> Reply
    ensures { moving result others.new ≡ move_call lengths climbs i j segments others.old }
{
    let from = i as usize;
    let into = j as usize;
    if LAST_IMAGE < from {
        return Reply::Bad;
    }
    if LAST_IMAGE < into {
        return Reply::Bad;
    }
    if from == into {
        return Reply::Bad;
    }
    if others.len() != OTHERS_BUFFER {
        return Reply::Bad;
    }
    let n = history_buffers::lent(lengths, FIRST_IMAGE + from, IMAGE_BUFFER);
    let m = history_buffers::lent(lengths, FIRST_IMAGE + into, IMAGE_BUFFER);
    let source = IMAGE_BUFFER * from;
    let base = IMAGE_BUFFER * into;
    let mut image = [0u32; IMAGE_BUFFER];
    image.copy_from_slice(&others[source..source + IMAGE_BUFFER]);
    history_calls::replied(moved(&image[0..n], &mut others[base..base + m], segments, climbs))
}

pub fn move_line(
    others: &mut [u32],
    lengths: [u32; BUFFERS],
    numbers: Option<Numbers>,
    climbs: bool,
) -> Reply
    ensures { moving result others.new ≡ move_line lengths numbers climbs others.old }
{
    let Some(Numbers::Three(i, j, segments)) = numbers else {
        return Reply::Bad;
    };
    move_call(others, lengths, i, j, segments, climbs)
}
