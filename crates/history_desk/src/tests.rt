// The lines that are no calls, on the buffer that they name.
ghost use Rattle.std.specs.Prelude.{◌≡◌, ◌+◌, ◌≤◌};
ghost use Rattle.history_buffers.specs.Buffers.{testing};
ghost use Rattle.history_lent.specs.Rooms.{others_length};
ghost use Rattle.history_desk.specs.Desk.{out, other_test, image_test, list_test, on_buffer, test_line};

use history_buffers::{Answered, BUFFERS, STORE, TABLES};
use history_calls::Reply;
use history_lent::sizes::{
    FIRST_IMAGE, FIRST_LIST, IMAGE_BUFFER, LAST_IMAGE, LAST_LIST, LIST_BUFFER, LISTS_START,
    OTHERS_BUFFER,
};
use history_lines::{Buffer, OfBuffer};
use history_words::Numbers;

// Buffer k of all, which lies among the others from a place on.
fn test_other(
    others: &mut [u32],
    lengths: [u32; BUFFERS],
    k: usize,
    from: usize,
    size: usize,
    word: Option<OfBuffer>,
    numbers: Option<Numbers>,
) -> Answered
    requires { from + size ≤ others_length }
    ensures { testing result others.new ≡ other_test word from size k numbers lengths others.old }
{
    if others.len() != OTHERS_BUFFER {
        return Answered {
            reply: Reply::Bad,
            lengths,
        };
    }
    let to = from + size;
    history_buffers::test(&mut others[from..to], lengths, k, word, numbers)
}

fn test_image(
    others: &mut [u32],
    lengths: [u32; BUFFERS],
    k: usize,
    word: Option<OfBuffer>,
    numbers: Option<Numbers>,
) -> Answered
    ensures { testing result others.new ≡ image_test word k numbers lengths others.old }
{
    if LAST_IMAGE < k {
        return Answered {
            reply: Reply::Bad,
            lengths,
        };
    }
    let from = IMAGE_BUFFER * k;
    test_other(
        others,
        lengths,
        FIRST_IMAGE + k,
        from,
        IMAGE_BUFFER,
        word,
        numbers,
    )
}

// Like an image's, and no function for both: it would take the four numbers of its kind of buffer from these two alone.
fn test_list(
    others: &mut [u32],
    lengths: [u32; BUFFERS],
    k: usize,
    word: Option<OfBuffer>,
    numbers: Option<Numbers>,
) -> Answered
    ensures { testing result others.new ≡ list_test word k numbers lengths others.old }
{
    if LAST_LIST < k {
        return Answered {
            reply: Reply::Bad,
            lengths,
        };
    }
    let from = LISTS_START + LIST_BUFFER * k;
    test_other(
        others,
        lengths,
        FIRST_LIST + k,
        from,
        LIST_BUFFER,
        word,
        numbers,
    )
}

#[tactic(auto, using(crate::specs::Speaking::buffer_lines))]
fn test_on(
    store: &mut [u32],
    tables: &mut [u32],
    others: &mut [u32],
    lengths: [u32; BUFFERS],
    word: Option<OfBuffer>,
    buffer: Option<Buffer>,
    numbers: Option<Numbers>,
) -> Answered
    ensures { out result store.new tables.new others.new ≡ on_buffer word buffer numbers lengths store.old tables.old others.old }
{
    match buffer {
        Some(Buffer::Store) => history_buffers::test(store, lengths, STORE, word, numbers),
        Some(Buffer::Tables) => history_buffers::test(tables, lengths, TABLES, word, numbers),
        Some(Buffer::Image(k)) => test_image(others, lengths, k, word, numbers),
        Some(Buffer::List(k)) => test_list(others, lengths, k, word, numbers),
        None => Answered {
            reply: Reply::Bad,
            lengths,
        },
    }
}

// The buffer is named after the space at a place, and the numbers are behind it. A word that is none of those for tests is a bad
// line, as is a buffer that is not there.
pub fn test_line(
    store: &mut [u32],
    tables: &mut [u32],
    others: &mut [u32],
    lengths: [u32; BUFFERS],
    word: Option<OfBuffer>,
    line: &[u8],
    at: usize,
) -> Answered
    ensures { out result store.new tables.new others.new ≡ test_line word line.now at lengths store.old tables.old others.old }
{
    if line.len() <= at {
        return Answered {
            reply: Reply::Bad,
            lengths,
        };
    }
    let from = at + 1;
    let to = history_words::word_end(line, from);
    let buffer = history_lines::buffers::buffer_named(&line[from..to]);
    let numbers = history_words::numbers_at(line, to);
    test_on(store, tables, others, lengths, word, buffer, numbers)
}
