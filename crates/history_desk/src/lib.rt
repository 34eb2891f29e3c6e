// Every line of a history, over the buffers that it names: store, tables, and the others, which lie in one slice.
#![tactic(auto)]

ghost use Rattle.std.specs.Prelude.{◌≡◌, ◌≤◌, length, Some};
ghost use Rattle.history_calls.specs.Told.{told};
ghost use Rattle.cells.specs.Outcomes.{lent};
ghost use Rattle.history_buffers.specs.Buffers.{answering};
ghost use Rattle.history_desk.specs.Desk.{lent_call, out, call_by, call_line, spoken_out, line_out};

use history_buffers::{Answered, BUFFERS, STORE, TABLES};
use history_calls::Reply;
use history_lines::OfLent;

pub mod tests; // the lines for tests

// What a line begins with that is passed over.
const COMMENT: u8 = b'#';

// A call on what is lent of store and tables.
fn call(store: &mut [u32], tables: &mut [u32], lengths: [u32; BUFFERS], line: &[u8]) -> Reply
    ensures { told result (lent store.new tables.new) ≡ lent_call lengths line.now store.old tables.old }
{
    let s = history_buffers::lent(lengths, STORE, store.len());
    let t = history_buffers::lent(lengths, TABLES, tables.len());
    history_calls::perform(&mut store[0..s], &mut tables[0..t], line)
}

// A call that is lent one buffer more, or images alone: the word ends at a place, and its numbers are behind it.
#[tactic(auto, using(crate::specs::Speaking::lent_lines))]
fn lent_line(
    store: &mut [u32],
    tables: &mut [u32],
    others: &mut [u32],
    lengths: [u32; BUFFERS],
    word: OfLent,
    line: &[u8],
    at: usize,
) -> Reply
    ensures { out (answering result lengths) store.new tables.new others.new ≡ call_by (Some word) lengths line.now at store.old tables.old others.old }
{
    let numbers = history_words::numbers_at(line, at);
    let found = history_buffers::wanted::one_number(numbers);
    match word {
        OfLent::Save => history_lent::image_line(store, tables, others, lengths, found, true),
        OfLent::Load => history_lent::image_line(store, tables, others, lengths, found, false),
        OfLent::Writes => {
            history_lent::lists::run_line(store, tables, others, lengths, numbers, true)
        }
        OfLent::Nexts => {
            history_lent::lists::run_line(store, tables, others, lengths, numbers, false)
        }
        OfLent::Up => history_lent::moves::move_line(others, lengths, numbers, true),
        OfLent::Down => history_lent::moves::move_line(others, lengths, numbers, false),
    }
}

// A line that asks for a call.
fn call_line(
    store: &mut [u32],
    tables: &mut [u32],
    others: &mut [u32],
    lengths: [u32; BUFFERS],
    line: &[u8],
    at: usize,
) -> Reply
    requires { at ≤ length line.now }
    ensures { out (answering result lengths) store.new tables.new others.new ≡ call_line lengths line.now at store.old tables.old others.old }
{
    let Some(word) = history_lines::buffers::of_lent_word(&line[0..at]) else {
        return call(store, tables, lengths, line);
    };
    lent_line(store, tables, others, lengths, word, line, at)
}

// A line that is not passed over.
fn spoken(
    store: &mut [u32],
    tables: &mut [u32],
    others: &mut [u32],
    lengths: [u32; BUFFERS],
    line: &[u8],
) -> Answered
    ensures { out result store.new tables.new others.new ≡ spoken_out line.now lengths store.old tables.old others.old }
{
    let at = history_words::word_end(line, 0);
    match history_lines::buffers::of_buffer_word(&line[0..at]) {
        Some(word) => tests::test_line(store, tables, others, lengths, Some(word), line, at),
        None => Answered {
            reply: call_line(store, tables, others, lengths, line, at),
            lengths,
        },
    }
}

// "An empty line and one that begins with # are passed over and answered by nothing."
pub fn answer(
    store: &mut [u32],
    tables: &mut [u32],
    others: &mut [u32],
    lengths: [u32; BUFFERS],
    line: &[u8],
) -> Answered
    ensures { out result store.new tables.new others.new ≡ line_out line.now lengths store.old tables.old others.old }
{
    if line.is_empty() {
        return Answered {
            reply: Reply::Nothing,
            lengths,
        };
    }
    if line[0] == COMMENT {
        return Answered {
            reply: Reply::Nothing,
            lengths,
        };
    }
    spoken(store, tables, others, lengths, line)
}
