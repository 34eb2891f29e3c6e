// The call that a line asks for, made on the lent store and tables.
#![tactic(auto)]

ghost use Rattle.std.specs.Prelude.{◌≡◌, ◌≤◌, length};
ghost use Rattle.answers.specs.Said.{said};
ghost use Rattle.cells.specs.Outcomes.{lent};
ghost use Rattle.history_calls.specs.Calls.{two_call, three_call, alone_call, call_of, numbers_call, call_in};
ghost use Rattle.history_calls.specs.Told.{told, told_of, reply_of};

use answers::Answer;
use by_name::named;
use history_lines::{OfThree, OfTwo};
use history_words::Numbers;
use signed::replied_signed;

pub mod by_name; // lines with a name
pub mod signed; // signed numbers, given and taken

// The words that no user and entry follow, or four numbers, or a signed one: they stand in no table.
const FRESH: &[u8] = b"fresh";

const TIDY: &[u8] = b"tidy";

const FREE: &[u8] = b"free";

const WRITE: &[u8] = b"write";

const WRITE_SIGNED: &[u8] = b"write_signed";

// What a line is answered by: a call, a line for tests, a line that is neither.
#[derive(Clone, Copy)]
pub enum Reply {
    Done(u32),
    DoneSigned(i32),
    Refused(u32),
    // what a run left unwritten, or filled, and the refusal's number or 0, as histories print them
    Rest(u32, u32),
    Filled(u32, u32),
    Lent(u32),
    Cell(u32),
    Sum(u32),
    Bad,
    Nothing,
}

// "A call is answered by done N .., or by refused N, N being the number of document 01's table."
pub fn replied(answer: Answer) -> Reply
    ensures { result ≡ reply_of (said answer) }
{
    match answer {
        Ok(n) => Reply::Done(n),
        Err(why) => Reply::Refused(answers::number(why)),
    }
}

fn on_two(store: &[u32], tables: &mut [u32], word: OfTwo, user: u32, entry: u32) -> Reply
    ensures { told result (lent store.now tables.new) ≡ told_of (two_call word user entry) store.now tables.old }
{
    match word {
        OfTwo::Close => replied(call_close::close(store, tables, user, entry, false)),
        OfTwo::Public => replied(call_close::close(store, tables, user, entry, true)),
        OfTwo::Abandon => replied(call_close::abandon(store, tables, user, entry)),
        OfTwo::Reset => replied(call_pointers::reset(store, tables, user, entry)),
        OfTwo::Species => replied(call_ask::species(store, tables, user, entry)),
        OfTwo::Claim => replied(call_ask::claim(store, tables, user, entry)),
        OfTwo::Permit => replied(call_ask::permit(store, tables, user, entry)),
        OfTwo::Begin => replied(call_ask::begin(store, tables, user, entry)),
        OfTwo::End => replied(call_ask::end(store, tables, user, entry)),
    }
}

fn on_three(
    store: &[u32],
    tables: &mut [u32],
    word: OfThree,
    user: u32,
    entry: u32,
    number: u32,
) -> Reply
    ensures { told result (lent store.now tables.new) ≡ told_of (three_call word user entry number) store.now tables.old }
{
    match word {
        OfThree::Next => replied(call_next_prev::next(store, tables, user, entry, number)),
        OfThree::Prev => replied(call_next_prev::prev(store, tables, user, entry, number)),
        OfThree::New => replied(call_open::open_new(store, tables, user, entry, number)),
        OfThree::Pointer => replied(call_pointers::new_pointer(store, tables, user, entry, number)),
        OfThree::Delete => replied(call_pointers::delete_pointer(
            store, tables, user, entry, number,
        )),
        OfThree::Symbol => replied(call_ask::symbol(store, tables, user, entry, number)),
        OfThree::Value => replied(call_ask::value(store, tables, user, entry, number)),
        OfThree::NextSigned => replied_signed(call_next_prev::signed::next_signed(
            store, tables, user, entry, number,
        )),
        OfThree::PrevSigned => replied_signed(call_next_prev::signed::prev_signed(
            store, tables, user, entry, number,
        )),
    }
}

// A word that nothing follows.
fn alone(store: &mut [u32], tables: &mut [u32], word: &[u8]) -> Reply
    ensures { told result (lent store.new tables.new) ≡ told_of (alone_call word.now) store.old tables.old }
{
    if word == FRESH {
        return replied(call_fresh::fresh(store, tables));
    }
    if word == TIDY {
        return replied(call_tidy::tidy(store, tables));
    }
    Reply::Bad
}

// A word and the numbers after it.
fn numbered(store: &mut [u32], tables: &mut [u32], word: &[u8], numbers: Numbers) -> Reply
    ensures { told result (lent store.new tables.new) ≡ told_of (call_of word.now numbers) store.old tables.old }
{
    match numbers {
        Numbers::Zero => alone(store, tables, word),
        Numbers::One(user) if word == FREE => {
            replied(call_count::free_segments(store, tables, user))
        }
        Numbers::Two(user, entry) => match history_lines::of_two_word(word) {
            Some(known) => on_two(store, tables, known, user, entry),
            None => Reply::Bad,
        },
        Numbers::Three(user, entry, number) => match history_lines::of_three_word(word) {
            Some(known) => on_three(store, tables, known, user, entry, number),
            None => Reply::Bad,
        },
        Numbers::Four(user, entry, pointer, number) if word == WRITE => {
            replied(call_write::write(store, tables, user, entry, pointer, number))
        }
        _ => Reply::Bad,
    }
}

// A line whose first word, which ends at a place, is followed by numbers alone.
fn numbers_line(store: &mut [u32], tables: &mut [u32], line: &[u8], at: usize) -> Reply
    requires { at ≤ length line.now }
    ensures { told result (lent store.new tables.new) ≡ told_of (numbers_call line.now at) store.old tables.old }
{
    let word = &line[0..at];
    if word == WRITE_SIGNED {
        let asked = history_lines::signed::signed_write_at(line, at);
        return signed::write_signed(store, tables, asked);
    }
    match history_words::numbers_at(line, at) {
        Some(numbers) => numbered(store, tables, word, numbers),
        None => Reply::Bad,
    }
}

// A line that asks for a call on store and tables alone; to any other it answers Bad and changes nothing.
pub fn perform(store: &mut [u32], tables: &mut [u32], line: &[u8]) -> Reply
    ensures { told result (lent store.new tables.new) ≡ told_of (call_in line.now) store.old tables.old }
{
    let at = history_words::word_end(line, 0);
    match history_lines::of_name_word(&line[0..at]) {
        Some(word) => named(store, tables, Some(word), line, at),
        None => numbers_line(store, tables, line, at),
    }
}
