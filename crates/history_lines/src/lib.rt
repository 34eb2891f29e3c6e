// The words of histories, by what follows them, and lines with names.
#![tactic(auto)]

ghost use Rattle.std.specs.Prelude.{◌≡◌};
ghost use Rattle.history_lines.specs.Spelling.{found, two_words, three_words, name_words};
ghost use Rattle.history_lines.specs.Naming.{named_at};

pub mod buffers; // the words of buffers
mod spelling; // a word looked up in a table
pub mod signed; // what follows the word of a signed write

// The words that are followed by user and entry.
#[derive(Clone, Copy)]
pub enum OfTwo {
    Close,
    Public,
    Abandon,
    Reset,
    Species,
    Claim,
    Permit,
    Begin,
    End,
}

// The words that are followed by user, entry and one number more.
#[derive(Clone, Copy)]
pub enum OfThree {
    Next,
    Prev,
    New,
    Pointer,
    Delete,
    Symbol,
    Value,
    NextSigned,
    PrevSigned,
}

// The words that are followed by user, entry and a name.
#[derive(Clone, Copy)]
pub enum OfName {
    Work,
    Read,
    Rename,
}

// The words that are followed by a buffer, for tests.
#[derive(Clone, Copy)]
pub enum OfBuffer {
    Lend,
    Peek,
    Poke,
    Sum,
}

// The buffers of the lines that are no calls.
#[derive(Clone, Copy)]
pub enum Buffer {
    Store,
    Tables,
    Image(usize),
    List(usize),
}

// The words of the calls to which a buffer is lent beside store and tables, an image, or a list for a run; and of those that are lent two images alone.
#[derive(Clone, Copy)]
pub enum OfLent {
    Save,
    Load,
    Writes,
    Nexts,
    Up,
    Down,
}

const TWO_WORDS: [(&[u8], OfTwo); 9] = [
    (b"close", OfTwo::Close),
    (b"public", OfTwo::Public),
    (b"abandon", OfTwo::Abandon),
    (b"reset", OfTwo::Reset),
    (b"species", OfTwo::Species),
    (b"claim", OfTwo::Claim),
    (b"permit", OfTwo::Permit),
    (b"begin", OfTwo::Begin),
    (b"end", OfTwo::End),
];

pub fn of_two_word(word: &[u8]) -> Option<OfTwo>
    ensures { result ≡ found two_words word.now }
{
    spelling::meaning_of(&TWO_WORDS, word)
}

const THREE_WORDS: [(&[u8], OfThree); 9] = [
    (b"next", OfThree::Next),
    (b"prev", OfThree::Prev),
    (b"new", OfThree::New),
    (b"pointer", OfThree::Pointer),
    (b"delete", OfThree::Delete),
    (b"symbol", OfThree::Symbol),
    (b"value", OfThree::Value),
    (b"next_signed", OfThree::NextSigned),
    (b"prev_signed", OfThree::PrevSigned),
];

pub fn of_three_word(word: &[u8]) -> Option<OfThree>
    ensures { result ≡ found three_words word.now }
{
    spelling::meaning_of(&THREE_WORDS, word)
}

const NAME_WORDS: [(&[u8], OfName); 3] = [
    (b"work", OfName::Work),
    (b"read", OfName::Read),
    (b"rename", OfName::Rename),
];

pub fn of_name_word(word: &[u8]) -> Option<OfName>
    ensures { result ≡ found name_words word.now }
{
    spelling::meaning_of(&NAME_WORDS, word)
}

// The user and the entry that follow a place of the line, and the place where the entry's word ends.
pub fn named_at(line: &[u8], at: usize) -> Option<(u32, u32, usize)>
    ensures { result ≡ named_at line.now at }
{
    let (user, after_user) = history_words::number_at(line, at)?;
    let (entry, after_entry) = history_words::number_at(line, after_user)?;
    Some((user, entry, after_entry))
}
