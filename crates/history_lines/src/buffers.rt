// The words of the lines that are no calls, the names of buffers, and the words of the calls that are lent images or lists.
ghost use Rattle.std.specs.Prelude.{◌≡◌};
ghost use Rattle.history_lines.specs.Spelling.{found};
ghost use Rattle.history_lines.specs.Buffers.{buffer_words, buffer_names, lent_words};

use crate::{Buffer, OfBuffer, OfLent, spelling};

const BUFFER_WORDS: [(&[u8], OfBuffer); 4] = [
    (b"lend", OfBuffer::Lend),
    (b"peek", OfBuffer::Peek),
    (b"poke", OfBuffer::Poke),
    (b"sum", OfBuffer::Sum),
];

pub fn of_buffer_word(word: &[u8]) -> Option<OfBuffer>
    ensures { result ≡ found buffer_words word.now }
{
    spelling::meaning_of(&BUFFER_WORDS, word)
}

// "Buffers are named store, tables, image0 to image3", and "list0 and list1".
const BUFFER_NAMES: [(&[u8], Buffer); 8] = [
    (b"store", Buffer::Store),
    (b"tables", Buffer::Tables),
    (b"image0", Buffer::Image(0)),
    (b"image1", Buffer::Image(1)),
    (b"image2", Buffer::Image(2)),
    (b"image3", Buffer::Image(3)),
    (b"list0", Buffer::List(0)),
    (b"list1", Buffer::List(1)),
];

pub fn buffer_named(word: &[u8]) -> Option<Buffer>
    ensures { result ≡ found buffer_names word.now }
{
    spelling::meaning_of(&BUFFER_NAMES, word)
}

const LENT_WORDS: [(&[u8], OfLent); 6] = [
    (b"save", OfLent::Save),
    (b"load", OfLent::Load),
    (b"writes", OfLent::Writes),
    (b"nexts", OfLent::Nexts),
    (b"up", OfLent::Up),
    (b"down", OfLent::Down),
];

pub fn of_lent_word(word: &[u8]) -> Option<OfLent>
    ensures { result ≡ found lent_words word.now }
{
    spelling::meaning_of(&LENT_WORDS, word)
}
