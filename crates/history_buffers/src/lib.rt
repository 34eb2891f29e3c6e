// Lines that are no calls, on one buffer; and how many cells of each buffer are lent.
#![tactic(auto)]

ghost use Rattle.std.specs.Prelude.{◌≡◌, ◌+◌, ◌*◌, ◌%◌, ◌≤◌};
ghost use Rattle.history_buffers.specs.Buffers.{within_of, lent_of, lended, lend_line, sum_of, sum_line, peeked, peek_line, poking, poked, poke_line, testing, test_of};

use history_calls::Reply;
use history_lines::OfBuffer;
use history_words::Numbers;

pub mod wanted; // as many numbers as a line wants

// Store, tables, image 0 to 3, list 0 and 1, in this order.
pub const BUFFERS: usize = 8;

// The numbers of the first two.
pub const STORE: usize = 0;

pub const TABLES: usize = 1;

const LAST_BUFFER: usize = BUFFERS - 1;

// What a line is answered, and how many cells are lent from now on of each buffer.
#[derive(Clone, Copy)]
pub struct Answered {
    pub reply: Reply,
    pub lengths: [u32; BUFFERS],
}

// ---- what is lent

// A length that a buffer has.
fn within(lent: u32, most: usize) -> usize
    ensures { (result ≡ within_of lent most) × (result ≤ most) }
{
    (lent as usize).min(most)
}

// How many cells are lent of buffer k, which has so many.
pub fn lent(lengths: [u32; BUFFERS], k: usize, most: usize) -> usize
    ensures { (result ≡ lent_of lengths k most) × (result ≤ most) }
{
    if LAST_BUFFER < k {
        return 0;
    }
    within(lengths[k], most)
}

// "from now on the first N cells of the buffer are lent"
fn lend(lengths: [u32; BUFFERS], k: usize, most: usize, n: u32) -> Answered
    ensures { result ≡ lended lengths k most n }
{
    let mut changed = lengths;
    if most < n as usize {
        return Answered {
            reply: Reply::Bad,
            lengths,
        };
    }
    if LAST_BUFFER < k {
        return Answered {
            reply: Reply::Bad,
            lengths,
        };
    }
    changed[k] = n;
    Answered {
        reply: Reply::Lent(n),
        lengths: changed,
    }
}

fn lend_line(lengths: [u32; BUFFERS], k: usize, most: usize, numbers: Option<Numbers>) -> Answered
    ensures { result ≡ lend_line lengths k most numbers }
{
    let Some(n) = wanted::one_number(numbers) else {
        return Answered {
            reply: Reply::Bad,
            lengths,
        };
    };
    lend(lengths, k, most, n)
}

// ---- cells

// Of a sum's step.
const FACTOR: u64 = 31;

const MODULUS: u64 = 4294967291;

fn summed(h: u32, cell: u32) -> u32
    ensures { result ≡ (h * 31 + cell) % 4294967291 }
{
    ((u64::from(h) * FACTOR + u64::from(cell)) % MODULUS) as u32
}

// "a sum over the lent cells: h starts at 0, for each cell c, h = (h * 31 + c) mod 4294967291"
fn sum(cells: &[u32]) -> u32
    ensures { result ≡ sum_of 0 cells.now }
{
    cells.iter().fold(0, |h, cell| summed(h, *cell))
}

fn sum_line(cells: &[u32], lengths: [u32; BUFFERS], k: usize, numbers: Option<Numbers>) -> Reply
    ensures { result ≡ sum_line cells.now lengths k numbers }
{
    if wanted::no_number(numbers) {
        let n = lent(lengths, k, cells.len());
        return Reply::Sum(sum(&cells[0..n]));
    }
    Reply::Bad
}

// "reads cell I of the buffer (of all its cells, lent or not)"
fn peek(cells: &[u32], at: u32) -> Reply
    ensures { result ≡ peeked cells.now at }
{
    let index = at as usize;
    if cells.len() <= index {
        return Reply::Bad;
    }
    Reply::Cell(cells[index])
}

fn peek_line(cells: &[u32], numbers: Option<Numbers>) -> Reply
    ensures { result ≡ peek_line cells.now numbers }
{
    let Some(at) = wanted::one_number(numbers) else {
        return Reply::Bad;
    };
    peek(cells, at)
}

// "writes V there"
fn poke(cells: &mut [u32], at: u32, value: u32) -> Reply
    ensures { poking result cells.new ≡ poked cells.old at value }
{
    let index = at as usize;
    if cells.len() <= index {
        return Reply::Bad;
    }
    cells[index] = value;
    Reply::Cell(value)
}

fn poke_line(cells: &mut [u32], numbers: Option<Numbers>) -> Reply
    ensures { poking result cells.new ≡ poke_line cells.old numbers }
{
    let Some((at, value)) = wanted::two_numbers(numbers) else {
        return Reply::Bad;
    };
    poke(cells, at, value)
}

// ---- any of them, on buffer k; a word that is none of them is a bad line

#[tactic(auto, using(crate::specs::Laws::tested))]
pub fn test(
    cells: &mut [u32],
    lengths: [u32; BUFFERS],
    k: usize,
    word: Option<OfBuffer>,
    numbers: Option<Numbers>,
) -> Answered
    ensures { testing result cells.new ≡ test_of word cells.old lengths k numbers }
{
    let Some(word) = word else {
        return Answered {
            reply: Reply::Bad,
            lengths,
        };
    };
    match word {
        OfBuffer::Sum => Answered {
            reply: sum_line(cells, lengths, k, numbers),
            lengths,
        },
        OfBuffer::Peek => Answered {
            reply: peek_line(cells, numbers),
            lengths,
        },
        OfBuffer::Poke => Answered {
            reply: poke_line(cells, numbers),
            lengths,
        },
        OfBuffer::Lend => lend_line(lengths, k, cells.len(), numbers),
    }
}
