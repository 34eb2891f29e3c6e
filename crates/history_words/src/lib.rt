// Words and numbers of a line: "words parted by exactly one space".
#![tactic(auto)]

ghost use Rattle.std.specs.Prelude.{◌≡◌, ◌≤◌, length};
ghost use Rattle.history_words.specs.Words.{word_end, digits_from, number_of, number_at, numbers_at};

pub mod scan; // the first place of a byte
pub mod signed; // signed numbers

// A number has at most ten digits.
pub const MOST_DIGITS: usize = 10;

const BASE: u32 = 10;

const SPACE: u8 = b' ';

// All numbers that follow a place of the line, up to its end.
#[derive(Clone, Copy)]
pub enum Numbers {
    Zero,
    One(u32),
    Two(u32, u32),
    Three(u32, u32, u32),
    Four(u32, u32, u32, u32),
}

// The place of the first space from a place on, or of the line's end.
pub fn word_end(line: &[u8], from: usize) -> usize
    requires { from ≤ length line.now }
    ensures value { result ≡ word_end line.now from }
    ensures lower_bound { (from ≤ result) × (result ≤ length line.now) }
{
    scan::find(line, from, line.len(), SPACE)
}

// The number that the digits make: "0 to 4294967295".
fn digits(word: &[u8]) -> Option<u32>
    ensures { result ≡ digits_from 0 word.now }
{
    let mut value: u32 = 0;
    for byte in word {
        if !byte.is_ascii_digit() {
            return None;
        }
        let digit = u32::from(*byte - b'0');
        value = value.checked_mul(BASE)?.checked_add(digit)?;
    }
    Some(value)
}

// "at most ten digits; leading zeros may stand"
pub fn number_of(word: &[u8]) -> Option<u32>
    ensures { result ≡ number_of word.now }
{
    if word.is_empty() {
        return None;
    }
    if MOST_DIGITS < word.len() {
        return None;
    }
    digits(word)
}

// The number after the space at a place, and the place where its word ends.
pub fn number_at(line: &[u8], at: usize) -> Option<(u32, usize)>
    ensures { result ≡ number_at line.now at }
{
    if line.len() <= at {
        return None;
    }
    let from = at + 1;
    let to = word_end(line, from);
    let number = number_of(&line[from..to])?;
    Some((number, to))
}

// The numbers from a place on, up to the line's end.
pub fn numbers_at(line: &[u8], at: usize) -> Option<Numbers>
    ensures { result ≡ numbers_at line.now at }
{
    if line.len() <= at {
        return Some(Numbers::Zero);
    }
    let (first, after_first) = number_at(line, at)?;
    if line.len() <= after_first {
        return Some(Numbers::One(first));
    }
    let (second, after_second) = number_at(line, after_first)?;
    if line.len() <= after_second {
        return Some(Numbers::Two(first, second));
    }
    let (third, after_third) = number_at(line, after_second)?;
    if line.len() <= after_third {
        return Some(Numbers::Three(first, second, third));
    }
    let (fourth, after_fourth) = number_at(line, after_third)?;
    if after_fourth < line.len() {
        return None;
    }
    Some(Numbers::Four(first, second, third, fourth))
}
