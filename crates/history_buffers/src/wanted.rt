// As many numbers as a line wants. None is what a line has whose numbers are malformed, or more than four.
ghost use Rattle.std.specs.Prelude.{◌≡◌};
ghost use Rattle.history_buffers.specs.Numbers.{no_number, one_number, two_numbers};

use history_words::Numbers;

pub fn no_number(numbers: Option<Numbers>) -> bool
    ensures { result ≡ no_number numbers }
{
    matches!(numbers, Some(Numbers::Zero))
}

pub fn one_number(numbers: Option<Numbers>) -> Option<u32>
    ensures { result ≡ one_number numbers }
{
    match numbers? {
        Numbers::One(number) => Some(number),
        _ => None,
    }
}

pub fn two_numbers(numbers: Option<Numbers>) -> Option<(u32, u32)>
    ensures { result ≡ two_numbers numbers }
{
    match numbers? {
        Numbers::Two(first, second) => Some((first, second)),
        _ => None,
    }
}
