// Signed numbers: "digits with or without one `-` before them, -2147483648 to 2147483647".
ghost use Rattle.std.specs.Prelude.{◌≡◌};
ghost use Rattle.history_words.specs.Words.{with_sign, signed_number_of, last_signed};

const MINUS: u8 = b'-';

// What the digits make, and whether a `-` stands before them.
fn with_sign(minus: bool, digits: Option<u32>) -> Option<i32>
    ensures { result ≡ with_sign minus digits }
{
    let size = i64::from(digits?);
    if minus {
        return i32::try_from(-size).ok();
    }
    i32::try_from(size).ok()
}

pub fn signed_number_of(word: &[u8]) -> Option<i32>
    ensures { result ≡ signed_number_of word.now }
{
    let (first, rest) = word.split_first()?;
    if *first == MINUS {
        return with_sign(true, crate::number_of(rest));
    }
    with_sign(false, crate::number_of(word))
}

// The one after the space at a place, up to the line's end.
pub fn last_signed(line: &[u8], at: usize) -> Option<i32>
    ensures { result ≡ last_signed line.now at }
{
    if line.len() <= at {
        return None;
    }
    let from = at + 1;
    signed_number_of(&line[from..])
}
