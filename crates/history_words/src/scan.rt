// The first place of a byte.
ghost use Rattle.std.specs.Prelude.{◌≡◌, ◌+◌, ◌≤◌, length};
ghost use Rattle.history_words.specs.Words.{index_of, slice};

// The first place from a place on that has the byte, or the second place where none before it has: an Option would be taken apart
// by each caller again, for a word ends there too.
pub fn find(text: &[u8], from: usize, to: usize, byte: u8) -> usize
    requires { (from ≤ to) × (to ≤ length text.now) }
    ensures value { result ≡ from + index_of byte (slice from to text.now) }
    ensures upper_bound { result ≤ to }
{
    for i in from..to {
        if text[i] == byte {
            return i;
        }
    }
    to
}
