// A word looked up in a table of words.
ghost use Rattle.std.specs.Prelude.{◌≡◌, map};
ghost use Rattle.history_lines.specs.Spelling.{found};

// What stands beside the word.
pub fn meaning_of<T: Copy>(table: &[(&[u8], T)], word: &[u8]) -> Option<T>
    ensures { result ≡ found (map (λ row. (row.0.now, row.1)) table.now) word.now }
{
    for row in table {
        if word == row.0 {
            return Some(row.1);
        }
    }
    None
}
