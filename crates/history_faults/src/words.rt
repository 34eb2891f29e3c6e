// The words of a line, one after the other: "words parted by exactly one space".
ghost use Rattle.std.specs.Prelude.{◌≡◌, ◌≢◌, ◌≤◌, ◌⊎◌, ◌∷◌, ◌++◌, length, drop, slice_index, IfSome, IfNone};
ghost use Rattle.history_words.specs.Words.{word_end};

// The word after the space that what is left of a line begins with, and what is left after it; none where the line ends
// before the word's first byte.
pub fn next_word(rest: &[u8]) -> Option<(&[u8], &[u8])>
    // The space, the word and what is left are all that there was, so it goes on.
    ensures parted { IfSome result (λ p. rest.now ≡ 32 ∷ (p.0.now ++ p.1.now)) }
    // The word goes up to the next space, or to the line's end.
    ensures word { IfSome result (λ p. length p.0.now ≡ word_end (drop 1 rest.now) 0) }
    // There is none only where no byte follows, or no space is there.
    ensures none { IfNone result ((length rest.now ≤ 1) ⊎ (slice_index rest.now 0 ≢ 32)) }
{
    let words = rest.strip_prefix(b" ")?;
    if words.is_empty() {
        return None;
    }
    Some(words.split_at(history_words::word_end(words, 0)))
}
