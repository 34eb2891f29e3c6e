// The form of every line of a history, said once: the word that it begins with, and a field for each word that follows.
// `help` is answered by this list, and a bad line is held against the form that its word begins. A line is never bad
// for its NAME, which is any bytes.
ghost use Rattle.std.specs.Prelude.{◌≡◌, ◌↔◌, IsTrue, IfSome};
ghost use Rattle.std.specs.Str.Iter.{HasSubslice};
ghost use Rattle.history_faults.specs.Parts.{first_word, YieldsPartsOf};

use std::iter::Skip;
use std::str::Split;

pub const FORMS: &str = "fresh; \
    tidy; \
    save IMAGE; \
    load IMAGE; \
    up IMAGE INTO SEGMENTS; \
    down IMAGE INTO SEGMENTS; \
    free USER; \
    new USER ENTRY SPECIES; \
    work USER ENTRY NAME; \
    read USER ENTRY NAME; \
    rename USER ENTRY NAME; \
    close USER ENTRY; \
    public USER ENTRY; \
    abandon USER ENTRY; \
    reset USER ENTRY; \
    pointer USER ENTRY POINTER; \
    delete USER ENTRY POINTER; \
    write USER ENTRY POINTER ELEMENT; \
    next USER ENTRY POINTER; \
    prev USER ENTRY POINTER; \
    write_signed USER ENTRY POINTER SIGNED; \
    next_signed USER ENTRY POINTER; \
    prev_signed USER ENTRY POINTER; \
    writes USER ENTRY POINTER LIST; \
    nexts USER ENTRY POINTER LIST; \
    species USER ENTRY; \
    claim USER ENTRY; \
    permit USER ENTRY; \
    begin USER ENTRY; \
    end USER ENTRY; \
    symbol USER ENTRY INDEX; \
    value USER ENTRY POINTER; \
    lend BUFFER LENGTH; \
    peek BUFFER CELL; \
    poke BUFFER CELL VALUE; \
    sum BUFFER";

// The fields of a form, from left to right.
pub fn fields(form: &'static str) -> Skip<Split<'static, char>>
    // Each of them stands in the form.
    ensures { YieldsPartsOf form.now result }
{
    form.split(' ').skip(1)
}

// Whether it is this form that a word begins.
fn is_begun_by(form: &str, word: &[u8]) -> bool
    // Just where the word is the form's first.
    ensures { IsTrue result ↔ (first_word form.now ≡ word.now) }
{
    // Most forms begin with another byte, so that they are not parted.
    if !form.as_bytes().starts_with(word) {
        return false;
    }
    form.split(' ')
        .next()
        .is_some_and(|first| first.as_bytes() == word)
}

// The form that a word begins.
pub fn form_of(word: &[u8]) -> Option<&'static str>
    // It stands in the list.
    ensures inside { IfSome result (λ form. HasSubslice FORMS.now form.now) }
    // The word is its first.
    ensures begun { IfSome result (λ form. first_word form.now ≡ word.now) }
{
    FORMS.split("; ").find(|form| is_begun_by(form, word))
}
