// What a line names that is not there, when each of its words is as its form wants it.
ghost use Rattle.std.specs.Prelude.{IfSome};
ghost use Rattle.std.specs.Str.Iter.{HasSubslice};

use crate::forms::fields;
use history_lent::sizes::LAST_IMAGE;
use history_words::number_of;

fn is_image(word: &[u8]) -> bool {
    number_of(word).is_some_and(|image| image as usize <= LAST_IMAGE)
}

// Whether it is this field whose number is not there. Of lists, lengths and cells a form has one at most, and no image
// beside it: it is that.
fn is_beyond(field: &str, word: &[u8]) -> bool {
    match field {
        "IMAGE" | "INTO" => !is_image(word),
        "LIST" | "LENGTH" | "CELL" => true,
        _ => false,
    }
}

// The first such field, from left to right.
pub fn first_beyond(form: &'static str, words: &[u8]) -> Option<&'static str>
    // It stands in the form.
    ensures { IfSome result (λ field. HasSubslice form.now field.now) }
{
    fields(form)
        .zip(words.split(|byte| *byte == b' ').skip(1))
        .find(|(field, word)| is_beyond(field, word))
        .map(|(field, _)| field)
}
