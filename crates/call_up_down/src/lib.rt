// The operator's images moved from one form to the other: neither store nor tables are lent.
#![tactic(auto)]

ghost use Rattle.std.specs.Prelude.{◌≡◌, length, replicate};
ghost use Rattle.placing.specs.Sizes.{tables_length};
ghost use Rattle.image.specs.Forms.{form_of};
ghost use Rattle.image.specs.Reformed.{reachesb, reformed_out, up_out, down_out};
ghost use Rattle.call_up_down.specs.Moved.{moved_outcome};

use answers::{Answer, Refusal};
use image::Form;
use placing::{PLACES, Position, RECORD_LENGTH, RECORDS_START, SEGMENT_CELLS, TABLES_LENGTH};
use tables::layout;

// "every begin and end is at most 16,777,215", the greatest of form 1; so for either form.
fn reaches(form: Form, tables: &[u32]) -> bool
    requires { length tables.now ≡ tables_length }
    ensures { result ≡ reachesb (form_of form) tables.now }
{
    let greatest = form.greatest_end();
    for p in 0..PLACES {
        let at = RECORDS_START + RECORD_LENGTH * p;
        let begin = Position::of(tables[at + layout::RECORD_BEGIN]);
        let end = Position::of(tables[at + layout::RECORD_END]);
        if greatest < begin.number() {
            return false;
        }
        if greatest < end.number() {
            return false;
        }
    }
    true
}

// The image is decoded beside and judged there, before any cell of the buffer changes: "22 comes before 24. Refusals write nothing."
fn moved(
    from: Form,
    to: Form,
    image: &[u32],
    buffer: &mut [u32],
    segments: u32,
    beside: &mut [u32],
) -> Answer
    requires { beside.old ≡ replicate tables_length 0 }
    ensures { moved_outcome result buffer.new ≡ reformed_out (form_of from) (form_of to) image.now buffer.old segments }
{
    let sound = image_sound::is_sound(from, image, SEGMENT_CELLS * segments as usize, beside);
    let fits = buffer.len() == to.image_length();
    let reached = reaches(to, beside);
    if !(sound & fits) {
        return Err(Refusal::Image);
    }
    if !reached {
        return Err(Refusal::Far);
    }
    image_code::put_image(to, beside, buffer);
    Ok(0)
}

// "A sound form 1 image always moves up."
pub fn up(image: &[u32], buffer: &mut [u32], segments: u32) -> Answer
    ensures { moved_outcome result buffer.new ≡ up_out image.now buffer.old segments }
{
    let mut beside = [0u32; TABLES_LENGTH];
    moved(Form::One, Form::Two, image, buffer, segments, &mut beside)
}

// "A sound form 2 image moves down exactly if every begin and end is at most 16,777,215, else refusal 24."
pub fn down(image: &[u32], buffer: &mut [u32], segments: u32) -> Answer
    ensures { moved_outcome result buffer.new ≡ down_out image.now buffer.old segments }
{
    let mut beside = [0u32; TABLES_LENGTH];
    moved(Form::Two, Form::One, image, buffer, segments, &mut beside)
}
