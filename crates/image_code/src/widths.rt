// The widths of the image's fields, in the image's order.
ghost use Rattle.std.specs.Prelude.{◌≡◌, length, take};
ghost use Rattle.image.specs.Image.{row_widths};
ghost use Rattle.image.specs.Forms.{form_of};

use image::Form;
use placing::RECORD_LENGTH;
use tables::layout;

// "Cell 0: form 8 bits (1), number of segments 11 bits, 13 zero bits."
pub const HEAD: [u32; 3] = [8, 11, 13];

// A record's fields, and the zeros at its end.
pub const MOST: usize = RECORD_LENGTH + 1;

// "used 1, name 12 x 6, owner 3, private 1, species 3", "begin and end of 32 bits each", "then 32 segment numbers of 10
// bits by rising stretch", "16 zero bits at a record's end"
const ROW: [u32; MOST] = [
    1, // used
    6, // name
    6, 6, 6, 6, 6, 6, 6, 6, 6, 6, 6, 3, // owner
    1, // private
    3, // species
    32, // begin
    32, // end
    10, // segment numbers
    10, 10, 10, 10, 10, 10, 10, 10, 10, 10, 10, 10, 10, 10, 10, 10, 10, 10, 10, 10, 10, 10, 10, 10,
    10, 10, 10, 10, 10, 10, 10, 16, // zeros
];

// "begin 24, end 24"
const OLD_ENDS: u32 = 24;

// How many widths the form has: no zeros end a record of form 1.
pub fn count(form: Form) -> usize
    ensures { result ≡ length (row_widths (form_of form)) }
{
    match form {
        Form::One => RECORD_LENGTH,
        Form::Two => MOST,
    }
}

// The form's widths, and what is behind them is not looked at.
pub fn row(form: Form) -> [u32; MOST]
    ensures { take (length (row_widths (form_of form))) result ≡ row_widths (form_of form) }
{
    let mut widths = ROW;
    match form {
        Form::One => {
            widths[layout::RECORD_BEGIN] = OLD_ENDS;
            widths[layout::RECORD_END] = OLD_ENDS;
        }
        Form::Two => {}
    }
    widths
}
