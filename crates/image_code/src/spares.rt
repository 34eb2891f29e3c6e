// The zero bits at the records' ends.
ghost use Rattle.std.specs.Prelude.{◌≡◌, length};
ghost use Rattle.image.specs.Image.{form2, image_length, sparesb};
ghost use Rattle.image.specs.Forms.{form_of};

use image::{Form, RECORD_CELLS};
use placing::PLACES;

// "16 zero bits at a record's end": the low ones of its last cell, a number below this.
const SPARE_LIMIT: u32 = 65536;

// The last cells of the records in form 2.
fn ends_zero(image: &[u32]) -> bool
    requires { length image.now ≡ image_length form2 }
    ensures { result ≡ sparesb form2 image.now }
{
    for p in 0..PLACES {
        if image[RECORD_CELLS + RECORD_CELLS * p] % SPARE_LIMIT != 0 {
            return false;
        }
    }
    true
}

// "every bit called zero here is zero", of those at the records' ends: form 1 has none there.
pub fn all_zero(form: Form, image: &[u32]) -> bool
    requires { length image.now ≡ image_length (form_of form) }
    ensures { result ≡ sparesb (form_of form) image.now }
{
    match form {
        Form::One => true,
        Form::Two => ends_zero(image),
    }
}
