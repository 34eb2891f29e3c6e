// Whether an image is sound, and the tables that it gives.
#![tactic(auto)]

ghost use Rattle.std.specs.Prelude.{◌≡◌, true, length, replicate};
ghost use Rattle.placing.specs.Sizes.{tables_length};
ghost use Rattle.image.specs.Image.{imageb, tables_from};
ghost use Rattle.image.specs.Forms.{form_of};

use image::Form;

// "Sound: form 1; ..": judged beside a store of so many cells. The image is decoded beside, where all was zero, and a
// sound one has its tables there.
pub fn is_sound(form: Form, image: &[u32], cells: usize, beside: &mut [u32]) -> bool
    requires { beside.old ≡ replicate tables_length 0 }
    ensures value { result ≡ imageb (form_of form) cells image.now }
    ensures beside_after { result ≡ true → beside.new ≡ tables_from (form_of form) image.now }
{
    if image.len() != form.image_length() {
        return false;
    }
    let [number, _, zeros] = image_code::take_head(&image[0..1]);
    if number != form.number() {
        return false;
    }
    if zeros != 0 {
        return false;
    }
    if !image_code::spares::all_zero(form, image) {
        return false;
    }
    image_code::take_image(form, image, beside);
    sound::sound(beside, cells)
}
