// The lengths that a caller lends.
ghost use Rattle.std.specs.Prelude.{◌≡◌};
ghost use Rattle.placing.specs.Sizes.{tables_length};
ghost use Rattle.image.specs.Image.{form1, served, image_length};

#[unsafe(no_mangle)]
pub extern "C" fn dorrivand_tables_length() -> usize
    ensures { result ≡ tables_length }
{
    placing::TABLES_LENGTH
}

#[unsafe(no_mangle)]
pub extern "C" fn dorrivand_image_length() -> usize
    ensures { result ≡ image_length served }
{
    image::IMAGE_LENGTH
}

// Of form 1.
#[unsafe(no_mangle)]
pub extern "C" fn dorrivand_old_image_length() -> usize
    ensures { result ≡ image_length form1 }
{
    image::OLD_IMAGE_LENGTH
}
