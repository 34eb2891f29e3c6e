// An answer as one number.
ghost use Rattle.std.specs.Prelude.{◌≡◌};
ghost use Rattle.answers.specs.Said.{said, said_signed};
ghost use Rattle.door.specs.Handed.{unpacked};
ghost use Rattle.door.specs.SignedHanded.{unpacked_signed};

use answers::{Answer, SignedAnswer};

// 2^32, which no number of 32 bits reaches.
const FIRST_REFUSED: u64 = 4294967296;

const SIGNED_FIRST_REFUSED: i64 = FIRST_REFUSED as i64;

pub fn pack(answer: Answer) -> u64
    ensures { unpacked result ≡ said answer }
{
    match answer {
        Ok(number) => u64::from(number),
        Err(why) => FIRST_REFUSED + u64::from(answers::number(why)),
    }
}

// Of a call that gives a signed number: every number of 32 bits with a sign is itself. The C interface has u64 for the one and
// i64 for the other; one function for both would take conversion and sum by bounds with laws, and is no plainer than two arms.
pub fn pack_signed(answer: SignedAnswer) -> i64
    ensures { unpacked_signed result ≡ said_signed answer }
{
    match answer {
        Ok(number) => i64::from(number),
        Err(why) => SIGNED_FIRST_REFUSED + i64::from(answers::number(why)),
    }
}
