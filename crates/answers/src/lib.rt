// What a call answers.
#![tactic(auto)]

ghost use Rattle.std.specs.Prelude.{◌≡◌};
ghost use Rattle.answers.specs.Said.{refusal_number};

// Why a call is refused, in the order of their numbers: document 01's 1 to 22, and document 02's; 12 is never given again (P4), and no other refusal gets it.
#[derive(Clone, Copy)]
pub enum Refusal {
    User,
    Entry,
    Open,
    Pointer,
    Permit,
    Below,
    Beyond,
    Segments,
    Room,
    Positions,
    Unknown,
    NoWork,
    NotNow,
    Empty,
    Taken,
    Place,
    Public,
    Species,
    Tables,
    Pointers,
    Image,
    Wide,
    Far,
}

// "An answer is either done, with its number where there is one, or refused, with one of these inside it": done is 0 where
// there is no number.
pub type Answer = Result<u32, Refusal>;

// The same, where the number is signed.
pub type SignedAnswer = Result<i32, Refusal>;

// The number of the table. A `From` beside it would be no plainer: pages and callers name this one.
pub fn number(refusal: Refusal) -> u32
    ensures { result ≡ refusal_number refusal }
{
    match refusal {
        Refusal::User => 1,
        Refusal::Entry => 2,
        Refusal::Open => 3,
        Refusal::Pointer => 4,
        Refusal::Permit => 5,
        Refusal::Below => 6,
        Refusal::Beyond => 7,
        Refusal::Segments => 8,
        Refusal::Room => 9,
        Refusal::Positions => 10,
        Refusal::Unknown => 11,
        Refusal::NoWork => 13,
        Refusal::NotNow => 14,
        Refusal::Empty => 15,
        Refusal::Taken => 16,
        Refusal::Place => 17,
        Refusal::Public => 18,
        Refusal::Species => 19,
        Refusal::Tables => 20,
        Refusal::Pointers => 21,
        Refusal::Image => 22,
        Refusal::Wide => 23,
        Refusal::Far => 24,
    }
}
