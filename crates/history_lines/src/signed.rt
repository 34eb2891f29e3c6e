// A signed write's line: user, entry and pointer, and a signed number at its end.
ghost use Rattle.std.specs.Prelude.{◌≡◌};
ghost use Rattle.history_lines.specs.Signing.{signed_write_at};

#[derive(Clone, Copy)]
pub struct SignedWrite {
    pub user: u32,
    pub entry: u32,
    pub pointer: u32,
    pub number: i32,
}

pub fn signed_write_at(line: &[u8], at: usize) -> Option<SignedWrite>
    ensures { result ≡ signed_write_at line.now at }
{
    let (user, entry, after_entry) = crate::named_at(line, at)?;
    let (pointer, after_pointer) = history_words::number_at(line, after_entry)?;
    let number = history_words::signed::last_signed(line, after_pointer)?;
    Some(SignedWrite {
        user,
        entry,
        pointer,
        number,
    })
}
