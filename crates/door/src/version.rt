// Which version of the door a caller has linked.
ghost use Rattle.std.specs.Prelude.{◌≡◌};
ghost use Rattle.door.specs.Version.{version};

#[unsafe(no_mangle)]
pub extern "C" fn dorrivand_version() -> u32
    ensures { result ≡ version }
{
    8
}
