// What a byte string names.
ghost use Rattle.std.specs.Prelude.{◌≡◌};
ghost use Rattle.names.specs.Names.{name_of, used_bytes, put_symbols};

// The twelve symbols of the name go to the first places, as far as there are places; the answer is how many bytes belong to the name.
#[unsafe(no_mangle)]
pub extern "C" fn dorrivand_name_of(name: &[u8], symbols: &mut [u32]) -> usize
    ensures { (result ≡ used_bytes name.now) × (symbols.new ≡ put_symbols (name_of name.now) symbols.old) }
{
    names::put_symbols(names::name_of(name), symbols);
    names::used_bytes(name)
}
