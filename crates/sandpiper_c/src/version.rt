//! The version of the library.

ghost use Rattle.std.specs.Prelude.{◌≡◌};

/// The version: its major number times 100, and its minor number, as the header has them.
#[unsafe(no_mangle)]
pub extern "C" fn sandpiper_version() -> u32
    ensures { result ≡ 4 }
{
    4
}
