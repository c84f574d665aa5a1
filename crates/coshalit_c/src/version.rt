//! The version of the library.
ghost use Rattle.std.specs.Prelude.{◌≡◌};

/// The version: 10000 times the major number, 100 times the minor one, and the patch. It is that of `COSHALIT_VERSION` in the header.
const VERSION: u32 = 10_000;

/// The version of the library: 10000 times its major number, 100 times its minor one, and its patch.
#[unsafe(no_mangle)]
pub extern "C" fn coshalit_version() -> u32
    ensures { result ≡ 10000 }
{
    VERSION
}
