//! Which version this is.

ghost use Rattle.std.specs.Prelude.{◌≡◌, ◌+◌, ◌*◌};

/// Returns the version of this library: its major number a million times, its minor number a thousand times, and its
/// patch number. 0.1.0 is 1000. Allocates nothing.
#[unsafe(no_mangle)]
pub extern "C" fn gawerunoa_version() -> u32
    ensures { result ≡ 0 * 1000000 + 1 * 1000 + 0 }
{
    1000
}
