// The library's version.
ghost use Rattle.std.specs.Prelude.{◌≡◌};

const MAJOR: u32 = 0;

const MINOR: u32 = 1;

const PATCH: u32 = 0;

/// The version of the library: 65,536 for each major one, 256 for each minor one, and the patch.
#[unsafe(no_mangle)]
pub extern "C" fn nvmigrate_version() -> u32
    ensures { result ≡ 256 }
{
    MAJOR * 65_536 + MINOR * 256 + PATCH
}
