// The version of the archive, for C. tests/version compares the numbers here with the file VERSION.
ghost use Rattle.std.specs.Prelude.{◌≡◌};
ghost use Rattle.cqdb_c.specs.Version.{version_number};

const MAJOR: u32 = 0;

const MINOR: u32 = 4;

const PATCH: u32 = 0;

// The version as one number.
#[unsafe(no_mangle)]
pub extern "C" fn cqdb_version_number() -> u32
    ensures { result ≡ version_number 0 4 0 }
{
    MAJOR * 65536 + MINOR * 256 + PATCH
}
