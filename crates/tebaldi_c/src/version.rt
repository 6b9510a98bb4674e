//! The version of the library.

ghost use Rattle.std.specs.Prelude.{◌≡◌};

/// A version as C has it.
#[repr(C)]
#[derive(Clone, Copy)]
pub struct VersionForm {
    pub major: u32,
    pub minor: u32,
    pub patch: u32,
}

/// Tells the version of the library. Versions with the same `major` have the same structs, functions and numbers.
#[unsafe(no_mangle)]
pub extern "C" fn tebaldi_version(version: &mut VersionForm)
    ensures { version.new ≡ record { major = 1; minor = 4; patch = 0 } }
{
    *version = VersionForm {
        major: 1,
        minor: 4,
        patch: 0,
    };
}
