// Which release a program runs with.
ghost use Rattle.std.specs.Prelude.{◌≡◌};

/// `hdt_version_out`.
#[repr(C)]
#[derive(Clone, Copy)]
pub struct Version {
    pub major: u32,
    pub minor: u32,
    pub patch: u32,
}

/// `hdt_version`.
#[unsafe(no_mangle)]
pub extern "C" fn hdt_version(out: &mut Version)
    ensures { out.new ≡ record { major = 0; minor = 5; patch = 0 } }
{
    *out = Version {
        major: 0,
        minor: 5,
        patch: 0,
    };
}
