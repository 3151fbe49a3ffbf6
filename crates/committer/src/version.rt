// Origin: none.
// The library's version, and the number of the layout that it was built with.
ghost use Rattle.std.specs.Prelude.{◌≡◌};

// include/committer.h says when each part is raised.
#[repr(C)]
#[derive(Clone, Copy)]
pub struct Version {
    pub major: u32,
    pub minor: u32,
    pub patch: u32,
}

#[unsafe(no_mangle)]
pub extern "C" fn committer_library_version() -> Version
    ensures { (result.major ≡ 0) × (result.minor ≡ 9) × (result.patch ≡ 0) }
{
    Version {
        major: 0,
        minor: 9,
        patch: 0,
    }
}

// The layout's number. Its name ends with that number: a header of another layout refers to another name, and doesn't link.
#[unsafe(no_mangle)]
pub extern "C" fn committer_layout_2() -> u32
    ensures { result ≡ 2 }
{
    2
}
