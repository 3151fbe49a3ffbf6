// Origin: models/cert.rs.
// The word of a certificate: four flags, the height in the low 12 bits.
ghost use Rattle.std.specs.Prelude.{◌<◌, ◌≡◌, ltb};
ghost use Rattle.spec.specs.Store.{word};
ghost use Rattle.models.specs.Cert.{flags_of, height_of, with_height, has_proof, topped, linked, marked};

use crate::parts::Height;

// The heights that the low 12 bits can hold.
pub const HEIGHTS: u64 = 4096;

// The word at most: 16 bits.
pub const CERT_MAX: u64 = 65535;

const TOP: u64 = 0x8000;

const INIT_COMPLETED: u64 = 0x6000;

const COMMITTED: u64 = 0x1000;

#[derive(Clone, Copy)]
pub struct Cert(pub u64);

impl Cert {
    pub fn height(self) -> Height
        ensures { result.0 ≡ height_of self.0 }
    {
        Height((self.0 % HEIGHTS) as u16)
    }

    // Certified directly.
    pub fn is_top(self) -> bool
        ensures { result ≡ (flags_of self.0).top }
    {
        self.0 / TOP % 2 == 1
    }

    pub fn is_committed(self) -> bool
        ensures { result ≡ (flags_of self.0).committed }
    {
        self.0 / COMMITTED % 2 == 1
    }

    pub fn is_certified(self) -> bool
        ensures { result ≡ ltb 0 (height_of self.0) }
    {
        0 < self.0 % HEIGHTS
    }

    // Certified, and that directly.
    pub fn has_proof(self) -> bool
        ensures { result ≡ has_proof self.0 }
    {
        self.is_certified() && self.is_top()
    }

    // The word with another height.
    pub fn with_height(self, height: Height) -> Cert
        requires { height.0 < 4096 }
        ensures { result.0 ≡ with_height self.0 height.0 }
    {
        Cert(self.0 / HEIGHTS * HEIGHTS + height.0 as u64)
    }

    // The word of a point certified directly.
    pub fn set_top(self) -> Cert
        requires { self.0 < 65536 }
        ensures { result.0 ≡ word (topped (flags_of self.0)) (height_of self.0) }
    {
        Cert(self.0 | TOP)
    }

    // The word once the links of its point are set.
    pub fn set_deps(self) -> Cert
        requires { self.0 < 65536 }
        ensures { result.0 ≡ word (linked (flags_of self.0)) (height_of self.0) }
    {
        Cert(self.0 | INIT_COMPLETED)
    }

    pub fn set_committed(self) -> Cert
        requires { self.0 < 65536 }
        ensures { result.0 ≡ word (marked (flags_of self.0)) (height_of self.0) }
    {
        Cert(self.0 | COMMITTED)
    }
}
