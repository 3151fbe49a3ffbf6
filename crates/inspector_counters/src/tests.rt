// Origin: dag/commit/inspector.rs (inspect), models/dag_point.rs (trusted).
// The inspector's tests of one version of a peer's point.
ghost use Rattle.std.specs.Prelude.{◌≡◌, ◌+◌, ◌*◌, ◌<◌, ◌≤◌, length};
ghost use Rattle.inspector_counters.specs.Tests.{nothing, version_at, inspect_case, inspected, chosen, passes};

use dag_round_keys::look::{Look, look_place};
use models::cert::Cert;
use models::dag_point::DagPoint;
use models::place::marks_at;

// The inspector's tests of a point.
#[derive(Clone, Copy)]
pub enum PointTest {
    Found,
    Valid,
    Proved,
    TransInvalid,
    Invalid,
    IllFormed,
    Trusted,
}

// A version of a peer's point at a round: what the tests read of it.
#[derive(Clone, Copy)]
pub struct Version {
    pub look: Look,
    pub certified: bool,
    pub proved: bool,
    pub cause: bool,
}

// Which tests it passes.
#[derive(Clone, Copy)]
pub struct Passed {
    pub found: bool,
    pub valid: bool,
    pub proved: bool,
    pub trans_invalid: bool,
    pub invalid: bool,
    pub ill_formed: bool,
    pub trusted: bool,
}

impl Passed {
    pub fn new() -> Passed
        ensures { result ≡ nothing }
    {
        Passed {
            found: false,
            valid: false,
            proved: false,
            trans_invalid: false,
            invalid: false,
            ill_formed: false,
            trusted: false,
        }
    }

    // Whether this one is among them.
    pub fn by(self, test: PointTest) -> bool
        ensures { result ≡ chosen test self }
    {
        match test {
            PointTest::Found => self.found,
            PointTest::Valid => self.valid,
            PointTest::Proved => self.proved,
            PointTest::TransInvalid => self.trans_invalid,
            PointTest::Invalid => self.invalid,
            PointTest::IllFormed => self.ill_formed,
            PointTest::Trusted => self.trusted,
        }
    }
}

// The point at place q.
pub fn version_at(keys: &[u64], certs: &[u64], q: usize) -> Version
    requires { (q * 8 + 8 ≤ length keys.now) × (q < length certs.now) }
    ensures { result ≡ version_at keys.now certs.now q }
{
    let marks = marks_at(keys, q);
    let cert = Cert(certs[q]);
    let look = look_place(keys, q);
    let certified = cert.is_certified();
    let proved = cert.has_proof();
    Version {
        look,
        certified,
        proved,
        cause: marks / 4 % 2 == 1,
    }
}

impl Version {
    // The tests that it passes as a point of this case.
    fn inspect_case(self, point: DagPoint) -> Passed
        ensures { result ≡ inspect_case point self.certified self.proved self.cause }
    {
        let mut r = Passed::new();
        r.proved = self.proved;
        match point {
            DagPoint::Valid => {
                r.found = true;
                r.valid = true;
                r.trusted = true;
                r
            }
            DagPoint::TransInvalid => {
                r.found = true;
                r.trans_invalid = !self.proved && self.cause;
                r.trusted = self.certified;
                r
            }
            DagPoint::Invalid => {
                r.found = true;
                r.invalid = !self.certified && self.cause;
                r.trusted = self.certified;
                r
            }
            DagPoint::IllFormed => {
                r.found = true;
                r.ill_formed = !self.certified;
                r
            }
            DagPoint::NotFound => r,
        }
    }

    // The tests that it passes: none if it isn't resolved.
    pub fn inspect(self) -> Passed
        ensures { result ≡ inspected self }
    {
        let look = self.look;
        match look {
            Look::Resolved(_, point) => self.inspect_case(point),
            Look::Named(_) => Passed::new(),
            Look::Never => Passed::new(),
        }
    }
}

// Whether the point at place q is by this author and passes the test.
pub fn passes(keys: &[u64], certs: &[u64], q: usize, author: u32, test: PointTest) -> bool
    requires { (q * 8 + 8 ≤ length keys.now) × (q < length certs.now) }
    ensures { result ≡ passes keys.now certs.now author test q }
{
    let by = models::place::author(keys, q);
    if by != author as u64 {
        return false;
    }
    let version = version_at(keys, certs, q);
    let passed = version.inspect();
    passed.by(test)
}
