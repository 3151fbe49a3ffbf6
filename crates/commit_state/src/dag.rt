// Origin: dag/commit/back.rs (DagBack).
// The state and the lent tables, as the functions take them that only read. That the words of keys and links are words of 64 bits is said
// here once.
ghost use Rattle.models.specs.Digest.{Fit};

use crate::state::State;

#[derive(Clone, Copy)]
pub struct Dag<'a> {
    pub state: &'a State,
    pub keys: &'a [u64],
    pub links: &'a [u64],
    pub certs: &'a [u64],
    pub order: &'a [u64],
    ghost keys_fit: { Fit keys.now },
    ghost links_fit: { Fit links.now },
}
