// Origin: none.
// What an emitter takes and returns.

// The next offset, and how many events (ids, digests) there are up to it.
#[derive(Clone, Copy)]
pub struct Emitted {
    pub at: usize,
    pub count: usize,
}
