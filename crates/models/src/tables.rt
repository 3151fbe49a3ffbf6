// Origin: none.
// The lent tables: how many words a place has in each, where each word stands, and how much the tables hold. `specs/Tables` reads them.

// Places at most.
pub const PLACES_MAX: usize = 4096;

// The same for a word of a table, here and below: a cast at each use would say no more.
pub const PLACES_MAX_WORD: u64 = PLACES_MAX as u64;

// Retained rounds at most.
pub const ROUNDS_MAX: usize = 512;

// The same for a round's number: its record stands at the number modulo this.
pub const ROUND_SLOTS: u32 = ROUNDS_MAX as u32;

// The same for a word of a table.
pub const ROUND_SLOTS_WORD: u64 = ROUNDS_MAX as u64;

pub const PEERS_MAX: usize = 32;

// The same for a peer's number, which is below this.
pub const PEER_SLOTS: u32 = PEERS_MAX as u32;

// The same for a word of a table.
pub const PEER_SLOTS_WORD: u64 = PEERS_MAX as u64;

// A peer's number at most.
pub const PEER_LAST: u32 = PEER_SLOTS - 1;

// The same for a word of a table.
pub const PEER_LAST_WORD: u64 = PEER_SLOTS_WORD - 1;

// Digests of one author in one round at most.
pub const VERSIONS_MAX: usize = 4;

// Points of one round at most.
pub const ROUND_POINTS_MAX: usize = PEERS_MAX * VERSIONS_MAX;

// A round's number at most.
pub const ROUND_MAX: u32 = 4_000_000_000;

pub const DIGEST_WORDS: usize = 4;

// Words of `keys` a place: round, author, digest, status, marks.
pub const KEY_WORDS: usize = 8;

pub const KEY_ROUND: usize = 0;

pub const KEY_AUTHOR: usize = 1;

pub const KEY_DIGEST: usize = 2;

pub const KEY_STATUS: usize = 6;

pub const KEY_MARKS: usize = 7;

// Words of `links` a place: eight of what its point was resolved as, then the target word of each link, then the digest of each.
pub const LINK_WORDS: usize = 328;

pub const HEAD_WORDS: usize = 8;

pub const LINK_EVIDENCE: usize = 0;

// Round, author and digest of the top proof.
pub const LINK_TOP_ROUND: usize = 1;

pub const LINK_TOP_AUTHOR: usize = 2;

pub const LINK_TOP_DIGEST: usize = 3;

// `payload_len` in the upper 32 bits, `payload_bytes` in the lower.
pub const LINK_PAYLOAD: usize = 7;

pub const LINK_TARGETS: usize = 8;

pub const LINK_DIGESTS: usize = 72;

// Links of a place, the includes first, one for each peer, then the witness.
pub const LINKS_MAX: usize = 2 * PEERS_MAX;

// Words of a link lent to a resolution: peer, digest.
pub const REF_WORDS: usize = 5;

pub const REF_PEER: usize = 0;

pub const REF_DIGEST: usize = 1;

// Words of `certs` and of `order` a place.
pub const CERT_WORDS: usize = 1;

pub const ORDER_WORDS: usize = 1;

// Words of the inspector's row of a point: author, digest, target word of its previous point, digest of that, set of peers.
pub const ROW_WORDS: usize = 11;

pub const ROW_AUTHOR: usize = 0;

pub const ROW_DIGEST: usize = 1;

pub const ROW_PREVIOUS: usize = 5;

pub const ROW_SIGNED: usize = 6;

pub const ROW_PEERS: usize = 10;

// Words of the rows of one round.
pub const ROWS_WORDS: usize = ROUND_POINTS_MAX * ROW_WORDS;
