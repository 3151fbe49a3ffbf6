// Origin: models/output.rs (AnchorData).
// The sizes of what is written, and the offsets in it, in bytes.

// A number of things.
pub const COUNT_BYTES: usize = 4;

// A sum over points.
pub const SUM_BYTES: usize = 8;

pub const DIGEST_BYTES: usize = 32;

// A point id: round (4), author (1), digest (32).
pub const ID_BYTES: usize = 37;

pub const ID_AUTHOR: usize = 4;

pub const ID_DIGEST: usize = 5;

// An anchor record without its points: two ids, executable (1), previous anchor (4), number of points (4), two sums (8 each).
pub const RECORD_BYTES: usize = 99;

// A word that is told of a link, filled with zero bytes.
pub const WORD_BYTES: usize = 8;

// 02, N7: "the word `includes` or `witness`, words filled with zero bytes to 8", "the word `anchor`".
pub const INCLUDES: [u8; WORD_BYTES] = *b"includes";

pub const WITNESS: [u8; WORD_BYTES] = *b"witness\0";

pub const ANCHOR: [u8; WORD_BYTES] = *b"anchor\0\0";

// What is told of a point: the id of the point behind it, a word.
pub const LINK_BYTES: usize = ID_BYTES + WORD_BYTES;

// What a record has for each point: its id, and what is told of it.
pub const POINT_BYTES: usize = ID_BYTES + LINK_BYTES;

// An anchor record up to its points' ids.
pub const RECORD_HEAD_BYTES: usize = 83;

pub const RECORD_PROOF: usize = ID_BYTES;

pub const RECORD_EXECUTABLE: usize = 74;

pub const RECORD_PREVIOUS: usize = 75;

pub const RECORD_POINTS: usize = 79;

// An anchor of an outlook up to its counts: id, number of points (4).
pub const LOOK_BYTES: usize = ID_BYTES + COUNT_BYTES;

pub const LOOK_POINTS: usize = ID_BYTES;

// The stats of a peer: its number (1), first and last round (4 each), nine counters (2 each), score (4).
pub const PEER_BYTES: usize = 31;

pub const PEER_FIRST_ROUND: usize = 1;

pub const PEER_LAST_ROUND: usize = 5;

pub const PEER_COUNTERS: usize = 9;

pub const PEER_SCORE: usize = 27;

// An event of one point: its kind (1), the id.
pub const SINGLE_BYTES: usize = SINGLE_ID + ID_BYTES;

pub const SINGLE_ID: usize = 1;

// An event of several without their digests or ids. Kind 4: kind (1), author (1), round (4), number of digests (4). Kind 5: kind (1),
// signer (1), number of blamed ids (4), those ids, number of proofs (4).
pub const EVENT_HEAD_BYTES: usize = 10;

// The author or the signer.
pub const EVENT_PEER: usize = 1;

pub const EVENT_ROUND: usize = 2;

pub const EVENT_DIGEST_COUNT: usize = 6;

pub const EVENT_BLAMED_COUNT: usize = 2;

pub const EVENT_BLAMED: usize = 6;
