// Origin: models/output.rs (AnchorData).
// The record of a committed anchor, read from the bytes of an answer buffer.
ghost use Rattle.std.specs.Prelude.{◌≡◌, ◌+◌, ◌≤◌, length};
ghost use Rattle.trace.specs.Anchors.{anchor_of, anchor_in, stands_at, word_in};
ghost use Rattle.trace.specs.Numbers.{number_at};

use crate::bytes::{byte_of, id_of, number_of, word_of};
use models::output::{
    ANCHOR, INCLUDES, RECORD_EXECUTABLE, RECORD_POINTS, RECORD_PREVIOUS, RECORD_PROOF, SUM_BYTES,
    WITNESS, WORD_BYTES,
};
use models::parts::PointId;

// What stands before the points of a record.
#[derive(Clone, Copy)]
pub struct AnchorHead {
    pub anchor: PointId,
    pub proof: PointId,
    pub executable: u32,
    pub previous: u32,
    pub points: u32,
}

// The first 83 bytes of the record at the offset.
pub fn anchor_head(b: &[u8], at: usize) -> AnchorHead
    requires { at + 83 ≤ length b.now }
    ensures { anchor_of result ≡ anchor_in b.now at }
{
    let anchor = id_of(b, at);
    let proof = id_of(b, at + RECORD_PROOF);
    let executable = byte_of(b, at + RECORD_EXECUTABLE);
    let previous = number_of(b, at + RECORD_PREVIOUS);
    let points = number_of(b, at + RECORD_POINTS);
    AnchorHead {
        anchor,
        proof,
        executable,
        previous,
        points,
    }
}

// What a record ends with: the sums over its points.
#[derive(Clone, Copy)]
pub struct AnchorSums {
    pub payload_len: u64,
    pub payload_bytes: u64,
}

// The 16 bytes at the offset, where a record's sums begin.
pub fn anchor_sums(b: &[u8], at: usize) -> AnchorSums
    requires { at + 16 ≤ length b.now }
    ensures { (result.payload_len ≡ number_at b.now at 8) × (result.payload_bytes ≡ number_at b.now (at + 8) 8) }
{
    let payload_len = word_of(b, at);
    let payload_bytes = word_of(b, at + SUM_BYTES);
    AnchorSums {
        payload_len,
        payload_bytes,
    }
}

// The words that a record tells of its points (02: N7).
#[derive(Clone, Copy, Debug, PartialEq, Eq, Hash)]
pub enum Word {
    Includes,
    Witness,
    Anchor,
}

// Whether the eight bytes stand at the offset.
fn is_word(b: &[u8], at: usize, word: &[u8; WORD_BYTES]) -> bool
    requires { at + 8 ≤ length b.now }
    ensures { result ≡ stands_at b.now at word.now }
{
    b[at..].starts_with(word)
}

// The word at the offset, by its constant bytes; `None` for other bytes.
pub fn word_at(b: &[u8], at: usize) -> Option<Word>
    requires { at + 8 ≤ length b.now }
    ensures { result ≡ word_in b.now at }
{
    if is_word(b, at, &INCLUDES) {
        return Some(Word::Includes);
    }
    if is_word(b, at, &WITNESS) {
        return Some(Word::Witness);
    }
    if is_word(b, at, &ANCHOR) {
        return Some(Word::Anchor);
    }
    None
}
