// Origin: none.
// The lines of committed anchors and of the links behind their points, from the records in an answer buffer.
ghost use Rattle.std.specs.Prelude.{◌+◌, ◌*◌, ◌≤◌, length};

use crate::text::{write, write_digest, write_number};
use models::output::{ID_BYTES, LINK_BYTES, POINT_BYTES, RECORD_BYTES, RECORD_HEAD_BYTES};
use models::parts::PointId;
use trace::anchors::{AnchorHead, AnchorSums, Word, anchor_head, anchor_sums, word_at};
use trace::bytes::id_of;

// An id after its name, with a mark between its parts.
pub fn write_id(name: &[u8], id: PointId, mark: &[u8]) {
    let round = id.round;
    let digest = id.digest;
    let words = digest.0;
    write_number(name, round.0 as u64);
    write_number(mark, id.author as u64);
    write(mark);
    write_digest(words[0], words[1], words[2], words[3]);
}

// What stands before the ids of a line: the record's head, and its sums before the number of points.
fn write_head(head: AnchorHead, sums: AnchorSums) {
    write_id(b"anchor ", head.anchor, b" ");
    write_id(b" proof ", head.proof, b" ");
    write_number(b" exec ", head.executable as u64);
    write_number(b" prev ", head.previous as u64);
    write_number(b" payload ", sums.payload_len);
    write_number(b" ", sums.payload_bytes);
    write_number(b" points ", head.points as u64);
    write(b":");
}

// The n ids from the offset on.
pub fn write_ids(b: &[u8], at: usize, n: usize)
    requires { at + n * 37 ≤ length b.now }
{
    for i in 0..n {
        let id = id_of(b, at + i * ID_BYTES);
        write_id(b" ", id, b".");
    }
}

// The word of a link, after a space; `?` for bytes that are none of the three words.
fn write_word(word: Option<Word>) {
    match word {
        Some(Word::Includes) => write(b" includes\n"),
        Some(Word::Witness) => write(b" witness\n"),
        Some(Word::Anchor) => write(b" anchor\n"),
        None => write(b" ?\n"),
    }
}

// A line for each of the n points, their ids from one offset on, what is told of them from another.
fn write_links(b: &[u8], ids: usize, told: usize, n: usize)
    requires { (ids + n * 37 ≤ length b.now) × (told + n * 45 ≤ length b.now) }
{
    for i in 0..n {
        let id = id_of(b, ids + i * ID_BYTES);
        write_id(b"link ", id, b".");
        let by = id_of(b, told + i * LINK_BYTES);
        write_id(b" by ", by, b".");
        let word = word_at(b, told + i * LINK_BYTES + ID_BYTES);
        write_word(word);
    }
}

// The lines of the record at the offset. Says where the next one begins: the end of the bytes, if no whole record stands there.
fn write_anchor(b: &[u8], at: usize) -> usize
    requires { at ≤ length b.now }
    ensures { result ≤ length b.now }
{
    let left = b.len() - at;
    if left < RECORD_BYTES {
        return b.len();
    }
    let head = anchor_head(b, at);
    let n = head.points as usize;
    if (left - RECORD_BYTES) / POINT_BYTES < n {
        return b.len();
    }
    let ids = at + RECORD_HEAD_BYTES;
    let told = ids + n * ID_BYTES;
    let sums = anchor_sums(b, told + n * LINK_BYTES);
    write_head(head, sums);
    write_ids(b, ids, n);
    write(b"\n");
    write_links(b, ids, told, n);
    at + RECORD_BYTES + n * POINT_BYTES
}

// The lines of the first n records.
pub fn write_anchors(b: &[u8], n: u32) {
    let mut at: usize = 0;
    for _ in 0..n {
        at = write_anchor(b, at);
    }
}
