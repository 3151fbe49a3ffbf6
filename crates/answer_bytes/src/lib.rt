// Origin: none.
// The numbers, digests and ids of answers as bytes, big-endian, in a lent buffer. Each function returns the next offset. put_* write;
// emit_* write or only count, so that one code gives the size of an answer and the answer.
#![tactic(auto)]

ghost use Rattle.std.specs.Prelude.{◌≡◌, ◌+◌, ◌*◌, ◌≤◌, length};
ghost use Rattle.laws.specs.Bytes.{be, written};
ghost use Rattle.spec.specs.Ids.{id_bytes};
ghost use Rattle.models.specs.Digest.{digest_at};
ghost use Rattle.answer_bytes.specs.Bytes.{place_id};
ghost use Rattle.answer_bytes.specs.Sent.{Room, Sent};

use models::output::{DIGEST_BYTES, ID_BYTES};
use models::place::{author, round_word};
use models::tables::{KEY_DIGEST, KEY_WORDS};

// The lowest bytes of v, as many as the width.
pub fn put_number(b: &mut [u8], at: usize, width: usize, v: u64) -> usize
    requires { at + width ≤ length b.old }
    ensures { (result ≡ at + width) × (b.new ≡ written b.old at (be width v)) }
{
    let mut x = v;
    for k in (0..width).rev() {
        b[at + k] = (x % 256) as u8;
        x /= 256;
    }
    at + width
}

// The bytes as they are.
pub fn put_bytes(b: &mut [u8], at: usize, bytes: &[u8]) -> usize
    requires { at + length bytes.now ≤ length b.old }
    ensures { (result ≡ at + length bytes.now) × (b.new ≡ written b.old at bytes.now) }
{
    // No `copy_from_slice`: it is C's `memmove`, and the library needs `memcpy` and `memset` of a host and no more.
    for k in 0..bytes.len() {
        b[at + k] = bytes[k];
    }
    at + bytes.len()
}

// The digest in four words from p on.
pub fn put_digest(b: &mut [u8], at: usize, words: &[u64], p: usize) -> usize
    requires { (at + 32 ≤ length b.old) × (p + 4 ≤ length words.now) }
    ensures { (result ≡ at + 32) × (b.new ≡ written b.old at (be 32 (digest_at words.now p))) }
{
    let w0 = words[p + 0];
    let w1 = words[p + 1];
    let w2 = words[p + 2];
    let w3 = words[p + 3];
    let a1 = put_number(b, at, 8, w0);
    let a2 = put_number(b, a1, 8, w1);
    let a3 = put_number(b, a2, 8, w2);
    put_number(b, a3, 8, w3)
}

// The 37 bytes of the id at place q.
pub fn put_id(b: &mut [u8], at: usize, keys: &[u64], q: usize) -> usize
    requires { (at + 37 ≤ length b.old) × (q * 8 + 8 ≤ length keys.now) }
    ensures { (result ≡ at + 37) × (b.new ≡ written b.old at (id_bytes (place_id keys.now q))) }
{
    let round = round_word(keys, q);
    let by = author(keys, q);
    let a1 = put_number(b, at, 4, round);
    let a2 = put_number(b, a1, 1, by);
    put_digest(b, a2, keys, q * KEY_WORDS + KEY_DIGEST)
}

// Three such functions and no generic one over what is put: a closure at each call would be no plainer.
pub fn emit_number(b: &mut [u8], at: usize, write: bool, width: usize, v: u64) -> usize
    requires { (Room write b.old at width × (at ≤ 1099511627776)) × (width ≤ 8) }
    ensures { Sent write b.old at (be width v) result b.new }
{
    if write {
        return put_number(b, at, width, v);
    }
    at + width
}

pub fn emit_digest(b: &mut [u8], at: usize, write: bool, words: &[u64], p: usize) -> usize
    requires { (Room write b.old at 32 × (at ≤ 1099511627776)) × (p + 4 ≤ length words.now) }
    ensures { Sent write b.old at (be 32 (digest_at words.now p)) result b.new }
{
    if write {
        return put_digest(b, at, words, p);
    }
    at + DIGEST_BYTES
}

pub fn emit_id(b: &mut [u8], at: usize, write: bool, keys: &[u64], q: usize) -> usize
    requires { (Room write b.old at 37 × (at ≤ 1099511627776)) × (q * 8 + 8 ≤ length keys.now) }
    ensures { Sent write b.old at (id_bytes (place_id keys.now q)) result b.new }
{
    if write {
        return put_id(b, at, keys, q);
    }
    at + ID_BYTES
}
