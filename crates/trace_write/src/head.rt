// Origin: none.
// What all records share: the answer, the refusals with the first six bytes, and ids.
ghost use Rattle.std.specs.Prelude.{◌≡◌, ◌+◌, ◌≤◌, [], length};
ghost use Rattle.laws.specs.Lists.{all};
ghost use Rattle.laws.specs.Bytes.{written};
ghost use Rattle.spec.specs.Ids.{id_bytes};
ghost use Rattle.spec.specs.Store.{bit};
ghost use Rattle.models.specs.Parts.{id_of};
ghost use Rattle.trace.specs.Write.{fits_field, id_then};
ghost use Rattle.trace_write.specs.Puts.{Opened};

use answer_bytes::{put_digest, put_number};
use models::parts::PointId;
use models::refusal::{BAD_RECORD, NO_ROOM};
use trace::head::{HEAD_FIELDS, REST_MAX};

// Version and kind, which the rest begins with.
const REST_HEAD: usize = 2;

const VERSION: u64 = 1;

// The most that one byte holds.
pub const BYTE_MAX: u32 = 255;

// refused: 26, 21 or 0 for none. length: of the record, 0 if refused.
#[repr(C)]
#[derive(Clone, Copy)]
pub struct Written {
    pub refused: u32,
    pub length: usize,
}

// Writes length of the rest, version and kind of a record with so many bytes of fields, or returns what it is refused with: 26 if a field
// or the rest doesn't fit, "then with 21 a short buffer".
pub fn put_head(b: &mut [u8], kind: u32, fits: bool, fields: usize) -> u32
    ensures { Opened kind fits fields b.old result b.new }
{
    if !fits {
        return BAD_RECORD;
    }
    if REST_MAX - REST_HEAD < fields {
        return BAD_RECORD;
    }
    if b.len() < HEAD_FIELDS + fields {
        return NO_ROOM;
    }
    let version = put_number(b, 0, 4, (REST_HEAD + fields) as u64);
    let at = put_number(b, version, 1, VERSION);
    put_number(b, at, 1, kind as u64);
    0
}

// A flag or a mark: its weight, or 0.
pub fn mark(weight: u64, on: bool) -> u64
    ensures { (result ≡ bit weight on) × (result ≤ weight) }
{
    if on { weight } else { 0 }
}

// Whether the author fits a byte.
pub fn id_fits(id: PointId) -> bool
    ensures { result ≡ all fits_field (id_then (id_of id) []) }
{
    id.author <= BYTE_MAX
}

// The 37 bytes of the id.
pub fn put_point(b: &mut [u8], at: usize, id: PointId) -> usize
    requires { at + 37 ≤ length b.old }
    ensures { (result ≡ at + 37) × (b.new ≡ written b.old at (id_bytes (id_of id))) }
{
    let digest = id.digest;
    let words = digest.0;
    let author = put_number(b, at, 4, id.round.0 as u64);
    let next = put_number(b, author, 1, id.author as u64);
    put_digest(b, next, &words, 0)
}
