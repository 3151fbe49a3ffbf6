// Origin: none.
// Where a record stands, and its kind.
ghost use Rattle.std.specs.Prelude.{◌≡◌, true, ◌+◌, ◌≤◌, length};
ghost use Rattle.trace.specs.Head.{rest_at, whole_at, head_at, least_left};

use crate::bytes::{byte_of, number_of};
use crate::codes::whole_code;
use models::refusal::BAD_RECORD;

// The length of the rest, which a record begins with.
pub const LENGTH_BYTES: usize = 4;

// The rest at most: version (1), kind (1), fields.
pub const REST_MAX: usize = 4096;

pub const RECORD_MAX: usize = LENGTH_BYTES + REST_MAX;

pub const HEAD_VERSION: usize = 4;

pub const HEAD_KIND: usize = 5;

pub const HEAD_FIELDS: usize = 6;

// The fields are bytes[from..end], and the next record begins at end. code: the number that the record is refused with, 0 for none. A record
// that is refused has kind 0, and both offsets are its own: its clause says so, and so it is no Result.
#[derive(Clone, Copy)]
pub struct Record {
    pub code: u32,
    pub kind: u32,
    pub from: usize,
    pub end: usize,
}

// Whether a length of the rest and as many bytes stand at the offset.
fn whole_at(bytes: &[u8], at: usize) -> bool
    ensures { result ≡ whole_at bytes.now at }
{
    let n = bytes.len();
    if n < LENGTH_BYTES {
        return false;
    }
    if n - LENGTH_BYTES < at {
        return false;
    }
    let rest = number_of(bytes, at) as usize;
    if rest < 2 {
        return false;
    }
    if REST_MAX < rest {
        return false;
    }
    rest <= n - LENGTH_BYTES - at
}

// The record at the offset, where it is whole.
fn whole_record(bytes: &[u8], at: usize, rest: usize, bench: bool) -> Record
    requires at_value { whole_at bytes.now at ≡ true }
    requires rest_value { (rest ≡ rest_at bytes.now at) × (2 ≤ rest) × (at + 4 + rest ≤ length bytes.now) }
    ensures { result ≡ head_at bench bytes.now at }
{
    let code = whole_code(bytes, at, rest, bench);
    if code != 0 {
        return Record {
            code,
            kind: 0,
            from: at,
            end: at,
        };
    }
    let kind = byte_of(bytes, at + HEAD_KIND);
    Record {
        code: 0,
        kind,
        from: at + HEAD_FIELDS,
        end: at + LENGTH_BYTES + rest,
    }
}

// The record at the offset; bench: whether the bench's outlook is known.
pub fn record_at(bytes: &[u8], at: usize, bench: bool) -> Record
    ensures { result ≡ head_at bench bytes.now at }
{
    if !whole_at(bytes, at) {
        return Record {
            code: BAD_RECORD,
            kind: 0,
            from: at,
            end: at,
        };
    }
    let rest = number_of(bytes, at) as usize;
    whole_record(bytes, at, rest, bench)
}

// How many bytes must be left for a record to be played: 4,100, the most that a record has, unless the bytes are the last.
pub fn least_left(last: bool) -> usize
    ensures { result ≡ least_left last }
{
    if last { 1 } else { RECORD_MAX }
}
