// Origin: none.
// The number that a record is refused with.
ghost use Rattle.std.specs.Prelude.{◌≡◌, ◌+◌, ◌*◌, ◌≤◌, cond, true, false, eqb, length};
ghost use Rattle.trace.specs.Head.{links_in, rest_at, whole_at, kind_code, code_at};

use crate::bytes::byte_of;
use crate::fields::{
    DROP_BYTES, INFO_BYTES, INFO_INCLUDES, INFO_WITNESS, REF_BYTES, REMOVE_BYTES, ROUND_BYTES,
    START_BYTES,
};
use crate::head::{HEAD_FIELDS, HEAD_KIND, HEAD_VERSION, LENGTH_BYTES};
use models::output::ID_BYTES;
use models::refusal::{BAD_RECORD, UNKNOWN_RECORD};

// The kinds of a trace.
pub const START: u32 = 1;

pub const ROUND: u32 = 2;

pub const NAME: u32 = 3;

pub const RESOLVE: u32 = 4;

pub const CERTIFY: u32 = 5;

pub const COMMIT: u32 = 6;

pub const REMOVE: u32 = 7;

pub const DROP: u32 = 8;

pub const GAP: u32 = 9;

pub const RESET: u32 = 10;

// The kind of an outlook, which only the bench's programs know.
pub const OUTLOOK: u32 = 11;

// Whether the fields of a resolution have their length.
fn resolve_fits(f: &[u8]) -> bool
    ensures { result ≡ eqb (length f.now) (90 + 33 * links_in f.now) }
{
    let n = f.len();
    if n < INFO_BYTES {
        return false;
    }
    let includes = byte_of(f, INFO_INCLUDES) as usize;
    let witness = byte_of(f, INFO_WITNESS) as usize;
    n == INFO_BYTES + REF_BYTES * (includes + witness)
}

// Of fields that have the length of their kind or not.
fn length_code(fits: bool) -> u32
    ensures { result ≡ cond fits 0 26 }
{
    if fits { 0 } else { BAD_RECORD }
}

// Of the fields of a kind byte.
fn fields_code(kind: u32, f: &[u8]) -> u32
    ensures { result ≡ kind_code false kind f.now }
{
    let n = f.len();
    match kind {
        1 => length_code(n == START_BYTES),
        2 => length_code(n == ROUND_BYTES),
        3 => length_code(n == ID_BYTES),
        4 => length_code(resolve_fits(f)),
        5 => length_code(n == ID_BYTES),
        6 => length_code(ID_BYTES <= n),
        7 => length_code(n == REMOVE_BYTES),
        8 => length_code(n == DROP_BYTES),
        9 => length_code(n == 0),
        10 => length_code(n == 0),
        _ => UNKNOWN_RECORD,
    }
}

// The same, where the bench's outlook is known.
fn bench_code(kind: u32, f: &[u8]) -> u32
    ensures { result ≡ kind_code true kind f.now }
{
    if kind == OUTLOOK {
        return length_code(f.len() == ID_BYTES);
    }
    fields_code(kind, f)
}

// Of the record at the offset, where it is whole; bench: whether the bench's outlook is known.
pub fn whole_code(bytes: &[u8], at: usize, rest: usize, bench: bool) -> u32
    requires at_value { whole_at bytes.now at ≡ true }
    requires rest_value { (rest ≡ rest_at bytes.now at) × (2 ≤ rest) × (at + 4 + rest ≤ length bytes.now) }
    ensures { result ≡ code_at bench bytes.now at }
{
    let version = byte_of(bytes, at + HEAD_VERSION);
    if version != 1 {
        return UNKNOWN_RECORD;
    }
    let kind = byte_of(bytes, at + HEAD_KIND);
    let from = at + HEAD_FIELDS;
    let end = at + LENGTH_BYTES + rest;
    if bench {
        return bench_code(kind, &bytes[from..end]);
    }
    fields_code(kind, &bytes[from..end])
}
