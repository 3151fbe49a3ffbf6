// Origin: none.
// What is told of a point of a record (02: N7): the id of the point behind it, and the word of the link.
ghost use Rattle.std.specs.Prelude.{◌≡◌, ◌+◌, ◌*◌, ◌<◌, ◌≤◌, eqb, length, get_or};
ghost use Rattle.laws.specs.Bytes.{written};
ghost use Rattle.models.specs.Tables.{round_at};
ghost use Rattle.output_record.specs.Links.{link_of};

use answer_bytes::{put_bytes, put_id};
use models::output::{ANCHOR, INCLUDES, WITNESS};
use models::place::round_word;
use models::tables::PLACES_MAX;

// Whether place p stands one round above place q.
fn is_next(keys: &[u64], q: usize, p: usize) -> bool
    requires { (q * 8 + 8 ≤ length keys.now) × (p * 8 + 8 ≤ length keys.now) }
    ensures { result ≡ eqb (round_at keys.now q + 1) (round_at keys.now p) }
{
    let here = round_word(keys, q);
    let up = round_word(keys, p);
    up.checked_sub(here) == Some(1)
}

// The 45 bytes of the point at place q, from what is noted for it: a place plus 1, or 0 where it "stands with itself". Includes lead one
// round down, witness two.
pub fn put_link(b: &mut [u8], at: usize, keys: &[u64], by: &[u16; PLACES_MAX], q: usize) -> usize
    requires { (at + 45 ≤ length b.old) × (q < 4096) × (q * 8 + 8 ≤ length keys.now) × (get_or by.now q 0 * 8 ≤ length keys.now) }
    ensures { (result ≡ at + 45) × (b.new ≡ written b.old at (link_of keys.now by.now q)) }
{
    let noted = by[q];
    if noted == 0 {
        let next = put_id(b, at, keys, q);
        return put_bytes(b, next, &ANCHOR);
    }
    let p = noted as usize - 1;
    let next = put_id(b, at, keys, p);
    if is_next(keys, q, p) {
        return put_bytes(b, next, &INCLUDES);
    }
    put_bytes(b, next, &WITNESS)
}
