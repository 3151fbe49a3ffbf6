// Origin: none.
// Name, certify and commit as records.
ghost use Rattle.std.specs.Prelude.{ℕ, List, []};
ghost use Rattle.laws.specs.Lists.{all};
ghost use Rattle.spec.specs.Calls as calls;
ghost use Rattle.models.specs.Parts.{id_of};
ghost use Rattle.trace.specs.Write.{fits_field, id_then};
ghost use Rattle.trace_write.specs.Puts.{Puts, Said};

use crate::head::{Written, id_fits, put_head, put_point};
use answer_bytes::put_bytes;
use models::output::ID_BYTES;
use models::parts::PointId;
use trace::codes::{CERTIFY, COMMIT, NAME};
use trace::head::HEAD_FIELDS;

// A record whose fields are an id.
fn put_named(b: &mut [u8], kind: u32, id: PointId) -> Written
    ensures { (c : calls.Call) → Said c kind (all fits_field (id_then (id_of id) [])) 37 (id_then (id_of id) []) → Puts b.old c result.refused result.length b.new }
{
    let fits = id_fits(id);
    let refused = put_head(b, kind, fits, ID_BYTES);
    if refused != 0 {
        return Written { refused, length: 0 };
    }
    let length = put_point(b, HEAD_FIELDS, id);
    Written { refused, length }
}

pub fn put_name(b: &mut [u8], id: PointId) -> Written
    ensures { Puts b.old (calls.name (id_of id)) result.refused result.length b.new }
{
    put_named(b, NAME, id)
}

pub fn put_certify(b: &mut [u8], id: PointId) -> Written
    ensures { Puts b.old (calls.certify (id_of id)) result.refused result.length b.new }
{
    put_named(b, CERTIFY, id)
}

// The call's own buffer isn't in its record.
pub fn put_commit(b: &mut [u8], id: PointId, lists: &[u8]) -> Written
    ensures { (room : List ℕ) → Puts b.old (calls.commit (id_of id) lists.now room) result.refused result.length b.new }
{
    let fits = id_fits(id);
    let refused = put_head(b, COMMIT, fits, ID_BYTES + lists.len());
    if refused != 0 {
        return Written { refused, length: 0 };
    }
    let next = put_point(b, HEAD_FIELDS, id);
    let length = put_bytes(b, next, lists);
    Written { refused, length }
}
