// Origin: none.
// A resolution as a record.
ghost use Rattle.std.specs.Prelude.{◌≡◌, ◌+◌, ◌*◌, ◌≤◌, [], ◌∷◌, length};
ghost use Rattle.laws.specs.Lists.{all};
ghost use Rattle.laws.specs.Bytes.{written};
ghost use Rattle.models.specs.Info.{ref_at, refs_of};
ghost use Rattle.models.specs.Parts.{id_of};
ghost use Rattle.trace.specs.Write.{field_bytes, fits_field, link_fields};
ghost use Rattle.trace_write.specs.Resolve.{PutsResolve, told, resolve_fits, marks_in, count_fields, info_fields, payload_fields};

use crate::head::{BYTE_MAX, Written, id_fits, mark, put_head, put_point};
use answer_bytes::{put_digest, put_number};
use models::info::PointInfo;
use models::parts::PointId;
use models::refusal::BAD_RECORD;
use models::tables::{REF_DIGEST, REF_PEER, REF_WORDS};
use trace::codes::RESOLVE;
use trace::fields::{INFO_BYTES, REF_BYTES};
use trace::head::HEAD_FIELDS;

// The most that one byte holds, of a link's peer and of a number of links.
const PEER_MAX: u64 = 255;

const LINKS_MAX: usize = 255;

// Whether the peers of the first n links fit a byte.
fn peers_fit(refs: &[u64], n: usize) -> bool
    requires { n * 5 ≤ length refs.now }
    ensures { result ≡ all fits_field (link_fields (refs_of refs.now 0 n)) }
{
    (0..n).all(|k| refs[k * REF_WORDS + REF_PEER] <= PEER_MAX)
}

fn put_link(b: &mut [u8], at: usize, refs: &[u64], k: usize) -> usize
    requires { (at + 33 ≤ length b.old) × (k * 5 + 5 ≤ length refs.now) }
    ensures { (result ≡ at + 33) × (b.new ≡ written b.old at (field_bytes (link_fields (ref_at refs.now k ∷ [])))) }
{
    let peer = refs[k * REF_WORDS + REF_PEER];
    let next = put_number(b, at, 1, peer);
    put_digest(b, next, refs, k * REF_WORDS + REF_DIGEST)
}

// The first n links, 33 bytes each.
fn put_links(b: &mut [u8], at: usize, refs: &[u64], n: usize) -> usize
    requires { (at + n * 33 ≤ length b.old) × (n * 5 ≤ length refs.now) }
    ensures { (result ≡ at + n * 33) × (b.new ≡ written b.old at (field_bytes (link_fields (refs_of refs.now 0 n)))) }
{
    let mut next = at;
    for k in 0..n {
        next = put_link(b, next, refs, k);
    }
    next
}

// Whether each number of links fits a byte, and as many words are lent.
fn links_told(includes: usize, witness: usize, words: usize) -> bool
    ensures { result ≡ told includes witness words }
{
    if LINKS_MAX < includes {
        return false;
    }
    if LINKS_MAX < witness {
        return false;
    }
    words == (includes + witness) * REF_WORDS
}

// Whether what may not fit does: the authors, the status and the links' peers.
fn resolve_fits(id: PointId, info: PointInfo, refs: &[u64], n: usize) -> bool
    requires { n * 5 ≤ length refs.now }
    ensures { result ≡ resolve_fits (id_of id) info refs.now n }
{
    let top_proof = info.top_proof;
    if !id_fits(id) {
        return false;
    }
    if !id_fits(top_proof) {
        return false;
    }
    if BYTE_MAX < info.status {
        return false;
    }
    peers_fit(refs, n)
}

// "marks (bits 0 to 2)"
fn marks_of(info: PointInfo) -> u64
    ensures { result ≡ marks_in info }
{
    let proof = mark(1, info.proof);
    let trigger = mark(2, info.trigger);
    let cause = mark(4, info.cause);
    proof + trigger + cause
}

// Evidence, number of includes and number of witness.
fn put_counts(b: &mut [u8], at: usize, info: PointInfo) -> usize
    requires { at + 6 ≤ length b.old }
    ensures { (result ≡ at + 6) × (b.new ≡ written b.old at (field_bytes (count_fields info))) }
{
    let includes = put_number(b, at, 4, info.evidence as u64);
    let witness = put_number(b, includes, 1, info.includes as u64);
    put_number(b, witness, 1, info.witness as u64)
}

// What stands before the links.
fn put_info(b: &mut [u8], at: usize, id: PointId, info: PointInfo) -> usize
    requires { at + 82 ≤ length b.old }
    ensures { (result ≡ at + 82) × (b.new ≡ written b.old at (field_bytes (info_fields (id_of id) info))) }
{
    let top_proof = info.top_proof;
    let marks = marks_of(info);
    let status = put_point(b, at, id);
    let next = put_number(b, status, 1, info.status as u64);
    let top = put_number(b, next, 1, marks);
    let counts = put_point(b, top, top_proof);
    put_counts(b, counts, info)
}

// What stands behind them.
fn put_payload(b: &mut [u8], at: usize, info: PointInfo) -> usize
    requires { at + 8 ≤ length b.old }
    ensures { (result ≡ at + 8) × (b.new ≡ written b.old at (field_bytes (payload_fields info))) }
{
    let bytes = put_number(b, at, 4, info.payload_len as u64);
    put_number(b, bytes, 4, info.payload_bytes as u64)
}

// refs: the links, five words each, peer and digest, the includes first. 26 too if they aren't as many as told.
pub fn put_resolve(b: &mut [u8], id: PointId, info: PointInfo, refs: &[u64]) -> Written
    ensures { PutsResolve b.old (id_of id) info refs.now result.refused result.length b.new }
{
    if !links_told(info.includes, info.witness, refs.len()) {
        return Written {
            refused: BAD_RECORD,
            length: 0,
        };
    }
    let n = info.includes + info.witness;
    let fits = resolve_fits(id, info, refs, n);
    let refused = put_head(b, RESOLVE, fits, INFO_BYTES + REF_BYTES * n);
    if refused != 0 {
        return Written { refused, length: 0 };
    }
    let links = put_info(b, HEAD_FIELDS, id, info);
    let payload = put_links(b, links, refs, n);
    let length = put_payload(b, payload, info);
    Written { refused, length }
}
