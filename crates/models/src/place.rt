// Origin: none.
// The words of a place in `keys` and `links`, one reader for each, and what is read from them alone: its case, its live links, its previous
// point and its top proof.
ghost use Rattle.std.specs.Prelude.{◌+◌, ◌*◌, ◌<◌, ◌≤◌, ◌≡◌, length, get_or};
ghost use Rattle.models.specs.DagPoint.{case_of};
ghost use Rattle.models.specs.Tables.{round_at, author_at, status_at, marks_at, payload_at, target_at};
ghost use Rattle.models.specs.Live.{reach};
ghost use Rattle.models.specs.Ids.{id_from, has_previous, previous_id, top_id, Placed, Topped};

use crate::dag_point::{DagPoint, of_status};
use crate::parts::{Digest, PointId, Round};
use crate::tables::{
    DIGEST_WORDS, KEY_AUTHOR, KEY_MARKS, KEY_ROUND, KEY_STATUS, KEY_WORDS, LINK_DIGESTS,
    LINK_PAYLOAD, LINK_TARGETS, LINK_TOP_AUTHOR, LINK_TOP_DIGEST, LINK_TOP_ROUND, LINK_WORDS,
    LINKS_MAX, PEERS_MAX,
};

// The round of place i.
pub fn round_word(keys: &[u64], i: usize) -> u64
    requires { i * 8 + 8 ≤ length keys.now }
    ensures { result ≡ round_at keys.now i }
{
    keys[i * KEY_WORDS + KEY_ROUND]
}

// The same as a round: of a used place it is in its range.
pub fn round_at(keys: &[u64], q: usize) -> Round
    requires { (q * 8 + 8 ≤ length keys.now) × (round_at keys.now q ≤ 4000000000) }
    ensures { result.0 ≡ round_at keys.now q }
{
    Round(round_word(keys, q) as u32)
}

// The author of place i.
pub fn author(keys: &[u64], i: usize) -> u64
    requires { i * 8 + 8 ≤ length keys.now }
    ensures { result ≡ author_at keys.now i }
{
    keys[i * KEY_WORDS + KEY_AUTHOR]
}

// The status of place i; 0 if its point is not resolved.
pub fn status(keys: &[u64], i: usize) -> u64
    requires { i * 8 + 8 ≤ length keys.now }
    ensures { result ≡ status_at keys.now i }
{
    keys[i * KEY_WORDS + KEY_STATUS]
}

// The case of the point at place i; none if it is named and not resolved.
pub fn case_at(keys: &[u64], i: usize) -> Option<DagPoint>
    requires { i * 8 + 8 ≤ length keys.now }
    ensures { result ≡ case_of (status_at keys.now i) }
{
    of_status(status(keys, i))
}

// The marks of place i.
pub fn marks_at(keys: &[u64], i: usize) -> u64
    requires { i * 8 + 8 ≤ length keys.now }
    ensures { result ≡ marks_at keys.now i }
{
    keys[i * KEY_WORDS + KEY_MARKS]
}

// Word f of place q, of the eight before its links.
pub fn head_word(links: &[u64], q: usize, f: usize) -> u64
    requires { (q * 328 + 328 ≤ length links.now) × (f < 8) }
    ensures { result ≡ get_or links.now (q * 328 + f) 0 }
{
    links[q * LINK_WORDS + f]
}

// The payload word of place q: `payload_len` in the upper 32 bits, `payload_bytes` in the lower.
pub fn payload(links: &[u64], q: usize) -> u64
    requires { q * 328 + 328 ≤ length links.now }
    ensures { result ≡ payload_at links.now q }
{
    links[q * LINK_WORDS + LINK_PAYLOAD]
}

// The target word of link k of place q: 0 for no link, else 1 + the place that it leads to.
pub fn target(links: &[u64], q: usize, k: usize) -> u64
    requires { (q * 328 + 328 ≤ length links.now) × (k < 64) }
    ensures { result ≡ target_at links.now q k }
{
    links[q * LINK_WORDS + LINK_TARGETS + k]
}

// How many links of place q are live.
pub fn live_links(keys: &[u64], bottom: Round, q: usize) -> usize
    requires { q * 8 + 8 ≤ length keys.now }
    ensures value { result ≡ reach bottom.0 keys.now q }
    ensures upper_bound { result ≤ 64 }
{
    let case = case_at(keys, q);
    match case {
        None => 0,
        Some(_) => {
            let r = round_word(keys, q);
            let b = bottom.0 as u64;
            if r < b + 1 {
                return 0;
            }
            if r < b + 2 {
                return PEERS_MAX;
            }
            LINKS_MAX
        }
    }
}

// The id with this round and author and the digest in the four words from `at` on.
fn id_from(t: &[u64], at: usize, round: Round, author: u32) -> PointId
    requires { at + 4 ≤ length t.now }
    ensures { result ≡ id_from t.now at round.0 author }
{
    let x = t[at + 0];
    let y = t[at + 1];
    let z = t[at + 2];
    let w = t[at + 3];
    PointId {
        round,
        author,
        digest: Digest([x, y, z, w]),
    }
}

// Whether the point at place q has a previous point: an include under its own author.
pub fn has_previous(keys: &[u64], links: &[u64], q: usize) -> bool
    requires { Placed keys.now links.now q }
    ensures { result ≡ has_previous keys.now links.now q }
{
    let k = laws::slot(author(keys, q));
    0 < target(links, q, k)
}

// The id of that point, which is of this round.
pub fn previous(keys: &[u64], links: &[u64], q: usize, round: Round) -> PointId
    requires { Placed keys.now links.now q }
    ensures { result ≡ previous_id keys.now links.now q round.0 }
{
    let by = author(keys, q);
    let k = laws::slot(by);
    id_from(
        links,
        q * LINK_WORDS + LINK_DIGESTS + k * DIGEST_WORDS,
        round,
        by as u32,
    )
}

// The id of the top proof of the point at place q.
pub fn top_proof(links: &[u64], q: usize) -> PointId
    requires { Topped links.now q }
    ensures { result ≡ top_id links.now q }
{
    let round = head_word(links, q, LINK_TOP_ROUND) as u32;
    let author = head_word(links, q, LINK_TOP_AUTHOR) as u32;
    id_from(
        links,
        q * LINK_WORDS + LINK_TOP_DIGEST,
        Round(round),
        author,
    )
}
