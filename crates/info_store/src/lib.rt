// Origin: models/point/info.rs (PointInfo), models/dag_point.rs (DagPoint).
// What a resolution gives is written into the place of its point, each link with the place that it leads to.
#![tactic(auto)]

ghost use Rattle.std.specs.Prelude.{◌≡◌, true, ◌+◌, ◌-◌, ◌*◌, ◌<◌, ◌≤◌, length};
ghost use Rattle.spec.specs.Store.{bit};
ghost use Rattle.spec.specs.Rules.{well_formed};
ghost use Rattle.models.specs.Info.{info_of};
ghost use Rattle.models.specs.Tables.{round_at};
ghost use Rattle.dag_round_points.specs.Model.{Ready};
ghost use Rattle.info_checks.specs.Form.{Peers};
ghost use Rattle.info_store.specs.Model.{marks_of, head_words, target_of, link_put, links_put, stored_keys, stored_links};

use commit_state::state::State;
use models::info::PointInfo;
use models::parts::Round;
use models::tables::{
    DIGEST_WORDS, HEAD_WORDS, KEY_MARKS, KEY_STATUS, KEY_WORDS, LINK_DIGESTS, LINK_TARGETS,
    LINK_WORDS, PEER_SLOTS, REF_DIGEST, REF_WORDS,
};

// The bit of weight w, if it is set.
fn weight(w: u64, set: bool) -> u64
    ensures { result ≡ bit w set }
{
    if set { w } else { 0 }
}

// The marks as one word.
fn marks(proof: bool, trigger: bool, cause: bool) -> u64
    ensures { result ≡ marks_of proof trigger cause }
{
    let p = weight(1, proof);
    let t = weight(2, trigger);
    let c = weight(4, cause);
    p + t + c
}

// The evidence, the top proof and the payload, as the first words of a place.
fn head_words(info: PointInfo) -> [u64; HEAD_WORDS]
    ensures { result ≡ head_words info }
{
    let top = info.top_proof;
    let round = top.round;
    let digest = top.digest;
    let d = digest.0;
    let e = info.evidence as u64;
    let r = round.0 as u64;
    let a = top.author as u64;
    let payload = info.payload_len as u64 * 4294967296 + info.payload_bytes as u64;
    [e, r, a, d[0], d[1], d[2], d[3], payload]
}

// The target word of link j, which leads d rounds down from this round: 1 + the place of its point, or 1 where the round is not retained.
fn target_word(
    s: &State,
    keys: &[u64],
    order: &[u64],
    refs: &[u64],
    j: usize,
    d: u32,
    round: Round,
) -> u64
    requires ready { Ready s.now keys.now order.now }
    requires j_in_bounds { (j * 5 + 5 ≤ length refs.now) × (d ≤ 2) }
    ensures { result ≡ target_of s.now keys.now order.now refs.now d round.0 j }
{
    let bottom = s.bottom;
    if (round.0 as u64) < bottom.0 as u64 + d as u64 {
        return 1;
    }
    let at = info_checks::find_link(s, keys, order, refs, j, Round(round.0 - d));
    let n = s.count;
    if n <= at {
        return 1;
    }
    let q = dag_round_keys::place(order, n, at);
    q as u64 + 1
}

// Writes link j of the lent links as link k of place q.
fn put_link(links: &mut [u64], q: usize, k: usize, target: u64, refs: &[u64], j: usize)
    requires { (q * 328 + 328 ≤ length links.old) × (k < 64) × (j * 5 + 5 ≤ length refs.now) }
    ensures { links.new ≡ link_put links.old q k target refs.now j }
{
    links[q * LINK_WORDS + LINK_TARGETS + k] = target;
    dag_round_keys::copy_words(
        links,
        q * LINK_WORDS + LINK_DIGESTS + k * DIGEST_WORDS,
        refs,
        j * REF_WORDS + REF_DIGEST,
        DIGEST_WORDS,
    );
}

// Writes the m lent links from `from` on, which lead d rounds down from this round, into place q.
fn put_links(
    s: &State,
    keys: &[u64],
    links: &mut [u64],
    order: &[u64],
    q: usize,
    refs: &[u64],
    from: usize,
    m: usize,
    d: u32,
    round: Round,
)
    requires ready { Ready s.now keys.now order.now }
    requires q_in_bounds { (q * 328 + 328 ≤ length links.old) × ((from + m) * 5 ≤ length refs.now) × (1 ≤ d) × (d ≤ 2) }
    requires peers { Peers refs.now from m }
    ensures { links.new ≡ links_put (target_of s.now keys.now order.now refs.now d round.0)
        links.old q ((d - 1) * 32) refs.now from m }
{
    let base = ((d - 1) * PEER_SLOTS) as usize;
    for j in from..from + m {
        let peer = laws::slot(info_checks::peer(refs, j));
        let to = target_word(s, keys, order, refs, j, d, round);
        put_link(links, q, base + peer, to, refs, j);
    }
}

// Writes evidence, top proof, payload and links into place q, of a point of this round, after zeros: a free place may hold anything.
fn store_links(
    s: &State,
    keys: &[u64],
    links: &mut [u64],
    order: &[u64],
    q: usize,
    round: Round,
    info: PointInfo,
    refs: &[u64],
)
    requires ready { Ready s.now keys.now order.now }
    requires links_len { (length links.old ≡ length order.now * 328) × (q < length order.now) }
    requires q_value { (round_at keys.now q ≡ round.0) × (well_formed round.0 (info_of info refs.now) ≡ true) }
    ensures { links.new ≡ stored_links s.now keys.now links.old order.now q info refs.now }
{
    let i = info.includes;
    let w = info.witness;
    let head = head_words(info);
    dag_round_keys::zero_words(links, q * LINK_WORDS, LINK_WORDS);
    dag_round_keys::copy_words(links, q * LINK_WORDS, &head, 0, HEAD_WORDS);
    put_links(s, keys, links, order, q, refs, 0, i, 1, round);
    put_links(s, keys, links, order, q, refs, i, w, 2, round);
}

// Writes the status and the marks into place q.
fn store_status(keys: &mut [u64], q: usize, info: PointInfo)
    requires { q * 8 + 8 ≤ length keys.old }
    ensures { keys.new ≡ stored_keys keys.old q info }
{
    let word = marks(info.proof, info.trigger, info.cause);
    keys[q * KEY_WORDS + KEY_STATUS] = info.status as u64;
    keys[q * KEY_WORDS + KEY_MARKS] = word;
}

// Writes what a resolution gives into place q, of a point of this round: status and marks, evidence, top proof,
// payload, and for each link its digest and the place it leads to.
pub fn store_info(
    s: &State,
    keys: &mut [u64],
    links: &mut [u64],
    order: &[u64],
    q: usize,
    round: Round,
    info: PointInfo,
    refs: &[u64],
)
    requires ready { Ready s.now keys.old order.now }
    requires links_len { (length links.old ≡ length order.now * 328) × (q < length order.now) }
    requires q_value { (round_at keys.old q ≡ round.0) × (well_formed round.0 (info_of info refs.now) ≡ true) }
    ensures keys { keys.new ≡ stored_keys keys.old q info }
    ensures links { links.new ≡ stored_links s.now keys.old links.old order.now q info refs.now }
{
    store_links(s, keys, links, order, q, round, info, refs);
    store_status(keys, q, info);
}
