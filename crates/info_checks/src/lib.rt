// Origin: models/point/info.rs (PointInfo), models/dag_point.rs (DagPoint).
// What a resolution gives is tested before anything is written: its form (11), then that its links lead to named points (12).
#![tactic(auto)]

ghost use Rattle.std.specs.Prelude.{◌≡◌, ◌+◌, ◌*◌, ◌≤◌, eqb, length, ◌&&◌};
ghost use Rattle.spec.specs.Rules.{peers_ascend, refs_ok, well_formed};
ghost use Rattle.models.specs.Info.{refs_of, info_of};
ghost use Rattle.dag_round_points.specs.Model.{Ready};
ghost use Rattle.info_checks.specs.Form.{peer_at, status_ok, Shaped};
ghost use Rattle.info_checks.specs.Dangling.{found_at, is_dangling, any_dangling};

use commit_state::state::State;
use models::info::PointInfo;
use models::parts::Round;
use models::tables::{PEER_SLOTS, PEER_SLOTS_WORD, PEERS_MAX, REF_DIGEST, REF_PEER, REF_WORDS};

// The peer of link j.
pub fn peer(refs: &[u64], j: usize) -> u64
    requires { j * 5 + 5 ≤ length refs.now }
    ensures { result ≡ peer_at refs.now j }
{
    refs[j * REF_WORDS + REF_PEER]
}

// Whether the peers of m links, from link `from` on, rise and are below 32.
fn rises(refs: &[u64], from: usize, m: usize) -> bool
    requires { (from + m) * 5 ≤ length refs.now }
    ensures { result ≡ peers_ascend (refs_of refs.now from m) }
{
    let mut low: u64 = 0;
    for i in 0..m {
        let next = peer(refs, from + i);
        if next < low {
            return false;
        }
        if PEER_SLOTS_WORD <= next {
            return false;
        }
        low = next + 1;
    }
    true
}

// Whether the m links from `from` on, which lead d rounds down, are as 11 asks them to be.
fn refs_ok(refs: &[u64], from: usize, m: usize, d: u32, round: Round) -> bool
    requires m_in_bounds { (from + m) * 5 ≤ length refs.now }
    requires m_bound { m ≤ 32 }
    ensures { result ≡ refs_ok d round.0 (refs_of refs.now from m) }
{
    if !rises(refs, from, m) {
        return false;
    }
    if d <= round.0 {
        return true;
    }
    m == 0
}

// Whether the status is one of the five, and 4 or 5 only where there are no links and no evidence.
fn status_ok(status: u32, bare: bool) -> bool
    ensures { result ≡ status_ok status bare }
{
    let case = models::dag_point::of_status(status as u64);
    match case {
        Some(p) => {
            if p.has_info() {
                return true;
            }
            bare
        }
        None => false,
    }
}

// Whether there are no links and no evidence.
fn is_bare(includes: usize, witness: usize, evidence: u32) -> bool
    ensures { result ≡ (eqb includes 0 && (eqb witness 0 && eqb evidence 0)) }
{
    if includes != 0 {
        return false;
    }
    if witness != 0 {
        return false;
    }
    evidence == 0
}

// The tests of a resolution whose links are as many as it says.
fn given_ok(round: Round, info: PointInfo, refs: &[u64]) -> bool
    requires { Shaped info refs.now }
    ensures { result ≡ well_formed round.0 (info_of info refs.now) }
{
    let i = info.includes;
    let w = info.witness;
    if !refs_ok(refs, 0, i, 1, round) {
        return false;
    }
    if !refs_ok(refs, i, w, 2, round) {
        return false;
    }
    let top = info.top_proof;
    if PEER_SLOTS <= top.author {
        return false;
    }
    let bare = is_bare(i, w, info.evidence);
    status_ok(info.status, bare)
}

// Whether the resolution is as 11 asks it to be, for a point of this round. The numbers of its links are tested first: within their range
// no product overflows.
pub fn well_formed(round: Round, info: PointInfo, refs: &[u64]) -> bool
    ensures { result ≡ well_formed round.0 (info_of info refs.now) }
{
    let i = info.includes;
    let w = info.witness;
    if PEERS_MAX < i {
        return false;
    }
    if PEERS_MAX < w {
        return false;
    }
    if refs.len() != (i + w) * REF_WORDS {
        return false;
    }
    given_ok(round, info, refs)
}

// The position of the point that link j leads to in this round, or the number of used places.
pub fn find_link(
    s: &State,
    keys: &[u64],
    order: &[u64],
    refs: &[u64],
    j: usize,
    round: Round,
) -> usize
    requires ready { Ready s.now keys.now order.now }
    requires j_in_bounds { j * 5 + 5 ≤ length refs.now }
    ensures { result ≡ found_at s.now keys.now order.now refs.now j round.0 }
{
    let words = dag_round_keys::id_at(
        refs,
        j * REF_WORDS + REF_DIGEST,
        round.0 as u64,
        peer(refs, j),
    );
    dag_round_keys::find_point(keys, order, s.count, &words)
}

// Whether link j of a point of this round leads d rounds down into a retained round, and to no named point.
fn is_dangling(
    s: &State,
    keys: &[u64],
    order: &[u64],
    refs: &[u64],
    j: usize,
    d: u32,
    round: Round,
) -> bool
    requires ready { Ready s.now keys.now order.now }
    requires j_in_bounds { (j * 5 + 5 ≤ length refs.now) × (d ≤ 2) }
    ensures { result ≡ is_dangling s.now keys.now order.now refs.now d round.0 j }
{
    let bottom = s.bottom;
    if (round.0 as u64) < bottom.0 as u64 + d as u64 {
        return false;
    }
    let at = find_link(s, keys, order, refs, j, Round(round.0 - d));
    s.count <= at
}

// Whether one of the m links from `from` on, which lead d rounds down from this round, leads into a retained round and to no named point
// (12).
pub fn any_dangling(
    s: &State,
    keys: &[u64],
    order: &[u64],
    refs: &[u64],
    from: usize,
    m: usize,
    d: u32,
    round: Round,
) -> bool
    requires ready { Ready s.now keys.now order.now }
    requires m_in_bounds { ((from + m) * 5 ≤ length refs.now) × (d ≤ 2) }
    ensures { result ≡ any_dangling s.now keys.now order.now refs.now d round.0 from m }
{
    (from..from + m).any(|j| is_dangling(s, keys, order, refs, j, d, round))
}
