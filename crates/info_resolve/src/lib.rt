// Origin: models/cert.rs (set_deps), models/point/info.rs (PointInfo).
// A resolution: its tests, then its words and flags, and the point's height handed on.
#![tactic(auto)]

ghost use Rattle.std.specs.Prelude.{◌≡◌, ◌+◌, ◌*◌, ◌<◌, ◌≤◌, length, get_or};
ghost use Rattle.models.specs.Refusal.{numbered};
ghost use Rattle.models.specs.Tables.{round_at};
ghost use Rattle.dag_round_points.specs.Model.{Ready};
ghost use Rattle.info_store.specs.Model.{stored_keys, stored_links};
ghost use Rattle.info_store.specs.Flags.{deps_set};
ghost use Rattle.info_resolve.specs.Model.{info_code};
ghost use Rattle.info_resolve.specs.Refines.{resolved_certs, Resolvable};

use commit_state::state::State;
use info_checks::{any_dangling, well_formed};
use models::cert::Cert;
use models::info::PointInfo;
use models::parts::Round;
use models::place::status;
use models::refusal::{BAD_INFO, LINK_NOT_NAMED, RESOLVED, Refusal};

// Whether a resolution of the point at place q, of this round, is refused: it is resolved, what is given isn't well-formed, or a link dangles.
pub fn check_resolution(
    s: &State,
    keys: &[u64],
    order: &[u64],
    q: usize,
    round: Round,
    info: PointInfo,
    refs: &[u64],
) -> Result<(), Refusal>
    requires ready { Ready s.now keys.now order.now }
    requires q_in_bounds { (q < length order.now) × (round_at keys.now q ≡ round.0) }
    ensures { result ≡ numbered (info_code s.now keys.now order.now q info refs.now) }
{
    let word = status(keys, q);
    if word != 0 {
        return Err(Refusal::Number(RESOLVED));
    }
    if !well_formed(round, info, refs) {
        return Err(Refusal::Number(BAD_INFO));
    }
    let i = info.includes;
    let w = info.witness;
    if any_dangling(s, keys, order, refs, 0, i, 1, round) {
        return Err(Refusal::Number(LINK_NOT_NAMED));
    }
    if any_dangling(s, keys, order, refs, i, w, 2, round) {
        return Err(Refusal::Number(LINK_NOT_NAMED));
    }
    Ok(())
}

// The certificate word of place q once the links of its point are set, if a point of this status has links.
fn set_deps(certs: &mut [u64], q: usize, status: u32)
    requires { (q < length certs.old) × (get_or certs.old q 0 < 65536) × (0 < status) }
    ensures { certs.new ≡ deps_set certs.old q status }
{
    let case = models::dag_point::of_status(status as u64);
    match case {
        Some(p) => {
            if p.has_info() {
                let cert = Cert(certs[q]);
                let set = cert.set_deps();
                certs[q] = set.0;
            }
        }
        None => {}
    }
}

// Resolves the point at place q, of this round: its words and flags, and its height handed on.
pub fn resolve_at(
    s: &State,
    keys: &mut [u64],
    links: &mut [u64],
    certs: &mut [u64],
    order: &[u64],
    q: usize,
    round: Round,
    info: PointInfo,
    refs: &[u64],
)
    requires resolvable { Resolvable s.now keys.old links.old certs.old order.now q info refs.now }
    requires q_value { round_at keys.old q ≡ round.0 }
    ensures keys { keys.new ≡ stored_keys keys.old q info }
    ensures links { links.new ≡ stored_links s.now keys.old links.old order.now q info refs.now }
    ensures certs { certs.new ≡ resolved_certs s.now keys.old links.old certs.old order.now q info refs.now }
{
    let bottom = s.bottom;
    info_store::store_info(s, keys, links, order, q, round, info, refs);
    set_deps(certs, q, info.status);
    cert_certify::traverse_certify(keys, links, certs, q, bottom);
}
