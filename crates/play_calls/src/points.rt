// Origin: none.
// A point named, resolved, certified, committed from or looked at, by the fields of its record.
ghost use Rattle.std.specs.Prelude.{◌+◌, ◌*◌, ◌≤◌, [], length};
ghost use Rattle.commit_answer.specs.Answer.{tables, left, Did};
ghost use Rattle.trace.specs.Head.{links_in};
ghost use Rattle.trace.specs.Fields.{call_by};
ghost use Rattle.trace.specs.Kinds as kinds;
ghost use Rattle.play_calls.specs.Calls.{model_by};
ghost use Rattle.play_calls.specs.Room.{zeros};

use crate::room::clear;
use commit_answer::answer::Outcome;
use commit_call::commit;
use commit_outlook::outlook::outlook;
use commit_points::certify::certify;
use commit_points::name::add_dependency;
use commit_points::resolve::resolve;
use commit_state::state::State;
use models::output::ID_BYTES;
use models::tables::REF_WORDS;
use trace::bytes::id_of;
use trace::fields::{info_of, refs_of};

// Links of a record at most: no more have room in it.
const RESOLVE_LINKS_MAX: usize = 121;

// Names the point that the fields say.
pub fn play_name(
    s: State,
    keys: &mut [u64],
    links: &[u64],
    certs: &mut [u64],
    order: &mut [u64],
    f: &[u8],
) -> Outcome
    requires { 37 ≤ length f.now }
    ensures { Did (call_by kinds.Name f.now []) (model_by kinds.Name f.now [])
        (tables s keys.old links.now certs.old order.old)
        (left result keys.new links.now certs.new order.new []) }
{
    let id = id_of(f, 0);
    add_dependency(s, keys, links, certs, order, id)
}

// Resolves the point that the fields say. Its links, at most 121, are five words each.
pub fn play_resolve(
    s: State,
    keys: &mut [u64],
    links: &mut [u64],
    certs: &mut [u64],
    order: &[u64],
    f: &[u8],
) -> Outcome
    requires f_in_bounds { 90 + 33 * links_in f.now ≤ length f.now }
    requires f_bound { links_in f.now ≤ 121 }
    ensures { Did (call_by kinds.Resolve f.now []) (model_by kinds.Resolve f.now [])
        (tables s keys.old links.old certs.old order.now)
        (left result keys.new links.new certs.new order.now []) }
{
    let id = id_of(f, 0);
    let info = info_of(f);
    let n = info.includes + info.witness;
    let mut refs = [0u64; RESOLVE_LINKS_MAX * REF_WORDS];
    refs_of(f, &mut refs);
    resolve(
        s,
        keys,
        links,
        certs,
        order,
        id,
        info,
        &refs[..n * REF_WORDS],
    )
}

// Certifies the point that the fields say.
pub fn play_certify(
    s: State,
    keys: &[u64],
    links: &[u64],
    certs: &mut [u64],
    order: &[u64],
    f: &[u8],
) -> Outcome
    requires { 37 ≤ length f.now }
    ensures { Did (call_by kinds.Certify f.now []) (model_by kinds.Certify f.now [])
        (tables s keys.now links.now certs.old order.now)
        (left result keys.now links.now certs.new order.now []) }
{
    let id = id_of(f, 0);
    certify(s, keys, links, certs, order, id)
}

// Commits the anchors that the point of the fields triggers, with the place lists after it; b: the buffer for their records, which is zeroed first.
pub fn play_commit(
    s: State,
    keys: &[u64],
    links: &[u64],
    certs: &mut [u64],
    order: &[u64],
    b: &mut [u8],
    f: &[u8],
) -> Outcome
    requires { 37 ≤ length f.now }
    ensures { Did (call_by kinds.Commit f.now (zeros (length b.old))) (model_by kinds.Commit f.now (zeros (length b.old)))
        (tables s keys.now links.now certs.old order.now)
        (left result keys.now links.now certs.new order.now b.new) }
{
    let id = id_of(f, 0);
    clear(b);
    commit(s, keys, links, certs, order, id, &f[ID_BYTES..], b)
}

// Tells the anchors that a commit of the point of the fields would yield; b: the buffer for them, which is zeroed first.
pub fn play_outlook(
    s: State,
    keys: &[u64],
    links: &[u64],
    certs: &[u64],
    order: &[u64],
    b: &mut [u8],
    f: &[u8],
) -> Outcome
    requires { 37 ≤ length f.now }
    ensures { Did (call_by kinds.Outlook f.now (zeros (length b.old))) (model_by kinds.Outlook f.now (zeros (length b.old)))
        (tables s keys.now links.now certs.now order.now)
        (left result keys.now links.now certs.now order.now b.new) }
{
    let id = id_of(f, 0);
    clear(b);
    outlook(s, keys, links, certs, order, id, b)
}
