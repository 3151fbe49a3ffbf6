// Origin: none.
// Name, resolve and certify for C.
ghost use Rattle.std.specs.Prelude.{[]};
ghost use Rattle.spec.specs.Calls as calls;
ghost use Rattle.models.specs.Info.{info_of};
ghost use Rattle.models.specs.Parts.{id_of};
ghost use Rattle.commit_answer.specs.Answer.{tables};
ghost use Rattle.commit_points.specs.Name.{name_left};
ghost use Rattle.commit_points.specs.Resolve.{resolve_left};
ghost use Rattle.commit_points.specs.Certify.{certify_left};
ghost use Rattle.committer_reply.specs.Args.{info_in};
ghost use Rattle.committer.specs.Replies.{Replies};

use commit_points::certify::certify;
use commit_points::name::add_dependency;
use commit_points::resolve::resolve;
use commit_state::state::State;
use committer_reply::args::{Resolution, info_in};
use committer_reply::reply::{Reply, reply_of};
use models::parts::PointId;

#[unsafe(no_mangle)]
pub extern "C" fn committer_name(
    s: State,
    keys: &mut [u64],
    links: &[u64],
    certs: &mut [u64],
    order: &mut [u64],
    id: PointId,
) -> Reply
    ensures { Replies (calls.name (id_of id)) (name_left id)
        (tables s keys.old links.now certs.old order.old) result
        (tables result.state keys.new links.now certs.new order.new) [] }
{
    let o = add_dependency(s, keys, links, certs, order, id);
    reply_of(o)
}

// refs: the links, five words each, peer and digest, the includes first.
#[unsafe(no_mangle)]
pub extern "C" fn committer_resolve(
    s: State,
    keys: &mut [u64],
    links: &mut [u64],
    certs: &mut [u64],
    order: &[u64],
    id: PointId,
    resolution: Resolution,
    refs: &[u64],
) -> Reply
    ensures { Replies (calls.resolve (id_of id) (info_of (info_in resolution) refs.now)) (resolve_left id (info_in resolution) refs.now)
        (tables s keys.old links.old certs.old order.now) result
        (tables result.state keys.new links.new certs.new order.now) [] }
{
    let info = info_in(resolution);
    let o = resolve(s, keys, links, certs, order, id, info, refs);
    reply_of(o)
}

#[unsafe(no_mangle)]
pub extern "C" fn committer_certify(
    s: State,
    keys: &[u64],
    links: &[u64],
    certs: &mut [u64],
    order: &[u64],
    id: PointId,
) -> Reply
    ensures { Replies (calls.certify (id_of id)) (certify_left id)
        (tables s keys.now links.now certs.old order.now) result
        (tables result.state keys.now links.now certs.new order.now) [] }
{
    let o = certify(s, keys, links, certs, order, id);
    reply_of(o)
}
