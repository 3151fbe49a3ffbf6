// Origin: none.
// Commit, outlook and remove for C.
ghost use Rattle.spec.specs.Calls as calls;
ghost use Rattle.models.specs.Parts.{id_of};
ghost use Rattle.commit_answer.specs.Answer.{tables};
ghost use Rattle.commit_call.specs.Commit.{commit_left};
ghost use Rattle.commit_outlook.specs.Outlook.{outlook_left};
ghost use Rattle.commit_remove.specs.Remove.{remove_left};
ghost use Rattle.committer_reply.specs.Args.{since_in};
ghost use Rattle.committer.specs.Replies.{Replies};

use commit_call::commit;
use commit_outlook::outlook::outlook;
use commit_remove::remove_committed;
use commit_state::state::State;
use committer_reply::args::since_in;
use committer_reply::reply::{Reply, reply_of};
use models::parts::{PointId, Round};

// lists: the places of each anchor's rounds. b: the buffer for the anchor records.
#[unsafe(no_mangle)]
pub extern "C" fn committer_commit(
    s: State,
    keys: &[u64],
    links: &[u64],
    certs: &mut [u64],
    order: &[u64],
    id: PointId,
    lists: &[u8],
    b: &mut [u8],
) -> Reply
    ensures { Replies (calls.commit (id_of id) lists.now b.old) (commit_left (id_of id) lists.now b.old)
        (tables s keys.now links.now certs.old order.now) result
        (tables result.state keys.now links.now certs.new order.now) b.new }
{
    let o = commit(s, keys, links, certs, order, id, lists, b);
    reply_of(o)
}

// b: the buffer for the anchors' ids, numbers of points and linked points of each round.
#[unsafe(no_mangle)]
pub extern "C" fn committer_outlook(
    s: State,
    keys: &[u64],
    links: &[u64],
    certs: &[u64],
    order: &[u64],
    id: PointId,
    b: &mut [u8],
) -> Reply
    ensures { Replies (calls.outlook (id_of id) b.old) (outlook_left (id_of id) b.old)
        (tables s keys.now links.now certs.now order.now) result
        (tables result.state keys.now links.now certs.now order.now) b.new }
{
    let o = outlook(s, keys, links, certs, order, id, b);
    reply_of(o)
}

// has_since: 0 for none. b: the buffer for the counters and the events.
#[unsafe(no_mangle)]
pub extern "C" fn committer_remove(
    s: State,
    keys: &mut [u64],
    links: &mut [u64],
    certs: &mut [u64],
    order: &mut [u64],
    round: u32,
    has_since: u32,
    since: u32,
    b: &mut [u8],
) -> Reply
    ensures { Replies (calls.remove round (since_in has_since since) b.old) (remove_left (since_in has_since since) round b.old)
        (tables s keys.old links.old certs.old order.old) result
        (tables result.state keys.new links.new certs.new order.new) b.new }
{
    let stats_since = since_in(has_since, since);
    let o = remove_committed(s, keys, links, certs, order, Round(round), stats_since, b);
    reply_of(o)
}
