// Origin: none.
// Start, reset, round, gap question and drop for C.
ghost use Rattle.std.specs.Prelude.{[]};
ghost use Rattle.spec.specs.Calls as calls;
ghost use Rattle.commit_state.specs.Reads.{start_args_of};
ghost use Rattle.commit_answer.specs.Answer.{tables};
ghost use Rattle.commit_start.specs.Start.{start_left, reset_left};
ghost use Rattle.commit_rounds.specs.Gap.{gap_left};
ghost use Rattle.commit_rounds.specs.Round.{round_left};
ghost use Rattle.commit_rounds.specs.Drop.{drop_left};
ghost use Rattle.committer_reply.specs.Args.{start_args_in};
ghost use Rattle.committer.specs.Replies.{Replies};

use commit_rounds::{drop_upto, extend_from_ahead, is_once_after_gap};
use commit_start::{init, reset};
use commit_state::state::State;
use committer_reply::args::{Start, start_args_in};
use committer_reply::reply::{Reply, reply_of};
use models::parts::Round;

#[unsafe(no_mangle)]
pub extern "C" fn committer_start(
    s: State,
    keys: &mut [u64],
    links: &mut [u64],
    certs: &mut [u64],
    order: &mut [u64],
    with: Start,
) -> Reply
    ensures { Replies (calls.start (start_args_of (start_args_in with))) (start_left (start_args_in with))
        (tables s keys.old links.old certs.old order.old) result
        (tables result.state keys.new links.new certs.new order.new) [] }
{
    let beginning = start_args_in(with);
    let o = init(s, keys, links, certs, order, beginning);
    reply_of(o)
}

#[unsafe(no_mangle)]
pub extern "C" fn committer_reset(
    s: State,
    keys: &mut [u64],
    links: &mut [u64],
    certs: &mut [u64],
    order: &mut [u64],
) -> Reply
    ensures { Replies calls.reset_all reset_left
        (tables s keys.old links.old certs.old order.old) result
        (tables result.state keys.new links.new certs.new order.new) [] }
{
    let o = reset(s, keys, links, certs, order);
    reply_of(o)
}

#[unsafe(no_mangle)]
pub extern "C" fn committer_round(
    s: State,
    keys: &[u64],
    links: &[u64],
    certs: &[u64],
    order: &[u64],
    round: u32,
    peers: u32,
) -> Reply
    ensures { Replies (calls.round round peers) (round_left round peers)
        (tables s keys.now links.now certs.now order.now) result
        (tables result.state keys.now links.now certs.now order.now) [] }
{
    let o = extend_from_ahead(s, keys, links, certs, order, Round(round), peers);
    reply_of(o)
}

#[unsafe(no_mangle)]
pub extern "C" fn committer_gap(
    s: State,
    keys: &[u64],
    links: &[u64],
    certs: &[u64],
    order: &[u64],
) -> Reply
    ensures { Replies calls.gap_question gap_left
        (tables s keys.now links.now certs.now order.now) result
        (tables result.state keys.now links.now certs.now order.now) [] }
{
    let o = is_once_after_gap(s, keys, links, certs, order);
    reply_of(o)
}

#[unsafe(no_mangle)]
pub extern "C" fn committer_drop(
    s: State,
    keys: &mut [u64],
    links: &mut [u64],
    certs: &mut [u64],
    order: &mut [u64],
    round: u32,
) -> Reply
    ensures { Replies (calls.drop round) (drop_left round)
        (tables s keys.old links.old certs.old order.old) result
        (tables result.state keys.new links.new certs.new order.new) [] }
{
    let o = drop_upto(s, keys, links, certs, order, Round(round));
    reply_of(o)
}
