// Origin: none.
// A start, a round, a remove and a drop, from the fields of their records.
ghost use Rattle.std.specs.Prelude.{◌≤◌, [], length};
ghost use Rattle.commit_answer.specs.Answer.{tables, left, Did};
ghost use Rattle.trace.specs.Fields.{call_by};
ghost use Rattle.trace.specs.Kinds as kinds;
ghost use Rattle.play_calls.specs.Calls.{model_by};
ghost use Rattle.play_calls.specs.Room.{zeros};

use crate::room::clear;
use commit_answer::answer::Outcome;
use commit_remove::remove_committed;
use commit_rounds::{drop_upto, extend_from_ahead};
use commit_start::init;
use commit_state::state::State;
use models::parts::Round;
use trace::bytes::number_of;
use trace::fields::{remove_of, round_of, start_of};

// Starts as the fields say.
pub fn play_start(
    s: State,
    keys: &mut [u64],
    links: &mut [u64],
    certs: &mut [u64],
    order: &mut [u64],
    f: &[u8],
) -> Outcome
    requires { 22 ≤ length f.now }
    ensures { Did (call_by kinds.Start f.now []) (model_by kinds.Start f.now [])
        (tables s keys.old links.old certs.old order.old)
        (left result keys.new links.new certs.new order.new []) }
{
    let with = start_of(f);
    init(s, keys, links, certs, order, with)
}

// Adds the round that the fields say.
pub fn play_round(
    s: State,
    keys: &[u64],
    links: &[u64],
    certs: &[u64],
    order: &[u64],
    f: &[u8],
) -> Outcome
    requires { 8 ≤ length f.now }
    ensures { Did (call_by kinds.Round f.now []) (model_by kinds.Round f.now [])
        (tables s keys.now links.now certs.now order.now)
        (left result keys.now links.now certs.now order.now []) }
{
    let fields = round_of(f);
    let round = fields.round;
    let peers = fields.peers;
    extend_from_ahead(s, keys, links, certs, order, round, peers)
}

// Removes committed rounds, by the anchor's round that the fields say; b: the buffer for the counters and the events, which is zeroed first.
pub fn play_remove(
    s: State,
    keys: &mut [u64],
    links: &mut [u64],
    certs: &mut [u64],
    order: &mut [u64],
    b: &mut [u8],
    f: &[u8],
) -> Outcome
    requires { 9 ≤ length f.now }
    ensures { Did (call_by kinds.Remove f.now (zeros (length b.old))) (model_by kinds.Remove f.now (zeros (length b.old)))
        (tables s keys.old links.old certs.old order.old)
        (left result keys.new links.new certs.new order.new b.new) }
{
    let fields = remove_of(f);
    let round = fields.round;
    let since = fields.since;
    clear(b);
    remove_committed(s, keys, links, certs, order, round, since, b)
}

// Drops the rounds below the one that the fields say.
pub fn play_drop(
    s: State,
    keys: &mut [u64],
    links: &mut [u64],
    certs: &mut [u64],
    order: &mut [u64],
    f: &[u8],
) -> Outcome
    requires { 4 ≤ length f.now }
    ensures { Did (call_by kinds.Drop f.now []) (model_by kinds.Drop f.now [])
        (tables s keys.old links.old certs.old order.old)
        (left result keys.new links.new certs.new order.new []) }
{
    let round = number_of(f, 0);
    drop_upto(s, keys, links, certs, order, Round(round))
}
