// Origin: dag/commit/mod.rs (commit).
// Added by document 01, 'Outlook': the call.
ghost use Rattle.std.specs.Prelude.{◌≡◌, true, ◌≤◌};
ghost use Rattle.spec.specs.Calls as calls;
ghost use Rattle.spec.specs.Rules.{counts_as_started};
ghost use Rattle.spec.specs.Walk.{Rising};
ghost use Rattle.models.specs.Parts.{id_of};
ghost use Rattle.tables_test.specs.View.{view_of};
ghost use Rattle.back_chain.specs.Chain.{chain_of};
ghost use Rattle.commit_answer.specs.Answer.{Did, tables, left};
ghost use Rattle.commit_outlook.specs.Outlook.{outlook_left, chain_shown};

use crate::chain::look_chain;
use back_chain::{Chain, chain_of};
use commit_answer::answer::{Answer, Outcome, refused};
use commit_state::dag::Dag;
use commit_state::state::State;
use models::parts::PointId;
use models::refusal::{Refusal, WRONG_PHASE};
use tables_test::counts_as_started;

// The anchors of a chain. A function apart, so that no function declares both the chain and its list.
fn outlook_chain(dag: &Dag, b: &mut [u8], c: Chain) -> Outcome
    requires order_value { counts_as_started (view_of dag.now) ≡ true }
    requires rising { Rising (view_of dag.now) 0 (chain_of c.list c.count) }
    requires count_bound { c.count ≤ 511 }
    ensures { left result dag.now.keys.now dag.now.links.now dag.now.certs.now dag.now.order.now b.new
        ≡ chain_shown (tables dag.now.state.now dag.now.keys.now dag.now.links.now dag.now.certs.now dag.now.order.now) b.old (chain_of c.list c.count) }
{
    let list = c.list;
    let check = look_chain(dag, b, list, c.count);
    if let Err(why) = check {
        return refused(*dag.state, why);
    }
    let count = c.count as u32;
    Outcome {
        answer: Answer::Anchors(count),
        state: *dag.state,
    }
}

// Tells the anchors that a commit of this trigger would yield, each with the number of points in its history and in each round how many
// it needs; nothing changes but the buffer. A refusal writes nothing.
pub fn outlook(
    s: State,
    keys: &[u64],
    links: &[u64],
    certs: &[u64],
    order: &[u64],
    id: PointId,
    b: &mut [u8],
) -> Outcome
    ensures { Did (calls.outlook (id_of id) b.old) (outlook_left (id_of id) b.old)
        (tables s keys.now links.now certs.now order.now)
        (left result keys.now links.now certs.now order.now b.new) }
{
    let dag = Dag {
        state: &s,
        keys,
        links,
        certs,
        order,
    };
    if !counts_as_started(&dag) {
        return refused(s, Refusal::Number(WRONG_PHASE));
    }
    match chain_of(&dag, id) {
        Err(why) => refused(s, why),
        Ok(c) => outlook_chain(&dag, b, c),
    }
}
