// Origin: dag/dag_round.rs (add_dependency).
// The call name.
ghost use Rattle.std.specs.Prelude.{[]};
ghost use Rattle.spec.specs.Calls as calls;
ghost use Rattle.models.specs.Parts.{id_of};
ghost use Rattle.commit_answer.specs.Answer.{Did, tables, left};
ghost use Rattle.commit_points.specs.Name.{name_left};

use commit_answer::answer::{Answer, Outcome, refused};
use commit_state::dag::Dag;
use commit_state::state::State;
use dag_round_points::{check_name, name_point};
use models::parts::PointId;
use models::refusal::{Refusal, WRONG_PHASE};
use tables_test::counts_as_started;

// Names a point: it stands in the lowest free place, not resolved.
pub fn add_dependency(
    s: State,
    keys: &mut [u64],
    links: &[u64],
    certs: &mut [u64],
    order: &mut [u64],
    id: PointId,
) -> Outcome
    ensures { Did (calls.name (id_of id)) (name_left id) (tables s keys.old links.now certs.old order.old)
        (left result keys.new links.now certs.new order.new []) }
{
    let dag = Dag {
        state: &s,
        keys,
        links,
        certs,
        order,
    };
    if !counts_as_started(&dag) {
        return refused(s, Refusal::Number(WRONG_PHASE));
    }
    match check_name(&s, keys, order, id) {
        Err(why) => refused(s, why),
        Ok(q) => {
            let next = name_point(s, keys, certs, order, id, q);
            Outcome {
                answer: Answer::Done,
                state: next,
            }
        }
    }
}
