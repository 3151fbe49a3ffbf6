// Origin: models/cert.rs (set_deps), models/point/info.rs (PointInfo).
// The call resolve.
ghost use Rattle.std.specs.Prelude.{[]};
ghost use Rattle.spec.specs.Calls as calls;
ghost use Rattle.models.specs.Info.{info_of};
ghost use Rattle.models.specs.Parts.{id_of};
ghost use Rattle.commit_answer.specs.Answer.{Did, tables, left};
ghost use Rattle.commit_points.specs.Resolve.{resolve_left};

use commit_answer::answer::{Answer, Outcome, refused};
use commit_state::dag::Dag;
use commit_state::state::State;
use dag_round_points::find_named;
use info_resolve::{check_resolution, resolve_at};
use models::info::PointInfo;
use models::parts::PointId;
use models::refusal::{Refusal, WRONG_PHASE};
use tables_test::counts_as_started;

// Resolves a named point. `refs` holds its links, five words each: peer and digest, first the includes, then the witness.
pub fn resolve(
    s: State,
    keys: &mut [u64],
    links: &mut [u64],
    certs: &mut [u64],
    order: &[u64],
    id: PointId,
    info: PointInfo,
    refs: &[u64],
) -> Outcome
    ensures { Did (calls.resolve (id_of id) (info_of info refs.now)) (resolve_left id info refs.now)
        (tables s keys.old links.old certs.old order.now)
        (left result keys.new links.new certs.new order.now []) }
{
    let dag = Dag {
        state: &s,
        keys,
        links,
        certs,
        order,
    };
    if !counts_as_started(&dag) {
        return refused(s, Refusal::Number(WRONG_PHASE));
    }
    match find_named(&s, keys, order, id) {
        Err(why) => refused(s, why),
        Ok(q) => {
            let check = check_resolution(&s, keys, order, q, id.round, info, refs);
            if let Err(why) = check {
                return refused(s, why);
            }
            resolve_at(&s, keys, links, certs, order, q, id.round, info, refs);
            Outcome {
                answer: Answer::Done,
                state: s,
            }
        }
    }
}
