// Origin: models/cert.rs (certify).
// The call certify.
ghost use Rattle.std.specs.Prelude.{[]};
ghost use Rattle.spec.specs.Calls as calls;
ghost use Rattle.models.specs.Parts.{id_of};
ghost use Rattle.commit_answer.specs.Answer.{Did, tables, left};
ghost use Rattle.commit_points.specs.Certify.{certify_left};

use cert_certify::certify_at;
use commit_answer::answer::{Answer, Outcome, refused};
use commit_state::dag::Dag;
use commit_state::state::State;
use dag_round_points::find_named;
use models::parts::PointId;
use models::refusal::{Refusal, WRONG_PHASE};
use tables_test::counts_as_started;

// Certifies a point: it is a top, and its height is handed on along links. An unresolved point hands it on when it is resolved.
pub fn certify(
    s: State,
    keys: &[u64],
    links: &[u64],
    certs: &mut [u64],
    order: &[u64],
    id: PointId,
) -> Outcome
    ensures { Did (calls.certify (id_of id)) (certify_left id) (tables s keys.now links.now certs.old order.now)
        (left result keys.now links.now certs.new order.now []) }
{
    let dag = Dag {
        state: &s,
        keys,
        links,
        certs,
        order,
    };
    if !counts_as_started(&dag) {
        return refused(s, Refusal::Number(WRONG_PHASE));
    }
    match find_named(&s, keys, order, id) {
        Err(why) => refused(s, why),
        Ok(q) => {
            certify_at(&s, keys, links, certs, q);
            Outcome {
                answer: Answer::Done,
                state: s,
            }
        }
    }
}
