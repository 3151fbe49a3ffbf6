// Origin: dag/commit/mod.rs (dequeue_anchor).
// The marks of a history, and the state after its anchor.
ghost use Rattle.std.specs.Prelude.{◌≡◌, ◌+◌, ◌<◌, ◌≤◌, length};
ghost use Rattle.models.specs.Tables.{Inside};
ghost use Rattle.output_record.specs.Marks.{Small, marks_all};
ghost use Rattle.output_record.specs.ModelState.{after_state};

use crate::record::is_first_executable;
use back_history::is_uncommitted;
use commit_state::state::State;
use models::cert::Cert;
use models::parts::{OptionRound, Round};
use models::tables::{PLACES_MAX, ROUND_SLOTS};

// Sets the committed bit of each point of the history.
pub fn mark_all(
    marks: &[bool; PLACES_MAX],
    order: &[u64],
    certs: &mut [u64],
    low: usize,
    high: usize,
)
    requires { (low ≤ high) × (high ≤ length order.now) × (length certs.old ≤ 4096) × Inside order.now high (length certs.old) × Small order.now certs.old high }
    ensures { certs.new ≡ marks_all order.now marks.now low certs.old high }
{
    for &word in &order[low..high] {
        let q = laws::slot(word);
        if is_uncommitted(marks, certs, q) {
            let cert = Cert(certs[q]);
            let done = cert.set_committed();
            certs[q] = done.0;
        }
    }
}

// The state after an anchor: it and its proof are the last ones, the proof's round is used by its author, and the first executable
// anchor after a gap uses the gap flag up.
pub fn after_anchor(s: State, anchor_round: Round, proof_round: Round, author: u32) -> State
    requires { (anchor_round.0 ≤ 4000000000) × (proof_round.0 ≤ 4000000000) × (author < 32) }
    ensures { result ≡ after_state s anchor_round.0 proof_round.0 author }
{
    let first = is_first_executable(&s, anchor_round);
    let mut next = s;
    let last_committed_proof = OptionRound(proof_round.0 + 1);
    let last_anchor = OptionRound(anchor_round.0 + 1);
    next.last_committed_proof = last_committed_proof;
    next.last_anchor = last_anchor;
    let i = (proof_round.0 % ROUND_SLOTS) as usize;
    let mut rec = next.rounds[i];
    rec.used_anchor_proof = author + 1;
    next.rounds[i] = rec;
    if first {
        next.emit_first_after_gap = 0;
    }
    next
}
