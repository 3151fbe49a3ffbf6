// Origin: dag/commit/mod.rs (the results of the calls).
// What a call answers.
ghost use Rattle.std.specs.Prelude.{◌≡◌};
ghost use Rattle.commit_answer.specs.Answer.{refusal};

use commit_state::state::State;
use models::refusal::Refusal;

// Refused holds the number of finished anchors. No Result: `Did` says the state and the buffer of a refused call too.
#[derive(Clone, Copy)]
pub enum Answer {
    Done,
    Flag(bool),
    Anchors(u32),
    Refused(Refusal, u32),
}

// A call's answer and the state after it.
#[derive(Clone, Copy)]
pub struct Outcome {
    pub answer: Answer,
    pub state: State,
}

// A call refused before it did anything: the state stays.
pub fn refused(s: State, why: Refusal) -> Outcome
    ensures { result ≡ refusal s why }
{
    Outcome {
        answer: Answer::Refused(why, 0),
        state: s,
    }
}
