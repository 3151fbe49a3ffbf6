// Origin: none.
// An answer as numbers, with the state after it.
ghost use Rattle.std.specs.Prelude.{◌≡◌, cond};
ghost use Rattle.models.specs.Refusal.{refusal_of};
ghost use Rattle.committer_reply.specs.Reply.{reply_of, round_in};

use commit_answer::answer::{Answer, Outcome};
use commit_state::state::State;
use models::refusal::{Refusal, refusal_number};

// refused: document 01's number, 0 for none. said: 1 for yes. anchors: handed out, or finished before a refusal. conflict: the round of
// a history conflict (13), else 0. state: the state after the call.
#[repr(C)]
#[derive(Clone, Copy)]
pub struct Reply {
    pub refused: u32,
    pub said: u32,
    pub anchors: u32,
    pub conflict: u32,
    pub state: State,
}

fn round_in(why: Refusal) -> u32
    ensures { result ≡ round_in (refusal_of why) }
{
    match why {
        Refusal::Number(_n) => 0,
        Refusal::Conflict(round) => round.0,
    }
}

fn yes(said: bool) -> u32
    ensures { result ≡ cond said 1 0 }
{
    if said { 1 } else { 0 }
}

// The reply of an outcome.
pub fn reply_of(o: Outcome) -> Reply
    ensures { result ≡ reply_of o }
{
    let answer = o.answer;
    let state = o.state;
    match answer {
        Answer::Done => Reply {
            refused: 0,
            said: 0,
            anchors: 0,
            conflict: 0,
            state,
        },
        Answer::Flag(said) => {
            let word = yes(said);
            Reply {
                refused: 0,
                said: word,
                anchors: 0,
                conflict: 0,
                state,
            }
        }
        Answer::Anchors(anchors) => Reply {
            refused: 0,
            said: 0,
            anchors,
            conflict: 0,
            state,
        },
        Answer::Refused(why, anchors) => {
            let refused = refusal_number(why);
            let conflict = round_in(why);
            Reply {
                refused,
                said: 0,
                anchors,
                conflict,
                state,
            }
        }
    }
}
