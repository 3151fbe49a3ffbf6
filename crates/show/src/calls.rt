// Origin: none.
// The lines of one call.
use crate::anchors::write_anchors;
use crate::looks::{Reach, write_looks};
use crate::removal::write_removal;
use crate::text::write_line;
use commit_answer::answer::Answer;
use commit_state::state::State;
use lines::said::anchors_of;
use trace::codes::{OUTLOOK, REMOVE};

// Which rounds a history has, by the state.
fn reach_of(s: State) -> Reach {
    let genesis = s.genesis;
    let bottom = s.bottom;
    Reach {
        genesis,
        rounds: s.commit_history_rounds,
        bottom,
    }
}

// The lines of what stands in the buffer: an outlook's anchors, a remove's peers and events, or the records of a commit.
fn write_answered(kind: u32, b: &[u8], answer: Answer, reach: Reach) {
    if kind == OUTLOOK {
        write_looks(b, anchors_of(answer), reach);
    } else if kind == REMOVE {
        write_removal(b, answer);
    } else {
        write_anchors(b, anchors_of(answer));
    }
}

// The lines of a call that was made: its kind byte, its answer, the buffer and the state after it.
pub fn write_call(kind: u32, b: &[u8], answer: Answer, s: State) {
    write_answered(kind, b, answer, reach_of(s));
    write_line(kind, answer);
}
