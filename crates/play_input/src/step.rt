// Origin: none.
// One record played, and its lines.
ghost use Rattle.std.specs.Prelude.{◌≡◌, ◌+◌, ◌<◌, ◌≤◌, length};
ghost use Rattle.commit_answer.specs.Answer.{tables};
ghost use Rattle.trace.specs.Head.{code_at};
ghost use Rattle.play_calls.specs.Room.{zeros};
ghost use Rattle.play_input.specs.Steps.{Steps};

use commit_answer::answer::Answer;
use commit_state::state::State;
use lines::said::put_lines;
use play::one::play_one;
use show::calls::write_call;

// The state after a record, the number that it is refused with (0 for none), where it ends, and where the lines end.
#[derive(Clone, Copy)]
pub struct Step {
    pub state: State,
    pub code: u32,
    pub end: usize,
    pub put: usize,
}

// The bench's lines of a record, unless it is refused.
fn write_step(code: u32, kind: u32, b: &[u8], answer: Answer, s: State) {
    if code == 0 {
        write_call(kind, b, answer, s);
    }
}

// Plays the record at the offset. Its lines are put into `out` from `put` on; with `bench` they are the bench's, and are written at once.
pub fn play_step(
    s: State,
    keys: &mut [u64],
    links: &mut [u64],
    certs: &mut [u64],
    order: &mut [u64],
    b: &mut [u8],
    bytes: &[u8],
    at: usize,
    out: &mut [u8],
    put: usize,
    bench: bool,
) -> Step
    requires { (at ≤ length bytes.now) × (length b.old ≤ 4096) × (put + length b.old + 19 ≤ length out.old) }
    ensures code { result.code ≡ code_at bench bytes.now at }
    ensures end { (at ≤ result.end) × (result.end ≤ length bytes.now) × (result.code ≡ 0 → at < result.end) × (result.put ≤ length out.new) }
    ensures steps { Steps bench (zeros (length b.old)) bytes.now at (tables s keys.old links.old certs.old order.old)
        (tables result.state keys.new links.new certs.new order.new) result.end out.old put result.put out.new }
{
    let played = play_one(s, keys, links, certs, order, b, bytes, at, bench);
    let code = played.code;
    let kind = played.kind;
    let end = played.end;
    let outcome = played.outcome;
    let answer = outcome.answer;
    let state = outcome.state;
    if bench {
        write_step(code, kind, b, answer, state);
        return Step {
            state,
            code,
            end,
            put,
        };
    }
    let next = put_lines(kind, b, answer, out, put);
    Step {
        state,
        code,
        end,
        put: next,
    }
}
