// Origin: none.
// Records played one after another.
ghost use Rattle.std.specs.Prelude.{◌+◌, ◌-◌, ◌≤◌, length};
ghost use Rattle.commit_answer.specs.Answer.{tables};
ghost use Rattle.play_calls.specs.Room.{zeros};
ghost use Rattle.play.specs.Runs.{Ends};
ghost use Rattle.play_input.specs.Steps.{Parts};

use crate::step::play_step;
use commit_state::state::State;
use lines::REFUSED_BYTES;
use trace::head::least_left;

// The state after the records that were played, the offset of the first that was not, the number that it is refused with (0 for none), and
// where the lines end.
#[derive(Clone, Copy)]
pub struct Part {
    pub state: State,
    pub at: usize,
    pub code: u32,
    pub put: usize,
}

// Plays the records of the bytes, until one is refused, or too few bytes or too little room for lines is left. b: the buffer that is lent to
// their calls. last: nothing follows the bytes. The lines are put into `out`; with `bench` they are the bench's, and are written at once.
pub fn play_part(
    s: State,
    keys: &mut [u64],
    links: &mut [u64],
    certs: &mut [u64],
    order: &mut [u64],
    b: &mut [u8],
    bytes: &[u8],
    out: &mut [u8],
    last: bool,
    bench: bool,
) -> Part
    requires { length b.old ≤ 4096 }
    ensures runs { Parts bench (zeros (length b.old)) bytes.now (tables s keys.old links.old certs.old order.old) result.at
        (tables result.state keys.new links.new certs.new order.new) out.old result.put out.new }
    ensures ends { (result.put ≤ length out.new) × Ends bench bytes.now last (length out.new - result.put) (length b.old + 19) result.at result.code }
{
    let mut now = s;
    let mut at: usize = 0;
    let mut code: u32 = 0;
    let mut put: usize = 0;
    let n = bytes.len();
    let size = out.len();
    let most = b.len() + REFUSED_BYTES;
    let least = least_left(last);
    // Each record moves the offset by its own length, so this is no count.
    while least <= n - at {
        if size - put < most {
            break;
        }
        let step = play_step(
            now, keys, links, certs, order, b, bytes, at, out, put, bench,
        );
        let next = step.state;
        now = next;
        code = step.code;
        put = step.put;
        if code != 0 {
            break;
        }
        at = step.end;
    }
    Part {
        state: now,
        at,
        code,
        put,
    }
}
