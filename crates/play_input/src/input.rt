// Origin: none.
// The input read into a buffer, played, and read again.
ghost use Rattle.std.specs.Prelude.{◌≡◌, ◌-◌, ◌≤◌, true, not, ◌&&◌, [], length, take, drop, ◌==◌};
ghost use Rattle.commit_answer.specs.Answer.{tables};
ghost use Rattle.commit_state.specs.Back.{unstarted_state};
ghost use Rattle.play_calls.specs.Room.{zeros};
ghost use Rattle.play_input.specs.Fed.{Refilled, Fed};

use crate::part::play_part;
use commit_state::back::unstarted;
use commit_state::state::State;

// The state after some of the input, the offset of the first byte that was not played, how many such bytes are held, the number that the
// record there is refused with (0 for none), and whether to go on.
#[derive(Clone, Copy)]
pub struct Turn {
    pub state: State,
    pub base: u64,
    pub held: usize,
    pub code: u32,
    pub more: bool,
}

// Reads after the bytes held; says how many are held then.
fn refill(input: &mut [u8], held: usize) -> usize
    requires { held ≤ length input.old }
    ensures { Refilled input.old held result input.new }
{
    let got = io::read_full(0, &mut input[held..]);
    held + got
}

// Moves the bytes from `from` to n to the front.
fn move_down(input: &mut [u8], from: usize, n: usize)
    requires { (from ≤ n) × (n ≤ length input.old) }
    ensures { take (n - from) input.new ≡ take (n - from) (drop from input.old) }
{
    input.copy_within(from..n, 0);
}

// Whether to go on after a record that is refused with this number, with so many bytes left. last: nothing follows them.
fn goes_on(code: u32, left: usize, last: bool) -> bool
    ensures { result ≡ (code == 0 && not (last && left == 0)) }
{
    if code != 0 {
        return false;
    }
    if last {
        return left != 0;
    }
    true
}

// Fills the input buffer, plays the records in it, writes their lines and keeps the rest. A buffer that isn't full holds the end of the input.
fn play_some(
    s: State,
    keys: &mut [u64],
    links: &mut [u64],
    certs: &mut [u64],
    order: &mut [u64],
    answer: &mut [u8],
    input: &mut [u8],
    out: &mut [u8],
    base: u64,
    held: usize,
    bench: bool,
) -> Turn
    requires { (held ≤ length input.old) × (length answer.old ≤ 4096) }
    ensures { (result.held ≤ length input.new) × Fed bench (zeros (length answer.old)) (length input.old) (take held input.old) base
        (tables s keys.old links.old certs.old order.old)
        (tables result.state keys.new links.new certs.new order.new) result.base result.code result.more (take result.held input.new) }
{
    let n = refill(input, held);
    let last = n < input.len();
    let part = play_part(
        s,
        keys,
        links,
        certs,
        order,
        answer,
        &input[..n],
        out,
        last,
        bench,
    );
    let state = part.state;
    let at = part.at;
    let code = part.code;
    let put = part.put;
    let _all = io::write_all(1, &out[..put]);
    move_down(input, at, n);
    Turn {
        state,
        base: std::num::wrapping_add_u64(base, at as u64),
        held: n - at,
        code,
        more: goes_on(code, n - at, last),
    }
}

// Plays the whole input of a program, from tables that aren't started. Nothing says that it ends, so turns are counted, to a number that no
// input reaches.
pub fn play_input(
    keys: &mut [u64],
    links: &mut [u64],
    certs: &mut [u64],
    order: &mut [u64],
    answer: &mut [u8],
    input: &mut [u8],
    out: &mut [u8],
    bench: bool,
) -> Turn
    requires { length answer.old ≤ 4096 }
    ensures { Fed bench (zeros (length answer.old)) (length input.old) [] 0
        (tables unstarted_state keys.old links.old certs.old order.old)
        (tables result.state keys.new links.new certs.new order.new) result.base result.code result.more (take result.held input.new) }
{
    let mut now = unstarted();
    let mut base: u64 = 0;
    let mut held: usize = 0;
    let mut code: u32 = 0;
    let mut more = true;
    for _ in 0..u64::MAX {
        let turn = play_some(
            now, keys, links, certs, order, answer, input, out, base, held, bench,
        );
        let state = turn.state;
        now = state;
        base = turn.base;
        held = turn.held;
        code = turn.code;
        more = turn.more;
        if !more {
            break;
        }
    }
    Turn {
        state: now,
        base,
        held,
        code,
        more,
    }
}
