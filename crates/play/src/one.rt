// Origin: none.
// One record played.
ghost use Rattle.std.specs.Prelude.{◌≡◌, ◌<◌, ◌≤◌, length};
ghost use Rattle.trace.specs.Kinds.{kind_of};
ghost use Rattle.trace.specs.Head.{code_at, head_at};
ghost use Rattle.commit_answer.specs.Answer.{tables};
ghost use Rattle.commit_answer.specs.declared.answer.Answer.TheVariants as answers;
ghost use Rattle.play_calls.specs.Room.{zeros};
ghost use Rattle.play.specs.Sized.{Sized};
ghost use Rattle.play.specs.Plays.{Makes, PlaysAt, Still};

use commit_answer::answer::{Answer, Outcome};
use commit_rounds::is_once_after_gap;
use commit_start::reset;
use commit_state::state::State;
use models::refusal::BAD_RECORD;
use play_calls::points::{play_certify, play_commit, play_name, play_outlook, play_resolve};
use play_calls::rounds::{play_drop, play_remove, play_round, play_start};
use trace::codes::OUTLOOK;
use trace::head::record_at;

// code: the number that the record is refused with, 0 for none. Its kind byte, what its call answered and the state after it, and where the
// next record begins. A record that is refused has kind 0, and ends at its own offset.
#[derive(Clone, Copy)]
pub struct Played {
    pub code: u32,
    pub kind: u32,
    pub outcome: Outcome,
    pub end: usize,
}

// What a record that is refused leaves: the state stays.
fn unmade(s: State) -> Outcome
    ensures { result ≡ record { answer = answers.Done; state = s } }
{
    Outcome {
        answer: Answer::Done,
        state: s,
    }
}

// Makes the call of a kind byte and its fields, each kind of a trace by its own decoder; b: the buffer that is lent to a call that takes one.
fn play_fields(
    kind: u32,
    s: State,
    keys: &mut [u64],
    links: &mut [u64],
    certs: &mut [u64],
    order: &mut [u64],
    b: &mut [u8],
    f: &[u8],
) -> Outcome
    requires { Sized (kind_of kind) f.now × (kind ≡ 11 → ⊥) }
    ensures makes { Makes (kind_of kind) f.now (zeros (length b.old)) (tables s keys.old links.old certs.old order.old) result
        (tables result.state keys.new links.new certs.new order.new) b.new }
    ensures still { Still (kind_of kind) b.old b.new }
{
    match kind {
        1 => play_start(s, keys, links, certs, order, f),
        2 => play_round(s, keys, links, certs, order, f),
        3 => play_name(s, keys, links, certs, order, f),
        4 => play_resolve(s, keys, links, certs, order, f),
        5 => play_certify(s, keys, links, certs, order, f),
        6 => play_commit(s, keys, links, certs, order, b, f),
        7 => play_remove(s, keys, links, certs, order, b, f),
        8 => play_drop(s, keys, links, certs, order, f),
        9 => is_once_after_gap(s, keys, links, certs, order),
        10 => reset(s, keys, links, certs, order),
        _ => unmade(s),
    }
}

// The same, and the outlook, which has no kind in a trace.
fn play_known(
    kind: u32,
    s: State,
    keys: &mut [u64],
    links: &mut [u64],
    certs: &mut [u64],
    order: &mut [u64],
    b: &mut [u8],
    f: &[u8],
) -> Outcome
    requires { Sized (kind_of kind) f.now }
    ensures makes { Makes (kind_of kind) f.now (zeros (length b.old)) (tables s keys.old links.old certs.old order.old) result
        (tables result.state keys.new links.new certs.new order.new) b.new }
    ensures still { Still (kind_of kind) b.old b.new }
{
    if kind == OUTLOOK {
        return play_outlook(s, keys, links, certs, order, b, f);
    }
    play_fields(kind, s, keys, links, certs, order, b, f)
}

// Plays the record at the offset: its call is made on the state, the tables and, if it takes one, a buffer of zeros, b. An offset beyond the
// bytes has none: it is cut short. bench: whether the bench's outlook is known.
pub fn play_one(
    s: State,
    keys: &mut [u64],
    links: &mut [u64],
    certs: &mut [u64],
    order: &mut [u64],
    b: &mut [u8],
    bytes: &[u8],
    at: usize,
    bench: bool,
) -> Played
    ensures code { (result.code ≡ code_at bench bytes.now at) × (result.kind ≡ (head_at bench bytes.now at).kind) }
    ensures end { (result.end ≡ (head_at bench bytes.now at).end) × (at ≤ result.end) × (at ≤ length bytes.now → result.end ≤ length bytes.now) }
    ensures plays { PlaysAt bench (zeros (length b.old)) bytes.now at (tables s keys.old links.old certs.old order.old)
        result.outcome (tables result.outcome.state keys.new links.new certs.new order.new) b.new }
    ensures still { Still (kind_of (head_at bench bytes.now at).kind) b.old b.new }
    ensures moves { code_at bench bytes.now at ≡ 0 → at < result.end }
{
    if bytes.len() < at {
        return Played {
            code: BAD_RECORD,
            kind: 0,
            outcome: unmade(s),
            end: at,
        };
    }
    let found = record_at(bytes, at, bench);
    let kind = found.kind;
    let from = found.from;
    let end = found.end;
    let outcome = play_known(kind, s, keys, links, certs, order, b, &bytes[from..end]);
    Played {
        code: found.code,
        kind,
        outcome,
        end,
    }
}
