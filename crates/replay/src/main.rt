// Origin: none.
// Plays the recorded calls of standard input and writes a line for what each answered, then lines for the state and the points.
// Its argument is the number of places of the tables, 1 to 256; without one there are 20.
#![tactic(auto)]

ghost use Rattle.std.specs.Prelude.{◌≤◌, ◌≡◌};
ghost use Rattle.replay.specs.Places.{most_places, number_said, places_said};

use models::tables::{KEY_WORDS, LINK_WORDS};
use play_input::input::play_input;
use play_input::{ANSWER_BYTES, PLACES};
use show::state::write_state;
use show::text::write_broken;
use std::env::{Env, FillError};

// The number of places asked for at most.
const PLACES_ASKED_MAX: usize = 256;

// Bytes of the argument that are read.
const ARGUMENT_BYTES: usize = 16;

// The number that the digits say, or 0 if it is above the most or not a number.
fn number_said(digits: &[u8]) -> usize
    ensures { result ≡ number_said digits.now }
{
    let mut n: usize = 0;
    for &d in digits {
        if !d.is_ascii_digit() {
            return 0;
        }
        n = n * 10 + (d - b'0') as usize;
        if PLACES_ASKED_MAX < n {
            return 0;
        }
    }
    n
}

// The number of places that the arguments say, or 0 if they aren't one such number. count: with the program's name. digits: the argument.
fn places_said(count: usize, digits: &[u8]) -> usize
    ensures { result ≡ places_said count digits.now }
{
    if count < 2 {
        return PLACES;
    }
    if 2 < count {
        return 0;
    }
    number_said(digits)
}

// Whether there is an argument i. Its length does not matter.
fn has_argument(env: &impl Env, i: usize) -> bool {
    let mut text = [0u8; ARGUMENT_BYTES];
    match env.arg(i, &mut text) {
        Err(FillError::NotPresent) => false,
        _ => true,
    }
}

// The number of places asked for. An argument longer than the text is read as an empty one, which is no number.
#[tactic(auto, using(crate::specs::Places::places_low))]
fn places_asked(env: &impl Env) -> usize
    ensures { result ≤ most_places }
{
    let mut text = [0u8; ARGUMENT_BYTES];
    let count: usize = if has_argument(env, 2) {
        3
    } else if has_argument(env, 1) {
        2
    } else {
        1
    };
    match env.arg(1, &mut text) {
        Ok(n) => places_said(count, &text[..n]),
        Err(_) => places_said(count, b""),
    }
}

// Plays the input on the tables lent, with 4,096 bytes for answers, and writes what is left.
fn play_on(keys: &mut [u64], links: &mut [u64], certs: &mut [u64], order: &mut [u64]) {
    let mut answer = [0u8; ANSWER_BYTES];
    let mut input = io::large_buffer();
    let mut out = io::large_buffer();
    let turn = play_input(
        keys,
        links,
        certs,
        order,
        &mut answer,
        &mut input,
        &mut out,
        true,
    );
    let s = turn.state;
    write_broken(turn.code, turn.base);
    write_state(s, keys, links, certs, order);
}

// Plays the input on tables of n places.
fn replay(n: usize)
    requires { n ≤ 256 }
{
    let mut keys = [0u64; PLACES_ASKED_MAX * KEY_WORDS];
    let mut links = [0u64; PLACES_ASKED_MAX * LINK_WORDS];
    let mut certs = [0u64; PLACES_ASKED_MAX];
    let mut order = [0u64; PLACES_ASKED_MAX];
    play_on(
        &mut keys[..n * KEY_WORDS],
        &mut links[..n * LINK_WORDS],
        &mut certs[..n],
        &mut order[..n],
    );
}

fn main(rt: HostRuntime) {
    let n = places_asked(&rt);
    if n == 0 {
        let _all = io::write_all(
            2,
            b"replay: the one argument is a number of places, 1 to 256\n",
        );
    } else {
        replay(n);
    }
}
