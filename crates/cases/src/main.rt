// Origin: none.
// Cases of document 01 that go through the code. Each line written is what one call answered, or a number that it left.
#![tactic(auto)]

use commit_answer::answer::Answer;
use commit_points::certify::certify;
use commit_points::name::add_dependency;
use commit_points::resolve::resolve;
use commit_rounds::{drop_upto, extend_from_ahead};
use commit_start::init;
use commit_state::back::StartArgs;
use commit_state::state::{Entry, Memory, RoundRecord, State};
use models::cert::HEIGHTS;
use models::info::PointInfo;
use models::parts::{Digest, OptionRound, PointId, Round};
use models::refusal::Refusal;
use models::tables::{
    DIGEST_WORDS, KEY_WORDS, LINK_WORDS, REF_WORDS, ROUND_POINTS_MAX, ROUNDS_MAX,
};

// Places of the tables of K9, and of those of K4 and K5.
const K9_PLACES: usize = 4;

const K4_PLACES: usize = 5;

fn write(text: &[u8]) {
    let _all = io::write_all(1, text);
}

// One number on a line.
fn write_number(n: u64) {
    let _all = io::print_decimal(1, n);
    write(b"\n");
}

fn write_refusal(why: Refusal) {
    match why {
        Refusal::Number(n) => {
            write(b"refused ");
            write_number(n as u64);
        }
        Refusal::Conflict(round) => {
            write(b"refused 13 at ");
            write_number(round.0 as u64);
        }
    }
}

fn write_answer(answer: Answer) {
    match answer {
        Answer::Done => {
            write(b"done\n");
        }
        Answer::Flag(yes) => {
            if yes {
                write(b"yes\n");
            } else {
                write(b"no\n");
            }
        }
        Answer::Anchors(n) => {
            write(b"anchors ");
            write_number(n as u64);
        }
        Answer::Refused(why, _finished) => {
            write_refusal(why);
        }
    }
}

// A state that no call left.
fn noise() -> State {
    let empty = RoundRecord {
        peers: 9,
        used_anchor_proof: 9,
    };
    let entry = Entry {
        author: 9,
        digest: Digest([9; DIGEST_WORDS]),
        has_previous: 1,
        previous: Digest([9; DIGEST_WORDS]),
        unreferenced_by: 9,
    };
    State {
        phase: 9,
        count: 9,
        genesis: Round(9),
        commit_history_rounds: 9,
        deduplicate_rounds: 9,
        bottom: Round(9),
        top: Round(9),
        last_committed_proof: OptionRound(9),
        last_anchor: OptionRound(9),
        full_history_bottom: Round(9),
        first_executable: Round(9),
        emit_first_after_gap: 9,
        rounds: [empty; ROUNDS_MAX],
        memory: Memory {
            last: Round(9),
            count: 9,
            entries: [entry; ROUND_POINTS_MAX],
        },
    }
}

// The rounds from `from` to `to` added, each with peer 0.
fn with_rounds(
    s: State,
    keys: &[u64],
    links: &[u64],
    certs: &[u64],
    order: &[u64],
    from: u32,
    to: u32,
) -> State {
    let mut now = s;
    for r in from..to {
        let added = extend_from_ahead(now, keys, links, certs, order, Round(r), 1);
        let next = added.state;
        now = next;
    }
    now
}

// K9: bottom 20, top 30, drop to 40: bottom 30, no. The tables are full of noise before the start.
fn k9() {
    let mut keys = [9u64; K9_PLACES * KEY_WORDS];
    let mut links = [9u64; K9_PLACES * LINK_WORDS];
    let mut certs = [9u64; K9_PLACES];
    let mut order = [9u64; K9_PLACES];
    let with = StartArgs {
        genesis: Round(10),
        commit_history_rounds: 2,
        deduplicate_rounds: 0,
        bottom: Round(20),
        peers: 1,
        after_gap: false,
        used: None,
    };
    let started = init(noise(), &mut keys, &mut links, &mut certs, &mut order, with);
    let first = started.answer;
    write_answer(first);
    let s = with_rounds(started.state, &keys, &links, &certs, &order, 21, 31);
    let drop_state = drop_upto(s, &mut keys, &mut links, &mut certs, &mut order, Round(40));
    let second = drop_state.answer;
    write_answer(second);
    let left = drop_state.state;
    let bottom = left.bottom;
    write_number(bottom.0 as u64);
}

// The id of the one point of a round, by peer 0.
fn id_of(round: u32) -> PointId {
    PointId {
        round: Round(round),
        author: 0,
        digest: Digest([0, 0, 0, round as u64]),
    }
}

// The point of a round named and resolved as valid, with the links in refs as its includes. Writes both answers.
fn with_point(
    s: State,
    keys: &mut [u64],
    links: &mut [u64],
    certs: &mut [u64],
    order: &mut [u64],
    round: u32,
    refs: &[u64],
) -> State {
    let named = add_dependency(s, keys, links, certs, order, id_of(round));
    let first = named.answer;
    write_answer(first);
    let info = PointInfo {
        status: 1,
        proof: false,
        trigger: false,
        cause: false,
        top_proof: id_of(0),
        evidence: 0,
        includes: refs.len() / REF_WORDS,
        witness: 0,
        payload_len: 0,
        payload_bytes: 0,
    };
    let resolution = resolve(
        named.state,
        keys,
        links,
        certs,
        order,
        id_of(round),
        info,
        refs,
    );
    let second = resolution.answer;
    write_answer(second);
    resolution.state
}

// The points of the rounds after `from`, below `to`, each including the one before it.
fn with_chain(
    s: State,
    keys: &mut [u64],
    links: &mut [u64],
    certs: &mut [u64],
    order: &mut [u64],
    from: u32,
    to: u32,
) -> State {
    let mut now = s;
    for r in from..to {
        let below = [0, 0, 0, 0, r as u64];
        let next = with_point(now, keys, links, certs, order, r + 1, &below);
        now = next;
    }
    now
}

// The height of each place, in their order.
fn write_heights(certs: &[u64]) {
    for cert in certs {
        write_number(*cert % HEIGHTS);
    }
}

// K4: H 3, top at 20: height 4; 3 at 19, 2 at 18, 1 at 17, 0 at 16. K5: tops 20 and 18 both reach 17: 3. Heights are written from the
// point of round 16 up.
fn k4_and_k5() {
    let mut keys = [9u64; K4_PLACES * KEY_WORDS];
    let mut links = [9u64; K4_PLACES * LINK_WORDS];
    let mut certs = [9u64; K4_PLACES];
    let mut order = [9u64; K4_PLACES];
    let with = StartArgs {
        genesis: Round(10),
        commit_history_rounds: 3,
        deduplicate_rounds: 0,
        bottom: Round(16),
        peers: 1,
        after_gap: false,
        used: None,
    };
    let started = init(noise(), &mut keys, &mut links, &mut certs, &mut order, with);
    let first = started.answer;
    write_answer(first);
    let none = [0u64; REF_WORDS];
    let s = with_rounds(started.state, &keys, &links, &certs, &order, 17, 21);
    let low = with_point(
        s,
        &mut keys,
        &mut links,
        &mut certs,
        &mut order,
        16,
        &none[..0],
    );
    let all = with_chain(low, &mut keys, &mut links, &mut certs, &mut order, 16, 20);
    let top = certify(all, &keys, &links, &mut certs, &order, id_of(20));
    let second = top.answer;
    write_answer(second);
    write_heights(&certs);
    let lower = certify(top.state, &keys, &links, &mut certs, &order, id_of(18));
    let third = lower.answer;
    write_answer(third);
    write_heights(&certs);
}

fn main() {
    k9();
    k4_and_k5();
}
