// Origin: none.
// Start, reset, round, gap question, remove and drop as records.
ghost use Rattle.std.specs.Prelude.{◌≡◌, ℕ, ◌+◌, ◌≤◌, List, [], true, length};
ghost use Rattle.laws.specs.Bytes.{written};
ghost use Rattle.spec.specs.Calls as calls;
ghost use Rattle.commit_state.specs.Back.{used_of};
ghost use Rattle.commit_state.specs.Reads.{start_args_of};
ghost use Rattle.stats.specs.Ranges.{since_of};
ghost use Rattle.trace.specs.Write.{field_bytes, used_byte};
ghost use Rattle.trace_write.specs.Puts.{Puts, Said};
ghost use Rattle.trace_write.specs.Rounds.{used_fits, start_first, start_last, since_flag, since_round};

use crate::head::{Written, mark, put_head};
use answer_bytes::put_number;
use commit_state::back::StartArgs;
use models::parts::Round;
use trace::codes::{DROP, GAP, REMOVE, RESET, ROUND, START};
use trace::fields::{DROP_BYTES, NOBODY, REMOVE_BYTES, ROUND_BYTES, START_BYTES};
use trace::head::HEAD_FIELDS;

// A record without fields.
fn put_bare(b: &mut [u8], kind: u32) -> Written
    ensures { (c : calls.Call) → Said c kind true 0 [] → Puts b.old c result.refused result.length b.new }
{
    let refused = put_head(b, kind, true, 0);
    if refused != 0 {
        return Written { refused, length: 0 };
    }
    Written {
        refused,
        length: HEAD_FIELDS,
    }
}

pub fn put_gap(b: &mut [u8]) -> Written
    ensures { Puts b.old calls.gap_question result.refused result.length b.new }
{
    put_bare(b, GAP)
}

pub fn put_reset(b: &mut [u8]) -> Written
    ensures { Puts b.old calls.reset_all result.refused result.length b.new }
{
    put_bare(b, RESET)
}

pub fn put_drop(b: &mut [u8], round: Round) -> Written
    ensures { Puts b.old (calls.drop round.0) result.refused result.length b.new }
{
    let refused = put_head(b, DROP, true, DROP_BYTES);
    if refused != 0 {
        return Written { refused, length: 0 };
    }
    let length = put_number(b, HEAD_FIELDS, 4, round.0 as u64);
    Written { refused, length }
}

pub fn put_round(b: &mut [u8], round: Round, peers: u32) -> Written
    ensures { Puts b.old (calls.round round.0 peers) result.refused result.length b.new }
{
    let refused = put_head(b, ROUND, true, ROUND_BYTES);
    if refused != 0 {
        return Written { refused, length: 0 };
    }
    let next = put_number(b, HEAD_FIELDS, 4, round.0 as u64);
    let length = put_number(b, next, 4, peers as u64);
    Written { refused, length }
}

fn since_flag(since: Option<Round>) -> u64
    ensures { result ≡ since_flag (since_of since) }
{
    match since {
        None => 0,
        Some(_) => 1,
    }
}

fn since_round(since: Option<Round>) -> u32
    ensures { result ≡ since_round (since_of since) }
{
    match since {
        None => 0,
        Some(first) => first.0,
    }
}

// The call's own buffer isn't in its record.
pub fn put_remove(b: &mut [u8], round: Round, since: Option<Round>) -> Written
    ensures { (room : List ℕ) → Puts b.old (calls.remove round.0 (since_of since) room) result.refused result.length b.new }
{
    let first = since_round(since);
    let refused = put_head(b, REMOVE, true, REMOVE_BYTES);
    if refused != 0 {
        return Written { refused, length: 0 };
    }
    let flag = put_number(b, HEAD_FIELDS, 4, round.0 as u64);
    let next = put_number(b, flag, 1, since_flag(since));
    let length = put_number(b, next, 4, first as u64);
    Written { refused, length }
}

// Whether the used author can be told from nobody, in a byte.
fn used_fits(used: Option<u32>) -> bool
    ensures { result ≡ used_fits (used_of used) }
{
    match used {
        None => true,
        Some(author) => author < NOBODY,
    }
}

fn used_byte(used: Option<u32>) -> u32
    ensures { result ≡ used_byte (used_of used) }
{
    match used {
        None => NOBODY,
        Some(author) => author,
    }
}

// Genesis, H and the rounds to deduplicate.
fn put_conf(b: &mut [u8], at: usize, with: StartArgs) -> usize
    requires { at + 12 ≤ length b.old }
    ensures { (result ≡ at + 12) × (b.new ≡ written b.old at (field_bytes (start_first (start_args_of with)))) }
{
    let history = put_number(b, at, 4, with.genesis.0 as u64);
    let deduplicate = put_number(b, history, 4, with.commit_history_rounds as u64);
    put_number(b, deduplicate, 4, with.deduplicate_rounds as u64)
}

// The bottom, its peers, the gap's flag and the used author.
fn put_bottom(b: &mut [u8], at: usize, with: StartArgs) -> usize
    requires { at + 10 ≤ length b.old }
    ensures { (result ≡ at + 10) × (b.new ≡ written b.old at (field_bytes (start_last (start_args_of with)))) }
{
    let used = with.used;
    let author = used_byte(used);
    let gap = mark(1, with.after_gap);
    let peers = put_number(b, at, 4, with.bottom.0 as u64);
    let flag = put_number(b, peers, 4, with.peers as u64);
    let last = put_number(b, flag, 1, gap);
    put_number(b, last, 1, author as u64)
}

pub fn put_start(b: &mut [u8], with: StartArgs) -> Written
    ensures { Puts b.old (calls.start (start_args_of with)) result.refused result.length b.new }
{
    let used = with.used;
    let fits = used_fits(used);
    let refused = put_head(b, START, fits, START_BYTES);
    if refused != 0 {
        return Written { refused, length: 0 };
    }
    let bottom = put_conf(b, HEAD_FIELDS, with);
    let length = put_bottom(b, bottom, with);
    Written { refused, length }
}
