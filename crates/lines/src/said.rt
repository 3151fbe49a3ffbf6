// Origin: none.
// The lines of a call: "one line per anchor record", "for each refusal, after its call's anchors, a line".
ghost use Rattle.std.specs.Prelude.{◌≡◌, ◌+◌, ◌≤◌, length};
ghost use Rattle.spec.specs.Demand.{finished};
ghost use Rattle.commit_answer.specs.Answer.{answer_of};
ghost use Rattle.lines.specs.Lines.{text, lines_at, refusal_lines, said_anchors, said_text, Holds};
ghost use Rattle.lines.specs.Put.{Put};

use crate::line::{put_anchor, put_refused};
use commit_answer::answer::Answer;
use models::output::{ID_AUTHOR, POINT_BYTES, RECORD_BYTES, RECORD_POINTS};
use models::refusal::refusal_number;
use trace::bytes::{byte_of, number_of};
use trace::codes::COMMIT;

// The anchors that an answer hands out, or that were finished before a refusal.
pub fn anchors_of(answer: Answer) -> u32
    ensures { result ≡ finished (answer_of answer) }
{
    match answer {
        Answer::Done => 0,
        Answer::Flag(_said) => 0,
        Answer::Anchors(n) => n,
        Answer::Refused(_why, finished) => finished,
    }
}

// The anchor records in the buffer of a call of this kind.
fn records_of(kind: u32, answer: Answer) -> u32
    ensures { result ≡ said_anchors kind (answer_of answer) }
{
    if kind == COMMIT {
        return anchors_of(answer);
    }
    0
}

// The lines of the first n records in b. A line is shorter than its record.
fn put_anchors(b: &[u8], n: u32, out: &mut [u8], at: usize) -> usize
    requires { (at + length b.now ≤ length out.old) × Holds n b.now }
    ensures { Put out.old at (text (lines_at n b.now 0)) result out.new × (result ≤ at + length b.now) }
{
    let mut from: usize = 0;
    let mut next = at;
    for _ in 0..n {
        let round = number_of(b, from);
        let author = byte_of(b, from + ID_AUTHOR);
        let points = number_of(b, from + RECORD_POINTS);
        next = put_anchor(out, next, round, author, points);
        from = from + RECORD_BYTES + points as usize * POINT_BYTES;
    }
    next
}

// The line of a refusal, in at most 19 bytes; none for another answer.
fn put_refusal(answer: Answer, out: &mut [u8], at: usize) -> usize
    requires { at + 19 ≤ length out.old }
    ensures { Put out.old at (text (refusal_lines (answer_of answer))) result out.new × (result ≤ at + 19) }
{
    match answer {
        Answer::Refused(why, _finished) => {
            let n = refusal_number(why);
            put_refused(out, at, n)
        }
        Answer::Done => at,
        Answer::Flag(_said) => at,
        Answer::Anchors(_n) => at,
    }
}

// The lines of a call, by its kind byte, its answer and the buffer b after it.
pub fn put_lines(kind: u32, b: &[u8], answer: Answer, out: &mut [u8], at: usize) -> usize
    requires { (at + length b.now + 19 ≤ length out.old) × (kind ≡ 6 → Holds (finished (answer_of answer)) b.now) }
    ensures { Put out.old at (said_text kind (answer_of answer) b.now) result out.new × (result ≤ at + length b.now + 19) }
{
    let n = records_of(kind, answer);
    let next = put_anchors(b, n, out, at);
    put_refusal(answer, out, next)
}
