// Origin: none.
// The line of one call.
use commit_answer::answer::Answer;
use models::refusal::Refusal;
use trace::codes::DROP;

pub fn write(text: &[u8]) {
    let _all = io::write_all(1, text);
}

// A number after its name.
pub fn write_number(name: &[u8], n: u64) {
    write(name);
    let _all = io::print_decimal(1, n);
}

// The same, as a line.
fn write_numbered(name: &[u8], n: u64) {
    write_number(name, n);
    write(b"\n");
}

// The digest in four words, 64 digits.
pub fn write_digest(a: u64, b: u64, c: u64, d: u64) {
    let _all = io::print_hex(1, a, 16);
    let _all = io::print_hex(1, b, 16);
    let _all = io::print_hex(1, c, 16);
    let _all = io::print_hex(1, d, 16);
}

// The line of a refusal: document 01's number, and the round of a history conflict.
fn write_refusal(why: Refusal) {
    match why {
        Refusal::Number(n) => {
            write_numbered(b"refused ", n as u64);
        }
        Refusal::Conflict(round) => {
            write_numbered(b"refused 13 ", round.0 as u64);
        }
    }
}

// The line of an answer; name: of the call, before a yes or a no.
fn write_answer(name: &[u8], answer: Answer) {
    match answer {
        Answer::Done => {
            write(b"ok\n");
        }
        Answer::Flag(said) => {
            write(name);
            if said {
                write(b" yes\n");
            } else {
                write(b" no\n");
            }
        }
        Answer::Anchors(_n) => {
            write(b"ok\n");
        }
        Answer::Refused(why, _finished) => {
            write_refusal(why);
        }
    }
}

// The line of a call, by its kind byte and what it answered. Only the gap question and a drop are answered by yes or no.
pub fn write_line(kind: u32, answer: Answer) {
    if kind == DROP {
        write_answer(b"drop", answer);
    } else {
        write_answer(b"gap", answer);
    }
}

// The line of a record that is refused, with its offset in the input; none if its number is 0.
pub fn write_broken(code: u32, at: u64) {
    if code != 0 {
        write_number(b"refused ", code as u64);
        write_numbered(b" ", at);
    }
}
