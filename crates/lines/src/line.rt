// Origin: none.
// The three kinds of line.
ghost use Rattle.std.specs.Prelude.{◌+◌, ◌<◌, ◌≤◌, length};
ghost use Rattle.lines.specs.Lines.{line_text, anchor_line, refused_line, rounds_line};
ghost use Rattle.lines.specs.Put.{Put};

use crate::put::{put_named, put_text};

// The line of an anchor record, in at most 33 bytes.
pub fn put_anchor(out: &mut [u8], at: usize, round: u32, author: u32, points: u32) -> usize
    requires { (at + 33 ≤ length out.old) × (author < 256) }
    ensures { Put out.old at (line_text (anchor_line round author points)) result out.new × (result ≤ at + 33) }
{
    let a1 = put_named(out, at, b"anchor ", round);
    let a2 = put_named(out, a1, b" ", author);
    let a3 = put_named(out, a2, b" ", points);
    put_text(out, a3, b"\n")
}

// The line of a refusal, in at most 19 bytes.
pub fn put_refused(out: &mut [u8], at: usize, n: u32) -> usize
    requires { at + 19 ≤ length out.old }
    ensures { Put out.old at (line_text (refused_line n)) result out.new × (result ≤ at + 19) }
{
    let next = put_named(out, at, b"refused ", n);
    put_text(out, next, b"\n")
}

// The last line, in at most 29 bytes.
pub fn put_rounds(out: &mut [u8], at: usize, bottom: u32, top: u32) -> usize
    requires { at + 29 ≤ length out.old }
    ensures { Put out.old at (line_text (rounds_line bottom top)) result out.new × (result ≤ at + 29) }
{
    let a1 = put_named(out, at, b"rounds ", bottom);
    let a2 = put_named(out, a1, b" ", top);
    put_text(out, a2, b"\n")
}
