// Origin: none.
// Bytes and numbers in decimal.
ghost use Rattle.std.specs.Prelude.{◌+◌, ◌≤◌, length};
ghost use Rattle.lines.specs.Lines.{decimal, named};
ghost use Rattle.lines.specs.Put.{Put};

use answer_bytes::put_bytes;

// The digits of 64 bits.
const DIGITS_MAX: usize = 20;

// The bytes t.
pub fn put_text(out: &mut [u8], at: usize, t: &[u8]) -> usize
    requires { at + length t.now ≤ length out.old }
    ensures { Put out.old at t.now result out.new }
{
    put_bytes(out, at, t)
}

// The number in decimal, in at most 10 bytes.
pub fn put_decimal(out: &mut [u8], at: usize, n: u32) -> usize
    requires { at + 10 ≤ length out.old }
    ensures { Put out.old at (decimal n) result out.new × (result ≤ at + 10) }
{
    let mut digits = [0u8; DIGITS_MAX];
    let k = io::decimal(n as u64, &mut digits);
    put_text(out, at, &digits[..k])
}

// The number after its word.
pub fn put_named(out: &mut [u8], at: usize, word: &[u8], n: u32) -> usize
    requires { at + length word.now + 10 ≤ length out.old }
    ensures { Put out.old at (named word.now n) result out.new × (result ≤ at + length word.now + 10) }
{
    let next = put_text(out, at, word);
    put_decimal(out, next, n)
}
