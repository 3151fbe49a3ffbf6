// Origin: none.
// Numbers, digests and ids, big-endian.
ghost use Rattle.std.specs.Prelude.{◌≡◌, ◌+◌, ◌<◌, ◌≤◌, length, get_or};
ghost use Rattle.trace.specs.Numbers.{number_at, digest_words, point_id_at};

use models::output::{ID_AUTHOR, ID_DIGEST};
use models::parts::{Digest, PointId, Round};
use models::tables::DIGEST_WORDS;

// One byte.
pub fn byte_of(f: &[u8], at: usize) -> u32
    requires { at < length f.now }
    ensures { (result ≡ get_or f.now at 0) × (result < 256) }
{
    f[at] as u32
}

// The number in two bytes.
pub fn short_of(f: &[u8], at: usize) -> u16
    requires { at + 2 ≤ length f.now }
    ensures { result ≡ number_at f.now at 2 }
{
    u16::from_be_bytes([f[at], f[at + 1]])
}

// The number in four bytes.
pub fn number_of(f: &[u8], at: usize) -> u32
    requires { at + 4 ≤ length f.now }
    ensures { result ≡ number_at f.now at 4 }
{
    u32::from_be_bytes([f[at], f[at + 1], f[at + 2], f[at + 3]])
}

// The number in eight bytes.
pub fn word_of(f: &[u8], at: usize) -> u64
    requires { at + 8 ≤ length f.now }
    ensures { result ≡ number_at f.now at 8 }
{
    u64::from_be_bytes([
        f[at],
        f[at + 1],
        f[at + 2],
        f[at + 3],
        f[at + 4],
        f[at + 5],
        f[at + 6],
        f[at + 7],
    ])
}

// The four words of a digest.
pub fn digest_words(f: &[u8], at: usize) -> [u64; DIGEST_WORDS]
    requires { at + 32 ≤ length f.now }
    ensures { result ≡ digest_words f.now at }
{
    let a = word_of(f, at);
    let b = word_of(f, at + 8);
    let c = word_of(f, at + 16);
    let d = word_of(f, at + 24);
    [a, b, c, d]
}

// The id in 37 bytes.
pub fn id_of(f: &[u8], at: usize) -> PointId
    requires { at + 37 ≤ length f.now }
    ensures { result ≡ point_id_at f.now at }
{
    let round = number_of(f, at);
    let author = byte_of(f, at + ID_AUTHOR);
    let digest = digest_words(f, at + ID_DIGEST);
    PointId {
        round: Round(round),
        author,
        digest: Digest(digest),
    }
}
