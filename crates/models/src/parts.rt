// Origin: models/point/parts.rs (Round, Digest), models/point/info.rs (PointId).
// Peers are numbers 0 to 31, sets of them 32 bits.
ghost use Rattle.std.specs.Prelude.{◌+◌, ◌-◌, ◌<◌, max, min, ◌≡◌};
ghost use Rattle.laws.specs.Peers.{member};
ghost use Rattle.std.specs.Int.Count.{ones};

use crate::tables::DIGEST_WORDS;

// A round's number.
#[repr(C)]
#[derive(Clone, Copy)]
pub struct Round(pub u32);

// A round or none (Option<Round>): the round plus 1, or 0. No enum, since the state crosses to C by value.
#[repr(C)]
#[derive(Clone, Copy)]
pub struct OptionRound(pub u32);

// A certificate's height, so that it never passes for a round.
#[derive(Clone, Copy)]
pub struct Height(pub u16);

// Four words, the most significant first.
#[repr(C)]
#[derive(Clone, Copy)]
pub struct Digest(pub [u64; DIGEST_WORDS]);

#[repr(C)]
#[derive(Clone, Copy)]
pub struct PointId {
    pub round: Round,
    pub author: u32,
    pub digest: Digest,
}

impl Round {
    // The round below; stops at 0.
    pub fn prev(self) -> Round
        ensures { result.0 ≡ self.0 - 1 }
    {
        Round(self.0.saturating_sub(1))
    }

    // n rounds down; stops at 0.
    pub fn minus(self, n: u32) -> Round
        ensures { result.0 ≡ self.0 - n }
    {
        Round(self.0.saturating_sub(n))
    }

    // n rounds up.
    pub fn plus(self, n: u32) -> Round
        requires { self.0 + n < 4294967296 }
        ensures { result.0 ≡ self.0 + n }
    {
        Round(self.0 + n)
    }

    // The earlier of two rounds.
    pub fn min(self, other: Round) -> Round
        ensures { result.0 ≡ min self.0 other.0 }
    {
        Round(self.0.min(other.0))
    }

    // The later of two rounds.
    pub fn max(self, other: Round) -> Round
        ensures { result.0 ≡ max self.0 other.0 }
    {
        Round(self.0.max(other.0))
    }
}

impl OptionRound {
    pub const NONE: OptionRound = OptionRound(0);
}

// Whether peer k is in the set.
pub fn has_peer(peers: u32, k: u32) -> bool
    requires { k < 32 }
    ensures { result ≡ member peers k }
{
    (peers >> k) % 2 == 1
}

// The number of peers in the set.
pub fn peer_count(peers: u32) -> u32
    ensures { result ≡ ones peers }
{
    u32::count_ones(peers)
}
