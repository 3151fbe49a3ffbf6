// Origin: none.
// Keepers and spoilers: who decides whether an anchor reaches a point.
#![tactic(auto)]

ghost use Rattle.std.specs.Prelude.{◌≤◌, ◌≡◌};
ghost use Rattle.game.specs.Model.{game_of, refusal_of, forced_of, Answers};
ghost use Rattle.spec.specs.Game.{game_ok, forced_by, within as inside};

use laws::{and, or};
use models::parts::{has_peer, peer_count};
use models::tables::PEER_LAST;

// Coming rounds at most.
const DISTANCE_MAX: u32 = 255;

// Keepers can force the reach, spoilers can prevent it, or the game is refused. No Result: `Answers` speaks of each case.
#[derive(Clone, Copy)]
pub enum Reach {
    Forced,
    Prevented,
    Refused,
}

impl Reach {
    // The refusal's number, 0 where there is none.
    pub fn refusal(self) -> u32
        ensures { result ≡ refusal_of self }
    {
        match self {
            Reach::Forced => 0,
            Reach::Prevented => 0,
            Reach::Refused => 31,
        }
    }

    // Whether keepers can force the reach.
    pub fn forced(self) -> bool
        ensures { result ≡ forced_of self }
    {
        match self {
            Reach::Forced => true,
            Reach::Prevented => false,
            Reach::Refused => false,
        }
    }
}

// Whether every peer of a is one of b.
fn within(a: u32, b: u32) -> bool
    ensures { result ≡ inside a b }
{
    a & b == a
}

// Whether the game is not refused.
fn game_ok(peers: u32, keepers: u32, q: u32, reach: u32, author: u32, distance: u32) -> bool
    ensures { result ≡ game_ok (game_of peers keepers q author) reach distance }
{
    if PEER_LAST < author {
        return false;
    }
    let n = peer_count(peers);
    let counts = and(0 < n, and(0 < q, q <= n));
    let peer = has_peer(peers, author);
    let sets = and(within(keepers, peers), within(reach, peers));
    and(
        counts,
        and(peer, and(sets, and(0 < distance, distance <= DISTANCE_MAX))),
    )
}

// Whether n peers, r of them reaching, and s spoilers let keepers force the reach.
fn forced_by(q: u32, author_keeps: bool, n: u32, r: u32, s: u32, d: u32) -> bool
    requires { r ≤ n }
    ensures { result ≡ forced_by q author_keeps n r s d }
{
    or(n - r < q, and(0 < r, or(author_keeps, and(1 < d, s < q))))
}

// Whether keepers can force the anchor of that author, at that distance, to reach the wanted point, which the points of the peers in
// `reach` do now.
pub fn reach_of(peers: u32, keepers: u32, q: u32, reach: u32, author: u32, distance: u32) -> Reach
    ensures { Answers (game_of peers keepers q author) reach distance result }
{
    if !game_ok(peers, keepers, q, reach, author, distance) {
        return Reach::Refused;
    }
    let kept = peer_count(keepers);
    let spoilt = peer_count(peers ^ keepers);
    let r = peer_count(reach);
    let n = kept + spoilt;
    let keeps = has_peer(keepers, author);
    let forced = forced_by(q, keeps, n, r, spoilt, distance);
    if forced {
        Reach::Forced
    } else {
        Reach::Prevented
    }
}
