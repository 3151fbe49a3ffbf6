// Origin: none.
// Keepers and spoilers for C: no state and no tables are taken.
ghost use Rattle.game.specs.Model.{game_of, Numbers};

use game::reach_of;

// refused: 31, or 0 for none. forced: 1 for yes, 0 for no and where refused.
#[repr(C)]
#[derive(Clone, Copy)]
pub struct Reached {
    pub refused: u32,
    pub forced: u32,
}

#[unsafe(no_mangle)]
pub extern "C" fn committer_reach_of(
    peers: u32,
    keepers: u32,
    quorum: u32,
    reaching: u32,
    author: u32,
    distance: u32,
) -> Reached
    ensures { Numbers (game_of peers keepers quorum author) reaching distance result.refused result.forced }
{
    let answer = reach_of(peers, keepers, quorum, reaching, author, distance);
    let refused = answer.refusal();
    if answer.forced() {
        Reached { refused, forced: 1 }
    } else {
        Reached { refused, forced: 0 }
    }
}
