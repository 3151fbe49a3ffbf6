// Origin: none.
// At most four points for each author and round, counted in one pass; the ids of the used places as naming tests them: a retained round,
// a peer of that round.
#![tactic(auto)]

ghost use Rattle.std.specs.Prelude.{◌≡◌, ◌+◌, ◌*◌, ◌<◌, ◌≤◌, length, get_or, ltb};
ghost use Rattle.tables_ids.specs.Model.{cell_of, cell_at, counted, versions_hold, Tallied};
ghost use Rattle.models.specs.Tables.{place_at, Inside};
ghost use Rattle.tables_ids.specs.Ids.{id_holds};

use models::parts::{Round, has_peer};
use models::tables::{
    PEER_LAST_WORD, PEER_SLOTS_WORD, PEERS_MAX, ROUND_SLOTS_WORD, ROUNDS_MAX, VERSIONS_MAX,
};

// A cell for each round and author.
const SEEN_CELLS: usize = ROUNDS_MAX * PEERS_MAX;

// What a cell counts at most.
const VERSIONS: u8 = VERSIONS_MAX as u8;

// The cell that a round and an author count in.
fn cell(round: u64, author: u64) -> usize
    ensures { (result ≡ cell_of round author) × (result < 16384) }
{
    (round % ROUND_SLOTS_WORD * PEER_SLOTS_WORD + author % PEER_SLOTS_WORD) as usize
}

// Counts place q, if there is room.
fn count_one(seen: &mut [u8], keys: &[u64], q: usize) -> bool
    requires { (length seen.old ≡ 16384) × (q * 8 + 8 ≤ length keys.now) }
    ensures value { result ≡ ltb (get_or seen.old (cell_at keys.now q) 0) 4 }
    ensures seen_after { seen.new ≡ counted keys.now seen.old q }
{
    let i = cell(
        models::place::round_word(keys, q),
        models::place::author(keys, q),
    );
    if VERSIONS <= seen[i] {
        return false;
    }
    seen[i] = seen[i] + 1;
    true
}

// Counts the first n places of the order.
fn count_all(seen: &mut [u8], keys: &[u64], order: &[u64], n: usize) -> bool
    requires keys_len { (length keys.now ≡ length order.now * 8) × (n ≤ length order.now) }
    requires inside { Inside order.now n (length order.now) }
    requires tallied { Tallied keys.now order.now seen.old 0 }
    ensures { result ≡ versions_hold keys.now order.now n }
{
    for &place in &order[..n] {
        if !count_one(seen, keys, laws::slot(place)) {
            return false;
        }
    }
    true
}

// Whether no more than four points share an author and a round.
pub fn versions_hold(keys: &[u64], order: &[u64], n: usize) -> bool
    requires keys_len { (length keys.now ≡ length order.now * 8) × (n ≤ length order.now) }
    requires inside { Inside order.now n (length order.now) }
    ensures { result ≡ versions_hold keys.now order.now n }
{
    let mut seen = [0u8; SEEN_CELLS];
    count_all(&mut seen, keys, order, n)
}

// Whether a point of this round and author may stand in a table of the rounds from bottom to top; peers: the peers of its round.
pub fn id_holds(round: u64, author: u64, bottom: Round, top: Round, peers: u32) -> bool
    ensures { result ≡ id_holds round author bottom.0 top.0 peers }
{
    if round < bottom.0 as u64 {
        return false;
    }
    if (top.0 as u64) < round {
        return false;
    }
    if PEER_LAST_WORD < author {
        return false;
    }
    has_peer(peers, author as u32)
}
