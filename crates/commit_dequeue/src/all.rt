// Origin: dag/commit/mod.rs (commit).
// The anchors of a chain, oldest first, up to the first that is refused.
ghost use Rattle.std.specs.Prelude.{◌≡◌, true, ◌≤◌};
ghost use Rattle.spec.specs.Rules.{counts_as_started};
ghost use Rattle.spec.specs.Walk.{Rising};
ghost use Rattle.spec.specs.History.{commit_all};
ghost use Rattle.tables_test.specs.View.{view};
ghost use Rattle.back_chain.specs.Chain.{chain_of};
ghost use Rattle.commit_dequeue.specs.All.{left_of, finished_of, all_of};

use crate::one::dequeue_anchor;
use back_walk::EnqueuedAnchor;
use commit_state::state::State;
use models::refusal::Refusal;
use models::tables::ROUNDS_MAX;

// What stopped the anchors, if anything did; the state and the number of finished anchors, which the clauses say of stopped ones too.
#[derive(Clone, Copy)]
pub struct All {
    pub check: Result<(), Refusal>,
    pub state: State,
    pub finished: u32,
}

// The `count` anchors of the list, which has the newest first, their lists and records from the first byte on. Finished anchors stay
// finished if a later one is refused.
pub fn commit_all(
    s: State,
    keys: &[u64],
    links: &[u64],
    certs: &mut [u64],
    order: &[u64],
    lists: &[u8],
    b: &mut [u8],
    list: [EnqueuedAnchor; ROUNDS_MAX],
    count: usize,
) -> All
    requires order_value { counts_as_started (view s keys.now links.now certs.old order.now) ≡ true }
    requires rising { Rising (view s keys.now links.now certs.old order.now) 0 (chain_of list count) }
    requires count_bound { count ≤ 512 }
    ensures words { left_of result.check result.state certs.new b.new result.finished ≡ all_of keys.now links.now
        order.now s certs.old lists.now 0 b.old 0 0 (chain_of list count) }
    ensures finished { finished_of keys.now links.now order.now
        (left_of result.check result.state certs.new b.new result.finished) ≡ commit_all
        (view s keys.now links.now certs.old order.now) lists.now b.old 0 0 (chain_of list count) }
{
    let mut cur = s;
    let mut from: usize = 0;
    let mut end: usize = 0;
    let mut finished: u32 = 0;
    for k in (0..count).rev() {
        let e = list[k];
        let o = dequeue_anchor(cur, keys, links, certs, order, lists, from, b, end, e);
        cur = o.state;
        let check = o.check;
        if let Err(r) = check {
            return All {
                check: Err(r),
                state: cur,
                finished,
            };
        }
        from = o.lists_end;
        end = o.end;
        finished += 1;
    }
    All {
        check: Ok(()),
        state: cur,
        finished,
    }
}
