// Origin: dag/commit/mod.rs (commit).
// Added by document 01, 'Outlook': the anchors of a chain, oldest first. Nothing is written unless all of them pass, so they are tested
// first and told in a second walk. By document 02, N6, each walk goes on as if the anchors behind it had been committed.
ghost use Rattle.std.specs.Prelude.{◌≡◌, true, ◌≤◌, length};
ghost use Rattle.laws.specs.Bytes.{written};
ghost use Rattle.spec.specs.Chain.{good};
ghost use Rattle.spec.specs.Rules.{counts_as_started};
ghost use Rattle.spec.specs.History.{outlook_all};
ghost use Rattle.spec.specs.Outlook.{tests, looks};
ghost use Rattle.spec.specs.Walk.{Rising};
ghost use Rattle.models.specs.Refusal.{unless_failed};
ghost use Rattle.tables_test.specs.View.{view_of};
ghost use Rattle.back_chain.specs.Chain.{chain_of};
ghost use Rattle.commit_outlook.specs.Chain.{ChainLooked};

use crate::look::{look_one, put_look};
use back_walk::EnqueuedAnchor;
use commit_state::dag::Dag;
use models::refusal::Refusal;
use models::tables::{PLACES_MAX, ROUNDS_MAX};

// The tests of the `count` anchors of the list, which has the newest first, with `room` bytes for them; up to the first that is refused.
pub fn look_all(
    dag: &Dag,
    list: [EnqueuedAnchor; ROUNDS_MAX],
    count: usize,
    room: usize,
) -> Result<(), Refusal>
    requires order_value { counts_as_started (view_of dag.now) ≡ true }
    requires rising { Rising (view_of dag.now) 0 (chain_of list count) }
    requires count_bound { count ≤ 512 }
    ensures { unless_failed result (good (looks (view_of dag.now) (chain_of list count)))
        ≡ outlook_all (view_of dag.now) room (chain_of list count) }
{
    let mut taken = [false; PLACES_MAX];
    let mut left = room;
    for k in (0..count).rev() {
        let e = list[k];
        let o = look_one(dag, &mut taken, e, left);
        o.check?;
        left -= o.size;
    }
    Ok(())
}

// The bytes of the anchors, oldest first, from the buffer's first byte on.
pub fn put_looks(dag: &Dag, b: &mut [u8], list: [EnqueuedAnchor; ROUNDS_MAX], count: usize)
    requires order_value { counts_as_started (view_of dag.now) ≡ true }
    requires rising { Rising (view_of dag.now) 0 (chain_of list count) }
    requires count_bound { (count ≤ 512) × (tests (view_of dag.now) (chain_of list count) ≡ good 0) }
    requires count_in_bounds { length (looks (view_of dag.now) (chain_of list count)) ≤ length b.old }
    ensures { b.new ≡ written b.old 0
        (looks (view_of dag.now) (chain_of list count)) }
{
    let mut taken = [false; PLACES_MAX];
    let mut at: usize = 0;
    for k in (0..count).rev() {
        let e = list[k];
        at = put_look(dag, &mut taken, b, at, e);
    }
}

// The anchors of a chain told into the buffer; a refusal leaves it as it was.
pub fn look_chain(
    dag: &Dag,
    b: &mut [u8],
    list: [EnqueuedAnchor; ROUNDS_MAX],
    count: usize,
) -> Result<(), Refusal>
    requires order_value { counts_as_started (view_of dag.now) ≡ true }
    requires rising { Rising (view_of dag.now) 0 (chain_of list count) }
    requires count_bound { count ≤ 512 }
    ensures { ChainLooked (view_of dag.now) b.old (chain_of list count) result b.new }
{
    look_all(dag, list, count, b.len())?;
    put_looks(dag, b, list, count);
    Ok(())
}
