// Origin: none.
// Calls written as records of a trace, for C: one function for each call, with what that call takes. No state and no tables are taken.
ghost use Rattle.std.specs.Prelude.{List, ℕ};
ghost use Rattle.spec.specs.Calls as calls;
ghost use Rattle.commit_state.specs.Reads.{start_args_of};
ghost use Rattle.models.specs.Parts.{id_of};
ghost use Rattle.committer_reply.specs.Args.{start_args_in, since_in, info_in};
ghost use Rattle.trace_write.specs.Puts.{Puts};
ghost use Rattle.trace_write.specs.Resolve.{PutsResolve};

use committer_reply::args::{Resolution, Start, info_in, since_in, start_args_in};
use models::parts::{PointId, Round};
use trace_write::head::Written;
use trace_write::points::{put_certify, put_commit, put_name};
use trace_write::resolve::put_resolve;
use trace_write::rounds::{put_drop, put_gap, put_remove, put_reset, put_round, put_start};

#[unsafe(no_mangle)]
pub extern "C" fn committer_write_start(b: &mut [u8], with: Start) -> Written
    ensures { Puts b.old (calls.start (start_args_of (start_args_in with))) result.refused result.length b.new }
{
    let beginning = start_args_in(with);
    put_start(b, beginning)
}

#[unsafe(no_mangle)]
pub extern "C" fn committer_write_reset(b: &mut [u8]) -> Written
    ensures { Puts b.old calls.reset_all result.refused result.length b.new }
{
    put_reset(b)
}

#[unsafe(no_mangle)]
pub extern "C" fn committer_write_round(b: &mut [u8], round: u32, peers: u32) -> Written
    ensures { Puts b.old (calls.round round peers) result.refused result.length b.new }
{
    put_round(b, Round(round), peers)
}

#[unsafe(no_mangle)]
pub extern "C" fn committer_write_gap(b: &mut [u8]) -> Written
    ensures { Puts b.old calls.gap_question result.refused result.length b.new }
{
    put_gap(b)
}

#[unsafe(no_mangle)]
pub extern "C" fn committer_write_drop(b: &mut [u8], round: u32) -> Written
    ensures { Puts b.old (calls.drop round) result.refused result.length b.new }
{
    put_drop(b, Round(round))
}

// has_since: 0 for none. The call's own buffer isn't in its record.
#[unsafe(no_mangle)]
pub extern "C" fn committer_write_remove(
    b: &mut [u8],
    round: u32,
    has_since: u32,
    since: u32,
) -> Written
    ensures { (room : List ℕ) → Puts b.old (calls.remove round (since_in has_since since) room) result.refused result.length b.new }
{
    let stats_since = since_in(has_since, since);
    put_remove(b, Round(round), stats_since)
}

#[unsafe(no_mangle)]
pub extern "C" fn committer_write_name(b: &mut [u8], id: PointId) -> Written
    ensures { Puts b.old (calls.name (id_of id)) result.refused result.length b.new }
{
    put_name(b, id)
}

// refs: the links, five words each, peer and digest, the includes first.
#[unsafe(no_mangle)]
pub extern "C" fn committer_write_resolve(
    b: &mut [u8],
    id: PointId,
    resolution: Resolution,
    refs: &[u64],
) -> Written
    ensures { PutsResolve b.old (id_of id) (info_in resolution) refs.now result.refused result.length b.new }
{
    let info = info_in(resolution);
    put_resolve(b, id, info, refs)
}

#[unsafe(no_mangle)]
pub extern "C" fn committer_write_certify(b: &mut [u8], id: PointId) -> Written
    ensures { Puts b.old (calls.certify (id_of id)) result.refused result.length b.new }
{
    put_certify(b, id)
}

// lists: the places of each anchor's rounds. The call's own buffer isn't in its record.
#[unsafe(no_mangle)]
pub extern "C" fn committer_write_commit(b: &mut [u8], id: PointId, lists: &[u8]) -> Written
    ensures { (room : List ℕ) → Puts b.old (calls.commit (id_of id) lists.now room) result.refused result.length b.new }
{
    put_commit(b, id, lists)
}
