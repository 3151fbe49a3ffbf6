// Origin: none.
// The lines at the end of a play.
ghost use Rattle.std.specs.Prelude.{◌≡◌, [], ◌∷◌, ◌++◌, ◌≤◌, length};
ghost use Rattle.tables_test.specs.View.{view, view_of};
ghost use Rattle.lines.specs.Lines.{text, rounds_line, last_line, end_lines};
ghost use Rattle.lines.specs.Put.{Put};

use crate::line::{put_refused, put_rounds};
use commit_state::dag::Dag;
use commit_state::state::State;
use tables_test::counts_as_started;

// What the last line says.
#[derive(Clone, Copy)]
struct Rounds {
    bottom: u32,
    top: u32,
}

// "bottom and top, both 0 if nothing is started".
fn rounds_of(dag: &Dag) -> Rounds
    ensures { rounds_line result.bottom result.top ≡ last_line (view_of dag.now) }
{
    if counts_as_started(dag) {
        let bottom = dag.state.bottom;
        let top = dag.state.top;
        return Rounds {
            bottom: bottom.0,
            top: top.0,
        };
    }
    Rounds { bottom: 0, top: 0 }
}

// The line of the record that ended the play, if its number isn't 0, in at most 19 bytes.
fn put_code(code: u32, out: &mut [u8]) -> usize
    requires { 19 ≤ length out.old }
    ensures { Put out.old 0 (text (end_lines code)) result out.new × (result ≤ 19) }
{
    if code == 0 {
        return 0;
    }
    put_refused(out, 0, code)
}

// The lines at the end: 26 or 27 if a record ended the play (code, 0 for none), then the rounds, in at most 48 bytes.
pub fn put_end(
    code: u32,
    s: State,
    keys: &[u64],
    links: &[u64],
    certs: &[u64],
    order: &[u64],
    out: &mut [u8],
) -> usize
    requires { 48 ≤ length out.old }
    ensures { Put out.old 0 (text (end_lines code ++ (last_line (view s keys.now links.now certs.now order.now) ∷ [])))
        result out.new × (result ≤ 48) }
{
    let dag = Dag {
        state: &s,
        keys,
        links,
        certs,
        order,
    };
    let rounds = rounds_of(&dag);
    let next = put_code(code, out);
    put_rounds(out, next, rounds.bottom, rounds.top)
}
