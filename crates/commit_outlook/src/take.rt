// Origin: dag/commit/mod.rs (dequeue_anchor).
// Added by document 02, N6: an anchor of an outlook takes its history, so that those after it are told as if it had been committed.
ghost use Rattle.std.specs.Prelude.{◌≡◌, length};
ghost use Rattle.back_history.specs.Model.{Range};
ghost use Rattle.back_history.specs.Supposing.{supposing};
ghost use Rattle.output_record.specs.Marks.{marks_all};

use back_history::is_fresh;
use models::tables::PLACES_MAX;

// Takes the marked places of the positions from `low` to `high` that are neither committed nor taken. No certificate word changes; with the
// taken places the words are supposed to be those that the anchor's commit would leave.
pub fn take_history(
    taken: &mut [bool; PLACES_MAX],
    marks: &[bool; PLACES_MAX],
    certs: &[u64],
    order: &[u64],
    low: usize,
    high: usize,
)
    requires range { Range certs.now order.now low high }
    requires taken_len { length taken.old ≡ 4096 }
    ensures words { supposing taken.new certs.now ≡ marks_all order.now marks.now low (supposing taken.old certs.now) high }
    ensures places { length taken.new ≡ 4096 }
{
    for &word in &order[low..high] {
        let q = laws::slot(word);
        if is_fresh(marks, certs, taken, q) {
            taken[q] = true;
        }
    }
}
