// Origin: models/cert.rs (certify, traverse_certify, certify_deeper, max_height_published).
// A certified point becomes a top. A height that rose is handed on along the links: each place that rises is queued once, and no other
// place is touched.
#![tactic(auto)]

ghost use Rattle.std.specs.Prelude.{◌≡◌, ◌+◌, ◌*◌, ◌<◌, ◌≤◌, length};
ghost use Rattle.models.specs.Tables.{target_at};
ghost use Rattle.tables_heights.specs.View.{height_at};
ghost use Rattle.cert_certify.specs.Model.{work, deeper, Fits, handed, Open, Ready, propagated, traversed};
ghost use Rattle.cert_certify.specs.Sane.{Placed};
ghost use Rattle.cert_certify.specs.ModelCertify.{certified_certs, Certifiable};

use commit_state::state::State;
use models::cert::Cert;
use models::parts::{Height, Round};
use models::place::target;
use models::tables::{PEERS_MAX, PLACES_MAX};

// A link with the target word `target`, d rounds down from a place of height h: its target rises to h - d if it is lower, and is
// queued. Returns the new end of the queue.
fn certify_deeper(
    certs: &mut [u64],
    queue: &mut [u16],
    tail: usize,
    target: u64,
    h: Height,
    d: u16,
) -> usize
    requires queue_len { (length queue.old ≡ 4096) × (h.0 < 4096) × (d ≤ 2) × (length certs.old ≤ 4096) }
    requires fits { Fits (work certs.old queue.old tail) target h.0 d }
    ensures { work certs.new queue.new result ≡ deeper (work certs.old queue.old tail) target h.0 d }
{
    if target == 0 {
        return tail;
    }
    let t = (target - 1) as usize;
    let cert = Cert(certs[t]);
    let height = cert.height();
    if height.0 + d < h.0 {
        let higher = cert.with_height(Height(h.0 - d));
        certs[t] = higher.0;
        queue[tail] = (target - 1) as u16;
        return tail + 1;
    }
    tail
}

// Hands the height of place p on along its first m links. Returns the new end of the queue.
fn certify_deps(
    links: &[u64],
    certs: &mut [u64],
    queue: &mut [u16],
    tail: usize,
    p: usize,
    m: usize,
) -> usize
    requires m_bound { (m ≤ 64) × (p * 328 + 328 ≤ length links.now) × (p < length certs.old) × (length queue.old ≡ 4096) × (length certs.old ≤ 4096) }
    requires fact { Open links.now (work certs.old queue.old tail) p m }
    ensures { work certs.new queue.new result ≡ handed (target_at links.now p) (height_at certs.old p)
        (work certs.old queue.old tail) m }
{
    let cert = Cert(certs[p]);
    let h = cert.height();
    let mut end = tail;
    for k in 0..m {
        let word = target(links, p, k);
        let d = (1 + k / PEERS_MAX) as u16;
        end = certify_deeper(certs, queue, end, word, h, d);
    }
    end
}

// A queued place. Two bytes are enough for 4,096 places and keep the queue small.
fn slot(x: u16) -> usize
    ensures { result ≡ x }
{
    x as usize
}

// Visits the queue, whose first entry is there, until no entry is left.
fn certify_queued(keys: &[u64], links: &[u64], certs: &mut [u64], queue: &mut [u16], bottom: Round)
    requires keys_len { (length keys.now ≡ length certs.old * 8) × (length links.now ≡ length certs.old * 328) × (length queue.old ≡ 4096) × (length certs.old ≤ 4096) }
    requires ready { Ready bottom.0 keys.now links.now (work certs.old queue.old 1) }
    ensures { certs.new ≡ propagated bottom.0 keys.now links.now (work certs.old queue.old 1) }
{
    let mut tail: usize = 1;
    let mut head: usize = 0;
    // A work queue: a visit moves its end too.
    while head < tail {
        let p = slot(queue[head]);
        let m = models::place::live_links(keys, bottom, p);
        tail = certify_deps(links, certs, queue, tail, p, m);
        head += 1;
    }
}

// Hands the height of place q on to all places that its links lead to.
pub fn traverse_certify(keys: &[u64], links: &[u64], certs: &mut [u64], q: usize, bottom: Round)
    requires keys_len { (length keys.now ≡ length certs.old * 8) × (length links.now ≡ length certs.old * 328) }
    requires placed { Placed bottom.0 keys.now links.now certs.old q }
    ensures { certs.new ≡ traversed bottom.0 keys.now links.now certs.old q }
{
    let mut queue = [0u16; PLACES_MAX];
    queue[0] = q as u16;
    certify_queued(keys, links, certs, &mut queue, bottom);
}

// Certifies the point at place q: it is a top, and its height is handed on.
pub fn certify_at(s: &State, keys: &[u64], links: &[u64], certs: &mut [u64], q: usize)
    requires { Certifiable s.now keys.now links.now certs.old q }
    ensures { certs.new ≡ certified_certs s.now keys.now links.now certs.old q }
{
    let bottom = s.bottom;
    let height = s.top_height();
    let cert = Cert(certs[q]);
    let top = cert.set_top();
    let word = top.with_height(height);
    certs[q] = word.0;
    traverse_certify(keys, links, certs, q, bottom);
}
