// Origin: models/cert.rs (max_height_published).
// The stored heights tested in one pass over the links.
#![tactic(auto)]

ghost use Rattle.std.specs.Prelude.{◌≡◌, ◌+◌, ◌*◌, ◌-◌, ◌/◌, ◌<◌, ◌≤◌, length};
ghost use Rattle.tables_heights.specs.View.{own_of};
ghost use Rattle.tables_heights.specs.Model.{raised, pushed, pushed_one, pushed_all, agrees, heights_hold};
ghost use Rattle.models.specs.Cert.{height_of};
ghost use Rattle.models.specs.Tables.{Inside, target_at};

use models::cert::Cert;
use models::parts::{Height, Round};
use models::place::{live_links, target};
use models::tables::{PEERS_MAX, PLACES_MAX};

// A cell for each target word: one for no link, one for each place.
const HEIGHT_CELLS: usize = PLACES_MAX + 1;

// Raises cell p to v; a p that is no cell is passed over.
fn raise(cells: &mut [u16], p: u64, v: Height)
    ensures { cells.new ≡ raised cells.old p v.0 }
{
    let i = p as usize;
    if i < cells.len() {
        cells[i] = cells[i].max(v.0);
    }
}

// The height d rounds down.
fn less(v: Height, d: u16) -> Height
    ensures { result.0 ≡ v.0 - d }
{
    Height(v.0.saturating_sub(d))
}

// Hands the height v of place q down its first m links; a height below 2 reaches no place, and then no link is read.
fn push(cells: &mut [u16], links: &[u64], q: usize, v: Height, m: usize)
    requires { (m ≤ 64) × (q * 328 + 328 ≤ length links.now) }
    ensures { cells.new ≡ pushed (target_at links.now q) cells.old v.0 m }
{
    if v.0 < 2 {
        return;
    }
    for k in 0..m {
        let d = (1 + k / PEERS_MAX) as u16;
        raise(cells, target(links, q, k), less(v, d));
    }
}

// The height of a top for a top, else 0.
fn own(cert: Cert, top: Height) -> Height
    ensures { result.0 ≡ own_of top.0 cert.0 }
{
    if cert.is_top() { top } else { Height(0) }
}

// Place q with its certificate word: its own height, then its m live links.
fn push_one(cells: &mut [u16], links: &[u64], q: usize, cert: Cert, top: Height, m: usize)
    requires { (m ≤ 64) × (q * 328 + 328 ≤ length links.now) }
    ensures { cells.new ≡ pushed_one (target_at links.now q) cells.old (q + 1) (own_of top.0 cert.0) (height_of cert.0) m }
{
    raise(cells, (q + 1) as u64, own(cert, top));
    push(cells, links, q, cert.height(), m);
}

// The first n places of the order; tops have the height `top`.
fn push_all(
    cells: &mut [u16],
    keys: &[u64],
    links: &[u64],
    certs: &[u64],
    order: &[u64],
    n: usize,
    bottom: Round,
    top: Height,
)
    requires order_len_bound { (length order.now ≤ 4096) × (length keys.now ≡ length order.now * 8) × (length links.now ≡ length order.now * 328) ×
        (length certs.now ≡ length order.now) × (n ≤ length order.now) }
    requires inside { Inside order.now n (length order.now) }
    ensures { cells.new ≡ pushed_all bottom.0 top.0 keys.now links.now certs.now order.now cells.old n }
{
    for &cell in &order[..n] {
        let q = laws::slot(cell);
        let cert = Cert(certs[q]);
        push_one(cells, links, q, cert, top, live_links(keys, bottom, q));
    }
}

// Whether each used place's cell holds the height of its word.
fn agree(cells: &[u16], certs: &[u64], order: &[u64], n: usize) -> bool
    requires order_in_bounds { (length order.now < length cells.now) × (length certs.now ≡ length order.now) × (n ≤ length order.now) }
    requires inside { Inside order.now n (length order.now) }
    ensures { result ≡ agrees cells.now certs.now order.now n }
{
    order[..n].iter().all(|&cell| {
        let q = laws::slot(cell);
        cells[q + 1] == Cert(certs[q]).height().0
    })
}

// Whether every stored height is right, with the height `top` of tops.
pub fn heights_hold(
    keys: &[u64],
    links: &[u64],
    certs: &[u64],
    order: &[u64],
    n: usize,
    bottom: Round,
    top: Height,
) -> bool
    requires order_len_bound { (length order.now ≤ 4096) × (length keys.now ≡ length order.now * 8) × (length links.now ≡ length order.now * 328) ×
        (length certs.now ≡ length order.now) × (n ≤ length order.now) }
    requires inside { Inside order.now n (length order.now) }
    ensures { result ≡ heights_hold bottom.0 top.0 keys.now links.now certs.now order.now n }
{
    let mut cells = [0u16; HEIGHT_CELLS];
    push_all(&mut cells, keys, links, certs, order, n, bottom, top);
    agree(&cells, certs, order, n)
}
