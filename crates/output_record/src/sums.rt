// Origin: models/point/info.rs (payload_len, payload_bytes).
// The sums that a record ends with.
ghost use Rattle.std.specs.Prelude.{◌≡◌, ◌+◌, ◌*◌, ◌-◌, ◌≤◌, length};
ghost use Rattle.laws.specs.Bytes.{written};
ghost use Rattle.models.specs.Tables.{Inside};
ghost use Rattle.back_history.specs.Model.{is_uncommitted};
ghost use Rattle.output_record.specs.Sums.{len_sum, bytes_sum, sums_of};

use answer_bytes::put_number;
use back_history::is_uncommitted;
use commit_state::dag::Dag;
use models::tables::PLACES_MAX;

// 02, N2: "their two 64-bit sums over its history".
#[derive(Clone, Copy)]
pub struct PayloadSums {
    pub len: u64,
    pub bytes: u64,
}

// The sums over the history. At most 4,096 numbers below 2^32 each: no sum leaves 64 bits.
pub fn payload_sums(marks: &[bool; PLACES_MAX], dag: &Dag, low: usize, high: usize) -> PayloadSums
    requires { (low ≤ high) × (high ≤ length dag.now.order.now) × (high ≤ 4096) × (length dag.now.certs.now ≤ 4096) × (length dag.now.certs.now * 328 ≤ length dag.now.links.now)
        × Inside dag.now.order.now high (length dag.now.certs.now) }
    ensures { (result.len ≡ len_sum dag.now.links.now dag.now.order.now (is_uncommitted dag.now.certs.now marks.now) low (high - low))
        × (result.bytes ≡ bytes_sum dag.now.links.now dag.now.order.now (is_uncommitted dag.now.certs.now marks.now) low (high - low)) }
{
    let mut len: u64 = 0;
    let mut bytes: u64 = 0;
    for &word in &dag.order[low..high] {
        let q = laws::slot(word);
        if is_uncommitted(marks, dag.certs, q) {
            let payload = models::place::payload(dag.links, q);
            len += payload / 4294967296;
            bytes += payload % 4294967296;
        }
    }
    PayloadSums { len, bytes }
}

// Both, 8 bytes each.
pub fn put_sums(b: &mut [u8], at: usize, sums: PayloadSums) -> usize
    requires { at + 16 ≤ length b.old }
    ensures { (result ≡ at + 16) × (b.new ≡ written b.old at (sums_of sums.len sums.bytes)) }
{
    let next = put_number(b, at, 8, sums.len);
    put_number(b, next, 8, sums.bytes)
}
