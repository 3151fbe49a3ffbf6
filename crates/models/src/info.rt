// Origin: models/point/info.rs (PointInfo, without its maps).
// What a resolution gives.
use crate::parts::PointId;

// What a resolution gives. Its links stand beside it in a lent slice of five words a link, peer and digest: first the includes, then the
// witness; here are their numbers.
#[derive(Clone, Copy)]
pub struct PointInfo {
    pub status: u32,
    pub proof: bool,
    pub trigger: bool,
    pub cause: bool,
    pub top_proof: PointId,
    pub evidence: u32,
    pub includes: usize,
    pub witness: usize,
    pub payload_len: u32,
    pub payload_bytes: u32,
}
