// Origin: models/cert.rs, models/dag_point.rs, models/output.rs, models/point/info.rs, models/point/parts.rs.
// Rounds, heights, digests, ids and peer sets (parts), the certificate word (cert), what a resolution gives (info) and its five cases
// (dag_point), what a call is refused with (refusal), the words of the lent tables (tables) and of a place in them (place), sizes of answers
// (output).
#![tactic(auto)]

pub mod cert;
pub mod dag_point;
pub mod info;
pub mod output;
pub mod parts;
pub mod place;
pub mod refusal;
pub mod tables;
