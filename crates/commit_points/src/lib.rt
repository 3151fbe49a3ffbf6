// Origin: dag/dag_round.rs (add_dependency), models/cert.rs (certify, set_deps).
// The calls that name a point (name), resolve it (resolve) and certify it (certify).
#![tactic(auto)]

pub mod certify;
pub mod name;
pub mod resolve;
