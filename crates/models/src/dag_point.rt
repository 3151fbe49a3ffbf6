// Origin: models/dag_point.rs (DagPoint).
// Digests and links stand beside the case, in the tables.
ghost use Rattle.std.specs.Prelude.{◌≡◌};
ghost use Rattle.models.specs.DagPoint.{case_of, has_info};

// The cases of a resolved point.
#[derive(Clone, Copy)]
pub enum DagPoint {
    Valid,
    TransInvalid,
    Invalid,
    IllFormed,
    NotFound,
}

// The case that a status number stands for, if it stands for one.
pub fn of_status(status: u64) -> Option<DagPoint>
    ensures { result ≡ case_of status }
{
    match status {
        1 => Some(DagPoint::Valid),
        2 => Some(DagPoint::TransInvalid),
        3 => Some(DagPoint::Invalid),
        4 => Some(DagPoint::IllFormed),
        5 => Some(DagPoint::NotFound),
        _ => None,
    }
}

impl DagPoint {
    // Whether such a point comes with links and evidence.
    pub fn has_info(self) -> bool
        ensures { result ≡ has_info self }
    {
        match self {
            DagPoint::Valid => true,
            DagPoint::TransInvalid => true,
            DagPoint::Invalid => true,
            DagPoint::IllFormed => false,
            DagPoint::NotFound => false,
        }
    }
}
