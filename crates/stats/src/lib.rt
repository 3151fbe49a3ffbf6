// Origin: models/stats.rs (MempoolPeerCounters).
// The nine counters of a peer, their sum, and the score that document 01 adds. The Rust's `last_round` stands beside the counters, in
// MempoolPeerStats (peer_stats). From which round on peers are counted is in ranges.
#![tactic(auto)]

ghost use Rattle.std.specs.Prelude.{◌≡◌, ◌+◌, ◌*◌, ◌<◌, ◌≤◌, min};
ghost use Rattle.spec.specs.Inspect.{band, weight, counter_list, score};
ghost use Rattle.stats.specs.Counters.{counters_of, no_counters, merge_of, with_skipped};

pub mod peer_stats;
pub mod ranges;

#[repr(C)]
#[derive(Clone, Copy)]
pub struct MempoolPeerCounters {
    pub was_leader: u16,
    pub skipped_rounds: u16,
    pub valid_points: u16,
    pub points_proved: u16,
    pub equivocated: u16,
    pub trans_invalid_points: u16,
    pub invalid_points: u16,
    pub ill_formed_points: u16,
    pub references_skipped: u16,
}

pub const COUNTERS: usize = 9;

// What a count weighs, by counter (in the order of MempoolPeerCounters) and band: 1 to 9, 10 to 99, 100 up.
const WEIGHTS: [[u32; 3]; 9] = [
    [0, 0, 0],
    [2, 3, 4],
    [0, 0, 0],
    [0, 0, 0],
    [20, 40, 60],
    [5, 8, 12],
    [10, 15, 20],
    [10, 15, 20],
    [1, 2, 3],
];

fn band_of(count: u16) -> usize
    ensures { (result ≡ band count) × (result < 3) }
{
    if count < 10 {
        return 0;
    }
    if count < 100 {
        return 1;
    }
    2
}

fn weight_of(counter: usize, count: u16) -> u32
    requires { counter < 9 }
    ensures { result ≡ weight counter count }
{
    let band = band_of(count);
    WEIGHTS[counter][band]
}

// The count times its weight.
fn weigh(counter: usize, count: u16) -> u32
    requires { counter < 9 }
    ensures { (result ≡ count * weight counter count) × (result ≤ 3932160) }
{
    let weight = weight_of(counter, count);
    count as u32 * weight
}

// The sum, or 65,535 where it is above that (CounterU16's `saturating_add`).
fn saturating_add(x: u16, y: u16) -> u16
    ensures { result ≡ min (x + y) 65535 }
{
    x.saturating_add(y)
}

impl MempoolPeerCounters {
    // No rounds counted yet.
    pub fn new() -> MempoolPeerCounters
        ensures { result ≡ no_counters }
    {
        MempoolPeerCounters {
            was_leader: 0,
            skipped_rounds: 0,
            valid_points: 0,
            points_proved: 0,
            equivocated: 0,
            trans_invalid_points: 0,
            invalid_points: 0,
            ill_formed_points: 0,
            references_skipped: 0,
        }
    }

    // The sum of both, counter by counter; each stops at 65,535.
    pub fn merge(self, other: MempoolPeerCounters) -> MempoolPeerCounters
        ensures { result ≡ merge_of self other }
    {
        MempoolPeerCounters {
            was_leader: saturating_add(self.was_leader, other.was_leader),
            skipped_rounds: saturating_add(self.skipped_rounds, other.skipped_rounds),
            valid_points: saturating_add(self.valid_points, other.valid_points),
            points_proved: saturating_add(self.points_proved, other.points_proved),
            equivocated: saturating_add(self.equivocated, other.equivocated),
            trans_invalid_points: saturating_add(
                self.trans_invalid_points,
                other.trans_invalid_points,
            ),
            invalid_points: saturating_add(self.invalid_points, other.invalid_points),
            ill_formed_points: saturating_add(self.ill_formed_points, other.ill_formed_points),
            references_skipped: saturating_add(self.references_skipped, other.references_skipped),
        }
    }

    // With this number more of references skipped, which isn't known at the same time as the others; stops at 65,535.
    pub fn add_references_skipped(self, value: u16) -> MempoolPeerCounters
        ensures { result ≡ with_skipped self value }
    {
        let mut skipped = MempoolPeerCounters::new();
        skipped.references_skipped = value;
        merged(self, skipped)
    }

    // The counters in their order.
    pub fn counts(self) -> [u16; COUNTERS]
        ensures { result ≡ counter_list (counters_of self) }
    {
        [
            self.was_leader,
            self.skipped_rounds,
            self.valid_points,
            self.points_proved,
            self.equivocated,
            self.trans_invalid_points,
            self.invalid_points,
            self.ill_formed_points,
            self.references_skipped,
        ]
    }

    // "Score (added): count times weight, summed."
    pub fn score(self) -> u32
        ensures { result ≡ score (counters_of self) }
    {
        let counts = self.counts();
        let mut sum: u32 = 0;
        for (counter, &count) in counts.iter().enumerate() {
            sum += weigh(counter, count);
        }
        sum
    }
}

// The sum left in the first (the Rust's `merge`, which has `&mut self`).
pub fn merge_into(c: &mut MempoolPeerCounters, other: MempoolPeerCounters)
    ensures { c.new ≡ merge_of c.old other }
{
    *c = MempoolPeerCounters::merge(*c, other);
}

// The same by value: a copy is changed in place and returned.
pub fn merged(c: MempoolPeerCounters, other: MempoolPeerCounters) -> MempoolPeerCounters
    ensures { result ≡ merge_of c other }
{
    let mut next = c;
    merge_into(&mut next, other);
    next
}
