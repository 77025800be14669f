// What is found once for a plan, a core and a beginning.
ghost use Rattle.std.specs.List.{AllByRecursion-prop};
ghost use Rattle.std.proofs.Props.{props};
ghost use Rattle.segments.specs.Picks.{Runs, picks_of};

use arrayvec::ArrayVec;
use segments::Segments;

// The segments of all intervals that can be met, in the order of filling, and the base of each interval, its stall at 0 requests: Q where
// the core is parked, else 0. Bases are 0 past the end of their list.
#[derive(Drop)]
pub struct Prepared {
    pub segments: Segments,
    pub bases: ArrayVec<u16, 64>,
    ghost runs: { Runs (picks_of segments.items) } by { AllByRecursion-prop _ (λ s. Prim.hlevel props) (picks_of segments.items) },
}
