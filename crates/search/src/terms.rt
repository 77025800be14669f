// What 004's terms of a workload are made from.
ghost use Rattle.std.specs.Prelude.{◌≤◌};
ghost use Rattle.meaning.specs.Plan.{most_per_period};

use stall::Prepared;
use units::{Slots, Workload};

// What 004's terms of a workload are made from: the prepared curves, Q, and the workload.
#[derive(Clone, Copy)]
pub struct Terms<'a> {
    pub prepared: &'a Prepared,
    pub per_period: Slots,
    pub workload: Workload,
    ghost some: { 1 ≤ per_period.0 },
    ghost few: { per_period.0 ≤ most_per_period },
}
