// The raw stall of one interval at a rate, and the corners of its curve.
#![tactic(auto)]

ghost use Rattle.std.specs.Prelude.{◌≡◌, [], ◌∷◌, ◌≤◌, ◌<◌, ◌^◌, length};
ghost use Rattle.meaning.specs.Plan.{sum_of, budget_of};
ghost use Rattle.meaning.specs.Curve.{raw, sum_of_smaller};
ghost use Rattle.units.specs.Given.{corner_of};
ghost use Rattle.curve.specs.Figures.{HoldsEnvelope};
ghost use Rattle.curve.specs.Rows.{Whole, Interval};
ghost use Rattle.curve.specs.Step.{Ordered, stack_of, sags, last_sags, Ready, WithCorner};

use units::{Block, Corner, Requests, Slots};

// The budget of a core, counted from 1, among the budgets of one interval.
pub fn budget_of(row: &[u16], core: u8) -> Requests
    requires { (1 ≤ core) × (core ≤ length row.now) }
    ensures { (result.0 ≡ budget_of core row.now) × (result.0 ≤ 65_535) }
{
    Requests(u32::from(row[usize::from(core) - 1]))
}

// The sum over all budgets of the smaller of the rate and the budget.
fn sum_of_smaller(row: &[u16], rate: Requests) -> Requests
    requires { sum_of row.now < 2 ^ 32 }
    ensures { result.0 ≡ sum_of_smaller rate.0 row.now }
{
    Requests(
        row.iter()
            .map(|budget| rate.0.min(u32::from(*budget)))
            .sum(),
    )
}

// The raw stall at a rate. Below the core's budget its own part of the sum is the rate itself; each request of another core is one slot.
pub fn raw_at(per_period: Slots, row: &[u16], core: u8, rate: Requests) -> Slots
    requires { Whole per_period.0 core row.now }
    ensures { result.0 ≡ raw per_period.0 row.now core rate.0 }
{
    let budget = budget_of(row, core);
    if rate.0 < budget.0 {
        Requests(sum_of_smaller(row, rate).0 - rate.0).slots()
    } else {
        Slots(per_period.0 - budget.slots().0)
    }
}

// Whether a corner is none between two others: the slope to it is at most the slope from it, by cross-multiplying.
fn sags(last: Corner, corner: Corner, next: Corner) -> bool
    requires { Ordered (corner_of next) (corner_of corner ∷ corner_of last ∷ []) }
    ensures { result ≡ sags (corner_of last) (corner_of corner) (corner_of next) }
{
    let rise = corner.stall.0 - last.stall.0;
    let run = corner.rate.0 - last.rate.0;
    let next_rise = next.stall.0 - corner.stall.0;
    let next_run = next.rate.0 - corner.rate.0;
    rise * next_run <= next_rise * run
}

// Whether the last of these corners is none where the next one follows.
fn last_sags(corners: &[Corner], next: Corner) -> bool
    requires { Ordered (corner_of next) (stack_of corners.now (length corners.now)) }
    ensures { result ≡ last_sags (corner_of next) (stack_of corners.now (length corners.now)) }
{
    let [.., last, corner] = corners else {
        return false;
    };
    sags(*last, *corner, next)
}

// Puts the next corner on a block, after those that are then none are taken off.
fn put_on(block: &mut Block, next: Corner)
    requires { Ready (corner_of next) block.old.corners block.old.count }
    ensures { WithCorner (corner_of next) block.old block.new }
{
    let mut count = usize::from(block.count);
    // No counted loop: it goes on as long as the last corner is none.
    while last_sags(&block.corners[..count], next) {
        count -= 1;
        block.corners[count] = Corner::NONE;
    }
    block.corners[count] = next;
    block.count = count as u8 + 1;
}

// The corners of one interval: every rate from 0 to the core's budget is visited once.
pub fn interval_corners(per_period: Slots, row: &[u16], core: u8) -> Block
    requires { Interval per_period.0 core row.now }
    ensures { HoldsEnvelope per_period.0 core row.now result }
{
    let mut block = Block::EMPTY;
    for rate in 0..=budget_of(row, core).0 {
        let rate = Requests(rate);
        let stall = raw_at(per_period, row, core, rate);
        put_on(&mut block, Corner { rate, stall });
    }
    block
}
