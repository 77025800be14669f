// The two questions on one interval: its raw stall at r requests, and the corners of its curve. Head, budgets and core are not one value: a
// plan has lengths beside them, and these questions have none.
#![tactic(auto)]

ghost use Rattle.std.specs.Prelude.{◌≤◌};
ghost use Rattle.meaning.specs.Promises.{RawPromise, CornersPromise};
ghost use Rattle.interval.specs.Figures.{raw_figures, corners_figures};
ghost use Rattle.interval.specs.Asked.{OneJudged, RatesWritten};

use curve::{budget_of, interval_corners, raw_at};
use units::{Block, Head, Periods, Plan, Refusal, Requests, Slots};

// The rates of a block's corners, from the front of the place, where they fit.
fn write_rates(block: &Block, place: &mut [u16]) -> Result<u8, Refusal>
    requires { block.now.count ≤ 9 }
    ensures { RatesWritten block.now place.old (corners_figures result) place.new }
{
    let corners = &block.corners[..usize::from(block.count)];
    if place.len() < corners.len() {
        return Err(Refusal::NoRoom);
    }
    for (i, corner) in corners.iter().enumerate() {
        place[i] = corner.rate.0 as u16;
    }
    Ok(block.count)
}

// The budgets of a one-interval question, judged with one interval of one period: 1, 2, 3, 5, 6.
fn one_interval(head: Head, budgets: &[u16], core: u8) -> Result<Periods, Refusal>
    ensures { OneJudged head.cores head.per_period.0 budgets.now core result }
{
    let plan = Plan {
        head,
        lengths: &[1u16],
        budgets,
    };
    judge::plan_and_core(plan, core)
}

// Raw stall at r: the most slots that the core waits in one period in which it makes r requests.
// `head` has the number of cores and Q. `budgets`, lent for the call and only read, has one budget for each core, core 1 first.
// `core`, counted from 1, is the core under analysis. `rate` is r.
// Refused with 1, 2, 3, 5, 6, and with 13 where r is above the core's budget. A core with budget 0 is parked: at 0 it waits all of Q.
pub fn raw_stall(head: Head, budgets: &[u16], core: u8, rate: Requests) -> Result<Slots, Refusal>
    ensures { RawPromise head.cores head.per_period.0 budgets.now core rate.0 (raw_figures result) }
{
    one_interval(head, budgets, core)?;
    if budget_of(budgets, core).0 < rate.0 {
        return Err(Refusal::RateAboveBudget);
    }
    Ok(raw_at(head.per_period, budgets, core, rate))
}

// Corners for one interval: the rates at which its curve starts, bends and ends, at most nine of them, rising from 0 to the core's budget;
// the one rate 0 where the core is parked.
// `head`, `budgets` and `core` are as for the raw stall. `place` is lent for the call: the rates are written from its front, as many as
// the answer counts, and the rest of it is kept.
// Refused with 1, 2, 3, 5, 6, and with 11 where the place is shorter than the count; then all of the place is kept.
pub fn corners(head: Head, budgets: &[u16], core: u8, place: &mut [u16]) -> Result<u8, Refusal>
    ensures { CornersPromise head.cores head.per_period.0 budgets.now core place.old (corners_figures result) place.new }
{
    one_interval(head, budgets, core)?;
    let block = interval_corners(head.per_period, budgets, core);
    write_rates(&block, place)
}
