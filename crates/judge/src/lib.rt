// The plan and the core of a question, judged: refusals 1 to 6 in document 01's order.
#![tactic(auto)]

ghost use Rattle.std.specs.Prelude.{◌≡◌, ◌*◌, ◌≤◌, length};
ghost use Rattle.units.specs.Given.{plan_of};
ghost use Rattle.judge.specs.Judged.{Passed, Judged, bounds_refusal, IntervalJudged, PlanJudged, CoreJudged};
ghost use Rattle.meaning.specs.Plan.{sum_of, rows, most_cores};
ghost use Rattle.meaning.specs.Refusals.{outside, intervals_refusal};

use units::{Head, Periods, Plan, Refusal, Slots, sum};

// Whether a number is not 1..last.
fn outside(last: usize, number: usize) -> bool
    ensures { result ≡ outside 1 last number }
{
    number == 0 || last < number
}

// A head for so many intervals: 1, 2, then 3.
pub fn bounds(head: Head, intervals: usize) -> Result<(), Refusal>
    ensures { Passed (bounds_refusal head.cores head.per_period.0 intervals) result }
{
    if outside(usize::from(Head::MOST_CORES), usize::from(head.cores)) {
        return Err(Refusal::CoresOutside);
    }
    Slots::checked_per_period(u64::from(head.per_period.0)).ok_or(Refusal::PerPeriodOutside)?;
    if outside(usize::from(Head::MOST_INTERVALS), intervals) {
        return Err(Refusal::IntervalsOrBudgetsOutside);
    }
    Ok(())
}

// One interval whose budgets have this sum, after so many periods, 4 before 5; where it is sound, the periods with it.
pub fn interval(
    head: Head,
    passed: Periods,
    periods: Periods,
    sum: Slots,
) -> Result<Periods, Refusal>
    ensures { IntervalJudged head.per_period.0 passed.0 periods.0 sum.0 result }
{
    if periods.0 == 0 {
        return Err(Refusal::PeriodsOutside);
    }
    let total = Periods::checked(u64::from(passed.0) + u64::from(periods.0)).ok_or(
        Refusal::PeriodsOutside,
    )?;
    if sum.0 != head.per_period.0 {
        return Err(Refusal::SumNotPerPeriod);
    }
    Ok(total)
}

// The intervals in order, each 4 before 5.
fn intervals(plan: Plan) -> Result<Periods, Refusal>
    requires { (plan.head.cores ≤ most_cores) × (length plan.budgets.now ≡ length plan.lengths.now * plan.head.cores) }
    ensures { Judged (intervals_refusal plan.entry.head.per_period.0 0 plan.entry.lengths.now (rows (plan_of plan.entry))) (sum_of plan.entry.lengths.now) result }
{
    let mut total = Periods(0);
    for (i, length) in plan.lengths.iter().enumerate() {
        let whole = Slots(sum(plan.row(i)));
        total = interval(plan.head, total, Periods(*length), whole)?;
    }
    Ok(total)
}

// A plan judged by itself: 1, 2, 3, then per interval in order 4 before 5.
pub fn plan(plan: Plan) -> Result<Periods, Refusal>
    ensures { PlanJudged (plan_of plan.entry) result }
{
    bounds(plan.head, plan.lengths.len())?;
    if plan.budgets.len() != plan.lengths.len() * usize::from(plan.head.cores) {
        return Err(Refusal::IntervalsOrBudgetsOutside);
    }
    intervals(plan)
}

// A plan and the core under analysis, which may be parked in any interval: 1 to 5, then 6.
pub fn plan_and_core(plan: Plan, core: u8) -> Result<Periods, Refusal>
    ensures { CoreJudged (plan_of plan.entry) core result }
{
    let total = crate::plan(plan)?;
    if outside(usize::from(plan.head.cores), usize::from(core)) {
        return Err(Refusal::CoreOutside);
    }
    Ok(total)
}
