// The two questions of a plan, judged: refusals 1 to 6, 8, 9, 14, 10 and 11, in document 01's order with 14 directly before 10.
#![tactic(auto)]

ghost use Rattle.std.specs.Prelude.{◌≡◌};
ghost use Rattle.meaning.specs.Plan.{span_limit};
ghost use Rattle.units.specs.Given.{plan_of, workload_of};
ghost use Rattle.workload.specs.Asked.{AskedJudged, PlacementJudged, SpanJudged};

use units::{Periods, Plan, Refusal, Requests, Slots, Workload};

// The most periods that a horizon or a given W has: those that the start leaves of one cycle, and 65,535 where the plan repeats.
fn most_span(repeating: bool, left: Periods) -> Periods
    ensures { result.0 ≡ span_limit repeating left.0 }
{
    if repeating {
        Periods(Periods::MAX)
    } else {
        left
    }
}

// The requests, the start, the horizon or given W, and the room of a question on a plan whose cycle has so many periods: 9, 14, 10, 11.
fn asked(
    plan: Plan,
    cycle: Periods,
    requests: Requests,
    start: Periods,
    periods: Periods,
    room: usize,
) -> Result<Periods, Refusal>
    ensures { AskedJudged (plan_of plan.entry) cycle.0 requests.0 start.0 periods.0 room result }
{
    Requests::checked(u64::from(requests.0)).ok_or(Refusal::RequestsOutside)?;
    if cycle.0 <= start.0 {
        return Err(Refusal::StartOutside);
    }
    let most = most_span(plan.head.repeating, Periods(cycle.0 - start.0));
    if periods.0 == 0 || most.0 < periods.0 {
        return Err(Refusal::HorizonOutside);
    }
    if room < plan.lengths.len() {
        return Err(Refusal::NoRoom);
    }
    Ok(cycle)
}

// A placement question judged: 1 to 6, then 9, 14, 10, 11.
#[tactic(auto, using(crate::specs::Asked::sound_first, crate::specs::Asked::refused_first), unfolding(meaning::specs::Refusals::placement_refusal))]
pub fn judged_placement(
    plan: Plan,
    core: u8,
    requests: Requests,
    start: Periods,
    periods: Periods,
    room: usize,
) -> Result<Periods, Refusal>
    ensures { PlacementJudged (plan_of plan.entry) core requests.0 start.0 periods.0 room result }
{
    let cycle = judge::plan_and_core(plan, core)?;
    asked(plan, cycle, requests, start, periods, room)
}

// A span question judged before its search: 1 to 6, then 8, 9, 14, 10, 11.
#[tactic(auto, using(crate::specs::Asked::sound_first, crate::specs::Asked::refused_first), unfolding(meaning::specs::Refusals::span_refusal))]
pub fn judged_span(plan: Plan, workload: Workload, room: usize) -> Result<Periods, Refusal>
    ensures { SpanJudged (plan_of plan.entry) (workload_of workload) room result }
{
    let cycle = judge::plan_and_core(plan, workload.core)?;
    if workload.computing.0 == 0 {
        return Err(Refusal::ComputingOutside);
    }
    Slots::checked(u64::from(workload.computing.0)).ok_or(Refusal::ComputingOutside)?;
    asked(
        plan,
        cycle,
        workload.requests,
        workload.start,
        workload.horizon,
        room,
    )
}
