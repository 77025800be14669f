// The two questions of a whole plan: placement and stall at a given W, and span.
#![tactic(auto)]

ghost use Rattle.std.specs.Prelude.{◌≡◌, ◌+◌, ◌≤◌, length};
ghost use Rattle.meaning.specs.Plan.{most_intervals, most_work, periods};
ghost use Rattle.meaning.specs.Promises.{PlacementPromise, SpanPromise};
ghost use Rattle.plan_laws.specs.SoundPlan.{SoundPlan, SoundCore, SoundFrom};
ghost use Rattle.units.specs.Given.{plan_of, workload_of};
ghost use Rattle.segments.specs.Picks.{picks_of, Inside};
ghost use Rattle.shares.specs.Part.{Begins};
ghost use Rattle.search.specs.Walked.{stall_with, Gives};
ghost use Rattle.span.specs.Figures.{placement_figures, span_figures};
ghost use Rattle.span.specs.Prepared.{PreparedPart, PreparedFor, ParkedUntil, LastParked, first_met};
ghost use Rattle.span.specs.Begun.{BegunFor};

use arrayvec::ArrayVec;
use search::Terms;
use shares::Beginning;
use stall::Prepared;
use units::{Block, Periods, Plan, Refusal, Requests, Slots, Workload};

// The answer to "span", where there is one.
#[derive(Clone, Copy, Debug, PartialEq, Eq)]
pub struct SpanAnswer {
    pub span: Periods,
    pub stall: Slots,
    pub rounds: u32,
}

// A beginning in a plan, and what is prepared for a core from there on.
#[derive(Drop)]
struct Begun {
    begin: Beginning,
    prepared: Prepared,
}

// How many intervals there are up to the last one in which the core is parked; 0 where it is parked in none.
fn parked_until(bases: &[u16]) -> usize
    ensures { ParkedUntil (length bases.now) bases.now result × LastParked bases.now result }
{
    let mut until = 0;
    for (i, base) in bases.iter().enumerate() {
        if *base != 0 {
            until = i + 1;
        }
    }
    until
}

// A part of a sound plan prepared for a core: `part` has its intervals, the first of which has number `first` in the plan. The corners of
// each interval are found once; those before the part have none.
fn prepare(part: Plan, core: u8, first: usize) -> Prepared
    requires { SoundPlan (plan_of part) × SoundCore (plan_of part) core × (first + length part.lengths.now ≤ most_intervals) }
    ensures { PreparedPart (plan_of part.entry) core first result.segments.items result.bases.items × LastParked result.bases.items (length result.bases.items) }
{
    let intervals = first + part.lengths.len();
    // 64 intervals at most, by value as document 01 names it: there is no heap.
    let mut curves = [Block::EMPTY; 64];
    let mut bases = [0u16; 64];
    for i in 0..part.lengths.len() {
        let block = curve::interval_corners(part.head.per_period, part.row(i), core);
        bases[first + i] = block.corners[0].stall.0 as u16;
        curves[first + i] = block;
    }
    let segments = order::order(&curves[..intervals]);
    let until = parked_until(&bases[..intervals]);
    let mut bases = ArrayVec::from(bases);
    bases.truncate(until);
    Prepared { segments, bases }
}

// The first interval that can be met: that of the start, and the plan's first where it repeats, since its later cycles are whole.
fn first_met(repeating: bool, interval: usize) -> usize
    ensures { result ≡ first_met repeating interval }
{
    if repeating { 0 } else { interval }
}

// The beginning for a start in a sound plan, and what is prepared for a core: the analysis goes on with the part of the plan from the first
// interval that can be met.
fn begin(plan: Plan, core: u8, cycle: Periods, start: Periods) -> Begun
    requires { SoundFrom (plan_of plan) start.0 × SoundCore (plan_of plan) core × (cycle.0 ≡ periods (plan_of plan)) }
    ensures { BegunFor (plan_of plan.entry) core start.0 result.begin result.prepared }
{
    let begin = shares::begin_at(plan.head.repeating, cycle, plan.lengths, start);
    let first = first_met(begin.repeating, begin.interval);
    let budget = first * usize::from(plan.head.cores);
    let part = Plan {
        head: plan.head,
        lengths: &plan.lengths[first..],
        budgets: &plan.budgets[budget..],
    };
    let prepared = prepare(part, core, first);
    Begun { begin, prepared }
}

// The answered placement of so many intervals with these shares, from the front of the place, and its stall, for which a plan has slots.
fn answer_with(
    prepared: &Prepared,
    shares: &[u16; 64],
    intervals: usize,
    requests: Requests,
    place: &mut [u32],
) -> Slots
    requires { Inside intervals (picks_of prepared.now.segments.items) × (intervals ≤ length place.old) × (stall_with prepared.now.bases.items shares.now (picks_of prepared.now.segments.items) requests.0 ≤ most_work) }
    ensures { Gives intervals prepared.now.bases.items shares.now (picks_of prepared.now.segments.items) requests.0 place.old result.0 place.new }
{
    stall::place(&prepared.segments, shares, requests, intervals, place);
    stall::greatest(prepared, shares, requests).unwrap()
}

// Placement and stall at a given W from a start, for a core under analysis, counted from 1, and its requests. The start is in periods after
// the plan's beginning; W is counted from the start, and may pass the plan's periods where the head is marked as repeating. The place is
// lent for the call: the answered placement, a number for each interval over all cycles, 0 for those before the start that are not met
// again, is written from its front and the rest is kept; on a refusal nothing is written.
pub fn placement(
    plan: Plan,
    core: u8,
    requests: Requests,
    start: Periods,
    periods: Periods,
    place: &mut [u32],
) -> Result<Slots, Refusal>
    ensures { PlacementPromise (plan_of plan.entry) core requests.0 start.0 periods.0 place.old (placement_figures result) place.new }
{
    let room = place.len();
    let cycle = workload::judged_placement(plan, core, requests, start, periods, room)?;
    let Begun { begin, prepared } = begin(plan, core, cycle, start);
    let shares = shares::shares_of(begin, plan.lengths, periods);
    let intervals = plan.lengths.len();
    Ok(answer_with(&prepared, &shares, intervals, requests, place))
}

// Span of a workload, its core counted from 1, its start in periods after the plan's beginning, its horizon counted from there, past the
// plan's end only where the head is marked as repeating; the span counts from the start too. The place is lent for the call: the answered
// placement at the span, a number for each interval over all cycles, 0 for those before the start that are not met again, is written from
// its front and the rest is kept; on a refusal nothing is written.
pub fn span(plan: Plan, workload: Workload, place: &mut [u32]) -> Result<SpanAnswer, Refusal>
    ensures { SpanPromise (plan_of plan.entry) (workload_of workload) place.old (span_figures result) place.new }
{
    let cycle = workload::judged_span(plan, workload, place.len())?;
    let Begun { begin, prepared } = begin(plan, workload.core, cycle, workload.start);
    let terms = Terms {
        prepared: &prepared,
        per_period: plan.head.per_period,
        workload,
    };
    // No `?`: the edit by which requests are dropped turns the value of the second arm alone.
    let met = match search::search(terms, begin, plan.lengths) {
        Ok(met) => met,
        Err(why) => return Err(why),
    };
    let shares = shares::shares_of(begin, plan.lengths, met.span);
    let intervals = plan.lengths.len();
    let stall = answer_with(&prepared, &shares, intervals, workload.requests, place);
    Ok(SpanAnswer {
        span: met.span,
        stall,
        rounds: met.rounds,
    })
}
