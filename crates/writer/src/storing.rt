// Each record of a plan file stored into a lent place, from an offset on: place and offset come one by one, as in `record::bytes`, since a struct of
// both would need a clause on the loan's name in each contract.
ghost use Rattle.std.specs.Prelude.{◌≡◌, [], ◌∷◌, ◌+◌, ◌*◌, ◌≤◌, length};
ghost use Rattle.std.proofs.lemmas.List.Edits.{sets};
ghost use Rattle.meaning.specs.Plan.{most_cores};
ghost use Rattle.meaning.specs.PlanFile.{RightLists, listed_of};
ghost use Rattle.plan_laws.specs.SoundPlan.{SoundPlan};
ghost use Rattle.units.specs.Given.{plan_of, workload_of};
ghost use Rattle.record.specs.Kinds.{number_in_file};
ghost use Rattle.record.specs.Given.{workloads_of};
ghost use Rattle.file_laws.specs.RecordBytes.{interval_bytes};
ghost use Rattle.writer.specs.Writing.{head_part, intervals_part, workloads_part, start_bytes, bytes_of};

use crate::lists::mask_of;
use record::Kind;
use record::bytes::{put_four, put_two};
use record::lists::workload_in;
use record::values::body_length;
use units::{Periods, Plan, Workload, Workloads};

// The start of a record stored at an offset: the length of its body, its kind, the body's first byte and a zero byte.
fn put_start(place: &mut [u8], at: usize, kind: Kind, body: u16, first: u8)
    requires { at + 6 ≤ length place.old }
    ensures { place.new ≡ sets place.old at (start_bytes body (number_in_file kind) first) }
{
    put_two(place, at, body);
    put_two(place, at + 2, kind.number());
    put_two(place, at + 4, u16::from(first));
}

// The head stored at the front.
pub fn put_head(place: &mut [u8], plan: Plan)
    requires sound { SoundPlan (plan_of plan) }
    requires room { 10 ≤ length place.old }
    ensures { place.new ≡ sets place.old 0 (head_part (plan_of plan.entry)) }
{
    put_start(place, 0, Kind::Head, Kind::HEAD_BODY, plan.head.cores);
    put_two(place, 6, plan.head.per_period.0 as u16);
    put_two(place, 8, plan.lengths.len() as u16);
}

// A budget stored at an offset where it is listed; the offset behind it.
#[tactic(auto, unfolding(meaning::specs::PlanFile::listed_of))]
fn put_budget(place: &mut [u8], at: usize, budget: u16) -> usize
    requires { at + length (listed_of (budget ∷ [])) ≤ length place.old }
    ensures value { result ≡ at + length (listed_of (budget ∷ [])) }
    ensures place_after { place.new ≡ sets place.old at (listed_of (budget ∷ [])) }
{
    if budget == 0 {
        return at;
    }
    put_two(place, at, budget);
    at + 2
}

// The listed budgets of a row stored at an offset; the offset behind them.
fn put_budgets(place: &mut [u8], at: usize, row: &[u16]) -> usize
    requires { at + length (listed_of row.now) ≤ length place.old }
    ensures value { result ≡ at + length (listed_of row.now) }
    ensures place_after { place.new ≡ sets place.old at (listed_of row.now) }
{
    let mut behind = at;
    for budget in row {
        behind = put_budget(place, behind, *budget);
    }
    behind
}

// An interval record stored at an offset; the offset behind it.
#[tactic(auto, using(crate::specs::Bytes::interval_room))]
fn put_interval(place: &mut [u8], at: usize, periods: Periods, row: &[u16]) -> usize
    requires few_cores { length row.now ≤ most_cores }
    requires room { at + length (interval_bytes periods.0 row.now) ≤ length place.old }
    ensures value { result ≡ at + length (interval_bytes periods.0 row.now) }
    ensures place_after { place.new ≡ sets place.old at (interval_bytes periods.0 row.now) }
{
    let mask = mask_of(row);
    put_start(place, at, Kind::Interval, body_length(mask), mask as u8);
    put_two(place, at + 6, periods.0);
    put_budgets(place, at + 8, row)
}

// All interval records stored behind the head; the offset behind them.
pub fn put_intervals(place: &mut [u8], plan: Plan) -> usize
    requires sound { SoundPlan (plan_of plan) }
    requires room { 10 + length (intervals_part (plan_of plan)) ≤ length place.old }
    ensures value { result ≡ 10 + length (intervals_part (plan_of plan.entry)) }
    ensures place_after { place.new ≡ sets place.old 10 (intervals_part (plan_of plan.entry)) }
{
    let mut at = Kind::HEAD_BYTES;
    for (i, periods) in plan.lengths.iter().enumerate() {
        at = put_interval(place, at, Periods(*periods), plan.row(i));
    }
    at
}

// A workload record stored at an offset.
fn put_workload(place: &mut [u8], at: usize, workload: Workload)
    requires { at + 16 ≤ length place.old }
    ensures { place.new ≡ sets place.old at (bytes_of (workload_of workload)) }
{
    put_start(
        place,
        at,
        Kind::Workload,
        Kind::WORKLOAD_BODY,
        workload.core,
    );
    put_four(place, at + 6, workload.computing.0);
    put_four(place, at + 10, workload.requests.0);
    put_two(place, at + 14, workload.horizon.0);
}

// All workload records stored from a start on.
pub fn put_workloads(place: &mut [u8], start: usize, workloads: Workloads)
    requires right { RightLists (workloads_of workloads) }
    requires room { start + 16 * length workloads.analysed.now ≤ length place.old }
    ensures { place.new ≡ sets place.old start (workloads_part (workloads_of workloads.entry)) }
{
    for i in 0..workloads.analysed.len() {
        put_workload(
            place,
            start + Kind::WORKLOAD_BYTES * i,
            workload_in(workloads, i),
        );
    }
}
