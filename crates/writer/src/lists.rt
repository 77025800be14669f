// What a plan and its workloads come to in a file. That the plan is sound is asked for in this crate's own contracts: `write` judges it once,
// and a type for it would carry nothing but the plan.
ghost use Rattle.std.specs.Prelude.{◌≡◌, ◌≤◌, ◌<◌, length};
ghost use Rattle.meaning.specs.Plan.{most_cores};
ghost use Rattle.meaning.specs.PlanFile.{mask_of, lists_wrong};
ghost use Rattle.plan_laws.specs.SoundPlan.{SoundPlan};
ghost use Rattle.units.specs.Given.{plan_of};
ghost use Rattle.record.specs.Given.{workloads_of};
ghost use Rattle.writer.specs.Writing.{intervals_part};

use record::values::{bit, body_length};
use units::{Plan, Workload, Workloads};

// The mask of the cores with a budget in a row.
#[tactic(auto, using(crate::specs::Bytes::mask_listed, crate::specs::Bytes::mask_unlisted))]
pub fn mask_of(row: &[u16]) -> u32
    requires { length row.now ≤ most_cores }
    ensures { (result ≡ mask_of row.now) × (result < 256) }
{
    let mut mask = 0;
    for (core, budget) in row.iter().enumerate() {
        if *budget != 0 {
            mask += bit(core as u8);
        }
    }
    mask
}

// The length of all interval records.
pub fn intervals_length(plan: Plan) -> usize
    requires { SoundPlan (plan_of plan) }
    ensures { (result ≡ length (intervals_part (plan_of plan.entry))) × (result ≤ 1_536) }
{
    let mut bytes = 0;
    for i in 0..plan.lengths.len() {
        bytes += 4 + usize::from(body_length(mask_of(plan.row(i))));
    }
    bytes
}

// More than 256 workloads, or lists of workload values that differ in length.
pub fn lists_wrong(workloads: Workloads) -> bool
    ensures { result ≡ lists_wrong (workloads_of workloads.entry) }
{
    let count = workloads.analysed.len();
    usize::from(Workload::MOST) < count
        || workloads.computing.len() != count
        || workloads.requests.len() != count
        || workloads.horizons.len() != count
}
