// A plan file written: its length first, then each record stored into a lent place.
#![tactic(auto)]

ghost use Rattle.meaning.specs.Promises.{WritePromise};
ghost use Rattle.record.specs.Given.{file_given};
ghost use Rattle.writer.specs.Writing.{write_figures};

use lists::{intervals_length, lists_wrong};
use record::Kind;
use storing::{put_head, put_intervals, put_workloads};
use units::{Plan, Refusal, Workloads};

mod lists; // lists.rt: what a plan and its workloads come to in a file
mod storing; // storing.rt: each record stored

// Writes a plan file, and answers with its length. The plan, the workloads and the place are lent for the call alone. The file's bytes are
// written from the front of the place, and what lies behind them is kept. On a refusal nothing is written; 23 is a plan that repeats, since
// a file can't carry the mark.
pub fn write(plan: Plan, workloads: Workloads, place: &mut [u8]) -> Result<usize, Refusal>
    ensures { WritePromise
        (file_given plan.entry workloads.entry)
        place.old
        (write_figures result)
        place.new }
{
    judge::plan(plan)?;
    if plan.head.repeating {
        return Err(Refusal::BitsNotZero);
    }
    if lists_wrong(workloads) {
        return Err(Refusal::WorkloadListsWrong);
    }
    let intervals = intervals_length(plan);
    let bytes = Kind::HEAD_BYTES + intervals + Kind::WORKLOAD_BYTES * workloads.analysed.len();
    if place.len() < bytes {
        return Err(Refusal::NoRoom);
    }
    put_head(place, plan);
    let start = put_intervals(place, plan);
    put_workloads(place, start, workloads);
    Ok(bytes)
}
