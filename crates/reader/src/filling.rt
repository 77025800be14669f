// The values of a judged file filled into lent places.
ghost use Rattle.std.specs.Prelude.{◌≡◌, ◌+◌, ◌*◌, ◌≤◌, length};
ghost use Rattle.std.proofs.lemmas.List.Edits.{sets};
ghost use Rattle.meaning.specs.Plan.{most_cores, most_intervals};
ghost use Rattle.meaning.specs.PlanFile.{byte_at, row_at};
ghost use Rattle.record.specs.Given.{workloads_with};
ghost use Rattle.reader.specs.Reading.{AllListed, record_at, plan_to, places_of, places_fit, Filled};

use crate::Contents;
use record::{IntervalRecord, Kind, Record};

// The intervals, budgets and workloads of a file fit these places. (Tried as one `Places`: made of places that are lent to be written, it
// stands at an intersection of lifetimes, for which no proof is generated.)
pub fn fits(
    found: Contents,
    lengths: &[u16],
    budgets: &[u16],
    analysed: &[u8],
    computing: &[u32],
    requests: &[u32],
    horizons: &[u16],
) -> bool
    requires { (found.intervals ≤ most_intervals) × (found.head.cores ≤ most_cores) }
    ensures { result
        ≡ places_fit
        found
        (places_of lengths.now budgets.now analysed.now computing.now requests.now horizons.now) }
{
    found.intervals <= lengths.len()
        && found.intervals * usize::from(found.head.cores) <= budgets.len()
        && found.workloads <= analysed.len()
        && found.workloads <= computing.len()
        && found.workloads <= requests.len()
        && found.workloads <= horizons.len()
}

// The budgets of an interval record, filled into a row of one for each core.
fn fill_budgets(interval: IntervalRecord, row: &mut [u16])
    requires { length row.old ≤ most_cores }
    ensures { row.new ≡ row_at (length row.old) interval.entry.record.file.now interval.entry.record.at }
{
    for (core, budget) in row.iter_mut().enumerate() {
        *budget = interval.budget(core as u8);
    }
}

// The lengths and budgets of so many intervals, filled in; the offset behind them.
pub fn fill_intervals(
    file: &[u8],
    cores: u8,
    count: usize,
    lengths: &mut [u16],
    budgets: &mut [u16],
) -> usize
    requires cores_le_most_cores { (cores ≤ most_cores) × (cores ≡ byte_at file.now 4) }
    requires all_listed { AllListed file.now count }
    requires count_in_bounds { (count ≤ length lengths.old) × (count * cores ≤ length budgets.old) }
    ensures value { result ≡ record_at file.now count }
    ensures lengths_after { lengths.new ≡ sets lengths.old 0 (plan_to file.now count).lengths }
    ensures budgets_after { budgets.new ≡ sets budgets.old 0 (plan_to file.now count).budgets }
{
    let cores = usize::from(cores);
    let mut at = Kind::HEAD_BYTES;
    for i in 0..count {
        let start = i * cores;
        let record = Record { file, at };
        lengths[i] = record.periods().0;
        let interval = IntervalRecord { record };
        fill_budgets(interval, &mut budgets[start..start + cores]);
        at = record.behind();
    }
    at
}

// So many workloads from a start on, filled in.
pub fn fill_workloads(
    file: &[u8],
    start: usize,
    count: usize,
    analysed: &mut [u8],
    computing: &mut [u32],
    requests: &mut [u32],
    horizons: &mut [u16],
)
    requires count_in_bounds { start + 16 * count ≤ length file.now }
    requires room { (count ≤ length analysed.old)
        × (count ≤ length computing.old)
        × (count ≤ length requests.old)
        × (count ≤ length horizons.old) }
    ensures { Filled
        file.now
        start
        count
        (workloads_with analysed.old computing.old requests.old horizons.old)
        (workloads_with analysed.new computing.new requests.new horizons.new) }
{
    for i in 0..count {
        let at = start + Kind::WORKLOAD_BYTES * i;
        let workload = Record { file, at }.workload();
        analysed[i] = workload.core;
        computing[i] = workload.computing.0;
        requests[i] = workload.requests.0;
        horizons[i] = workload.horizon.0;
    }
}
