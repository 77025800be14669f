// Lists of workload values: one workload out of them.
ghost use Rattle.std.specs.Prelude.{◌≡◌, ◌<◌, length};
ghost use Rattle.meaning.specs.Listing.{workload_at};
ghost use Rattle.units.specs.Given.{workload_of};
ghost use Rattle.record.specs.Given.{workloads_of};

use units::{Periods, Requests, Slots, Workload, Workloads};

// The workload at an index of the four lists.
pub fn workload_in(workloads: Workloads, i: usize) -> Workload
    requires { (i < length workloads.analysed.now)
        × (i < length workloads.computing.now)
        × (i < length workloads.requests.now)
        × (i < length workloads.horizons.now) }
    ensures { workload_of result ≡ workload_at (workloads_of workloads.entry) i }
{
    Workload {
        core: workloads.analysed[i],
        computing: Slots(workloads.computing[i]),
        requests: Requests(workloads.requests[i]),
        horizon: Periods(workloads.horizons[i]),
        start: Periods(0),
    }
}
