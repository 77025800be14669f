// The three units of the analysis, the values that several crates hand on, and the refusals. A count of slots never stands where a count
// of periods is wanted.
#![tactic(auto)]

ghost use Rattle.std.specs.Prelude.{◌≡◌, ◌*◌, ◌≤◌, ◌<◌, [], length, get_or};
ghost use Rattle.meaning.specs.Plan.{sum_of, rows, most_intervals};
ghost use Rattle.units.specs.Given.{plan_of};
ghost use Rattle.units.specs.Units.{slots_of, per_period_of, periods_of, requests_of, periods_holding};
ghost use Rattle.units.specs.Refusals.{number_of};

mod corner; // corner.rt: the corners of an interval's curve

pub use corner::{Block, Corner};

// Slots: each is one worst-case memory transaction long.
#[derive(Clone, Copy, Debug, PartialEq, Eq)]
pub struct Slots(pub u32);

// Regulation periods.
#[derive(Clone, Copy, Debug, PartialEq, Eq)]
pub struct Periods(pub u16);

// Requests: each is one memory transaction.
#[derive(Clone, Copy, Debug, PartialEq, Eq)]
pub struct Requests(pub u32);

impl Slots {
    // The most slots that the longest plan has: 65,535 periods of 65,535 slots.
    pub const MAX: u32 = 4_294_836_225;

    // The most slots that one period has.
    pub const MAX_PER_PERIOD: u32 = 65_535;

    // The slots, where the longest plan has so many. Each unit has a maker of its own: document 01 wants the limit with the unit it bounds.
    pub fn checked(count: u64) -> Option<Slots>
        ensures { result ≡ slots_of count }
    {
        if count <= u64::from(Slots::MAX) {
            Some(Slots(count as u32))
        } else {
            None
        }
    }

    // The slots of one period, where a period can have so many.
    pub fn checked_per_period(count: u64) -> Option<Slots>
        ensures { result ≡ per_period_of count }
    {
        if count == 0 {
            return None;
        }
        if count <= u64::from(Slots::MAX_PER_PERIOD) {
            Some(Slots(count as u32))
        } else {
            None
        }
    }

    // The least number of periods that holds these slots, where a plan can have so many.
    pub fn periods(self, per_period: Slots) -> Option<Periods>
        ensures { result ≡ periods_holding self.0 per_period.0 }
    {
        if per_period.0 == 0 {
            return None;
        }
        let rounded = u64::from(self.0).div_ceil(u64::from(per_period.0));
        Periods::checked(rounded)
    }
}

impl Periods {
    // The most periods that a plan has, and a span of a plan that repeats.
    pub const MAX: u16 = 65_535;

    // The periods, where a plan can have so many.
    pub fn checked(count: u64) -> Option<Periods>
        ensures { result ≡ periods_of count }
    {
        if count <= u64::from(Periods::MAX) {
            Some(Periods(count as u16))
        } else {
            None
        }
    }

    // The slots of these periods.
    pub fn slots(self, per_period: Slots) -> Option<Slots>
        ensures { result ≡ slots_of (self.0 * per_period.0) }
    {
        Slots::checked(u64::from(self.0) * u64::from(per_period.0))
    }
}

impl Requests {
    // The most requests that a workload has.
    pub const MAX: u32 = 4_294_836_225;

    // The requests, where a workload can have so many.
    pub fn checked(count: u64) -> Option<Requests>
        ensures { result ≡ requests_of count }
    {
        if count <= u64::from(Requests::MAX) {
            Some(Requests(count as u32))
        } else {
            None
        }
    }

    // A request is one slot.
    pub fn slots(self) -> Slots
        ensures { result.0 ≡ self.0 }
    {
        Slots(self.0)
    }
}

// The head of a plan: its cores, Q, the slots of each of its periods, and the mark of a plan that starts over each cycle.
#[derive(Clone, Copy)]
pub struct Head {
    pub cores: u8,
    pub per_period: Slots,
    pub repeating: bool,
}

impl Head {
    // The most cores that a plan has.
    pub const MOST_CORES: u8 = 8;

    // The most intervals that a plan has.
    pub const MOST_INTERVALS: u8 = 64;
}

// A plan as it is lent for a call: its head, the periods of each of its intervals, and its budgets, interval by interval with core 1 first.
// Nothing is said of it before it is judged.
#[derive(Clone, Copy)]
pub struct Plan<'a> {
    pub head: Head,
    pub lengths: &'a [u16],
    pub budgets: &'a [u16],
}

impl<'a> Plan<'a> {
    // The budgets of an interval, counted from 0, where there are as many as intervals and cores ask for.
    pub fn row(self, interval: usize) -> &'a [u16]
        requires inside { interval < length self.lengths.now }
        requires whole { length self.budgets.now ≡ length self.lengths.now * self.head.cores }
        ensures row { result.now ≡ get_or (rows (plan_of self.entry)) interval [] }
        ensures cores { length result.now ≡ self.entry.head.cores }
    {
        let cores = usize::from(self.head.cores);
        let start = interval * cores;
        &self.budgets[start..start + cores]
    }
}

// A workload: the core that it runs on, counted from 1, its computing and its requests there, the horizon, the last period of interest, and
// the start, how many periods of the plan are over when it is released; the horizon counts from there.
#[derive(Clone, Copy)]
pub struct Workload {
    pub core: u8,
    pub computing: Slots,
    pub requests: Requests,
    pub horizon: Periods,
    pub start: Periods,
}

impl Workload {
    // The most workloads that a file has.
    pub const MOST: u16 = 256;
}

// The workloads of a file as they are lent for a call, in four lists: of each its core, counted from 1, its computing, its requests and its
// horizon; the start of each is 0. Nothing is said of the lists before they are judged.
#[derive(Clone, Copy)]
pub struct Workloads<'a> {
    pub analysed: &'a [u8],
    pub computing: &'a [u32],
    pub requests: &'a [u32],
    pub horizons: &'a [u16],
}

// The sum of the lengths of a plan, or of the budgets of an interval.
pub fn sum(numbers: &[u16]) -> u32
    requires { length numbers.now ≤ most_intervals }
    ensures { result ≡ sum_of numbers.now }
{
    numbers.iter().map(|number| u32::from(*number)).sum()
}

// What a question is refused for, one case for each number of the table in document 01 but 7, which is unused since request 2026-02; 14 is
// from request 2026-03.
#[derive(Clone, Copy, Debug, PartialEq, Eq)]
pub enum Refusal {
    CoresOutside = 1,
    PerPeriodOutside = 2,
    IntervalsOrBudgetsOutside = 3,
    PeriodsOutside = 4,
    SumNotPerPeriod = 5,
    CoreOutside = 6,
    ComputingOutside = 8,
    RequestsOutside = 9,
    HorizonOutside = 10,
    NoRoom = 11,
    NoSpan = 12,
    RateAboveBudget = 13,
    StartOutside = 14,
    FileEnds = 20,
    KindNotAllowed = 21,
    LengthWrong = 22,
    BitsNotZero = 23,
    ListedBudgetZero = 24,
    WorkloadListsWrong = 25,
}

impl Refusal {
    // The number in document 01's table, which stands beside the case.
    pub fn number(self) -> u8
        ensures { result ≡ number_of self }
    {
        self as u8
    }
}
