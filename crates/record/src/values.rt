// What stands in a record of a plan file.
ghost use Rattle.std.specs.Prelude.{◌≡◌, ◌+◌, ◌*◌, ◌^◌, ◌≤◌, ◌<◌, length};
ghost use Rattle.std.specs.Int.Count.{ones};
ghost use Rattle.meaning.specs.Plan.{most_cores};
ghost use Rattle.meaning.specs.PlanFile.{byte_at, two_at, budget_at};
ghost use Rattle.record.specs.Values.{HeadRead, WorkloadRead};

use crate::bytes::{four_at, two_at};
use crate::{IntervalRecord, Kind, Record};
use units::{Head, Periods, Requests, Slots, Workload};

// The head of a file: a file can't carry the mark, so it is that of a plain plan.
pub fn head_at(file: &[u8]) -> Head
    requires { 10 ≤ length file.now }
    ensures { HeadRead file.now result }
{
    Head {
        cores: file[4],
        per_period: Slots(u32::from(two_at(file, 6))),
        repeating: false,
    }
}

// The number of intervals that the head of a file gives.
pub fn intervals_at(file: &[u8]) -> usize
    requires { 10 ≤ length file.now }
    ensures { result ≡ two_at file.now 8 }
{
    usize::from(two_at(file, 8))
}

// The bit of a core, counted from 0, in a mask.
pub fn bit(core: u8) -> u32
    requires { core ≤ most_cores }
    ensures { result ≡ 2 ^ core }
{
    1 << core
}

// The length of the body of an interval record with this mask.
pub fn body_length(mask: u32) -> u16
    requires { mask < 256 }
    ensures { (result ≡ 4 + 2 * ones mask) × (result ≤ 20) }
{
    Kind::INTERVAL_BODY + 2 * mask.count_ones() as u16
}

impl Record<'_> {
    // The offset behind the record.
    pub fn behind(self) -> usize
        requires { self.at + 4 + two_at self.file.now self.at ≤ length self.file.now }
        ensures { result ≡ self.entry.at + 4 + two_at self.entry.file.now self.entry.at }
    {
        self.at + 4 + usize::from(two_at(self.file, self.at))
    }

    // The periods of an interval record.
    pub fn periods(self) -> Periods
        requires { self.at + 8 ≤ length self.file.now }
        ensures { result.0 ≡ two_at self.entry.file.now (self.entry.at + 6) }
    {
        Periods(two_at(self.file, self.at + 6))
    }

    // The mask of an interval record.
    pub fn mask(self) -> u32
        requires { self.at + 8 ≤ length self.file.now }
        ensures { (result ≡ byte_at self.entry.file.now (self.entry.at + 4)) × (result < 256) }
    {
        u32::from(self.file[self.at + 4])
    }

    // The workload of a workload record; a file has no start, so it starts at 0.
    pub fn workload(self) -> Workload
        requires { self.at + 16 ≤ length self.file.now }
        ensures { WorkloadRead self.entry.file.now self.entry.at result }
    {
        Workload {
            core: self.file[self.at + 4],
            computing: Slots(four_at(self.file, self.at + 6)),
            requests: Requests(four_at(self.file, self.at + 10)),
            horizon: Periods(two_at(self.file, self.at + 14)),
            start: Periods(0),
        }
    }
}

impl IntervalRecord<'_> {
    // The budget of a core, counted from 0.
    pub fn budget(self, core: u8) -> u16
        requires { core ≤ most_cores }
        ensures { result ≡ budget_at self.entry.record.file.now self.entry.record.at core }
    {
        let Record { file, at } = self.record;
        let mask = self.record.mask();
        let bit = bit(core);
        if mask / bit % 2 == 1 {
            two_at(file, at + 8 + 2 * (mask % bit).count_ones() as usize)
        } else {
            0
        }
    }
}
