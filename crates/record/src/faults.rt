// What a record of a plan file is refused for. That the cores are at most eight is asked for where it is needed: the head carries the number,
// and a type for it would stand beside the head and say it twice.
ghost use Rattle.std.specs.Prelude.{◌≡◌, false, ◌+◌, ◌*◌, ◌≤◌, length};
ghost use Rattle.meaning.specs.Plan.{sum_of, most_cores};
ghost use Rattle.meaning.specs.PlanFile.{row_at, listed_zero, head_fault, workload_fault};
ghost use Rattle.judge.specs.Judged.{Passed};
ghost use Rattle.record.specs.Faults.{length_wrong, start_fault, zero_fault, IntervalRecordJudged};

use crate::bytes::two_at;
use crate::values::{bit, body_length, head_at, intervals_at};
use crate::{IntervalRecord, Kind, Record};
use judge::{bounds, interval};
use units::{Head, Periods, Refusal, Slots};

// A body of this length is wrong for the kind.
fn length_wrong(kind: Kind, length: u16) -> bool
    ensures { result ≡ length_wrong kind length }
{
    length % 2 == 1 || length < kind.least() || kind.most() < length
}

// The head of a file, and then its values: 1 to 3.
#[tactic(auto, using(crate::specs::Faults::head_within, crate::specs::Faults::head_parts, judge::specs::Judged::refused_before))]
pub fn head_fault(file: &[u8]) -> Result<(), Refusal>
    ensures { Passed (head_fault file.now) result }
{
    Record { file, at: 0 }.zero_fault(Kind::Head, false)?;
    bounds(head_at(file), intervals_at(file))
}

impl IntervalRecord<'_> {
    // The sum of the budgets of the cores.
    fn budgets_sum(self, cores: u8) -> Slots
        requires { cores ≤ most_cores }
        ensures { result.0 ≡ sum_of (row_at cores self.entry.record.file.now self.entry.record.at) }
    {
        let mut sum: u32 = 0;
        for core in 0..cores {
            sum += u32::from(self.budget(core));
        }
        Slots(sum)
    }
}

impl Record<'_> {
    // Every record: 20, 21, 25, 22, 20.
    #[tactic(auto, unfolding(meaning::specs::PlanFile::record_fault))]
    fn start_fault(self, kind: Kind, full: bool) -> Result<(), Refusal>
        ensures { Passed (start_fault self.entry.file.now self.entry.at kind full) result }
    {
        let Record { file, at } = self;
        if file.len() - at < 4 {
            return Err(Refusal::FileEnds);
        }
        if two_at(file, at + 2) != kind.number() {
            return Err(Refusal::KindNotAllowed);
        }
        if full {
            return Err(Refusal::WorkloadListsWrong);
        }
        let length = two_at(file, at);
        if length_wrong(kind, length) {
            return Err(Refusal::LengthWrong);
        }
        if file.len() - at - 4 < usize::from(length) {
            return Err(Refusal::FileEnds);
        }
        Ok(())
    }

    // Every record, and then its zero byte: 23.
    #[tactic(auto, using(crate::specs::Faults::body_within, crate::specs::Kinds::body_starts))]
    fn zero_fault(self, kind: Kind, full: bool) -> Result<(), Refusal>
        ensures { Passed (zero_fault self.entry.file.now self.entry.at kind full) result }
    {
        self.start_fault(kind, full)?;
        if self.file[self.at + 5] != 0 {
            return Err(Refusal::BitsNotZero);
        }
        Ok(())
    }

    // One of the first listed budgets is 0.
    fn listed_zero(self, count: usize) -> bool
        requires { self.at + 8 + 2 * count ≤ length self.file.now }
        ensures { result ≡ listed_zero self.entry.file.now self.entry.at count }
    {
        (0..count).any(|i| two_at(self.file, self.at + 8 + 2 * i) == 0)
    }

    // The body of an interval record: 23, 22, 24, then its values, 4 before 5.
    #[tactic(auto, using(crate::specs::Faults::mask_within, crate::specs::Faults::listed_within, crate::specs::Faults::interval_parts))]
    fn interval_body_fault(self, head: Head, passed: Periods) -> Result<Periods, Refusal>
        requires cores_le_most_cores { head.cores ≤ most_cores }
        requires zero_bytes { zero_fault self.file.now self.at Kind.Interval false ≡ 0 }
        ensures { IntervalRecordJudged self.entry.file.now self.entry.at head passed.0 result }
    {
        let mask = self.mask();
        if bit(head.cores) <= mask {
            return Err(Refusal::BitsNotZero);
        }
        if two_at(self.file, self.at) != body_length(mask) {
            return Err(Refusal::LengthWrong);
        }
        if self.listed_zero(mask.count_ones() as usize) {
            return Err(Refusal::ListedBudgetZero);
        }
        let sum = IntervalRecord { record: self }.budgets_sum(head.cores);
        interval(head, passed, self.periods(), sum)
    }

    // The interval record after so many periods; where it is sound, the periods with it.
    #[tactic(auto, using(crate::specs::Faults::interval_parts, judge::specs::Judged::refused_before))]
    pub fn interval_fault(self, head: Head, passed: Periods) -> Result<Periods, Refusal>
        requires { head.cores ≤ most_cores }
        ensures { IntervalRecordJudged self.entry.file.now self.entry.at head passed.0 result }
    {
        self.zero_fault(Kind::Interval, false)?;
        self.interval_body_fault(head, passed)
    }

    // The workload record, with no room for one more workload or with some.
    #[tactic(auto, using(crate::specs::Faults::workload_parts))]
    pub fn workload_fault(self, full: bool) -> Result<(), Refusal>
        ensures { Passed (workload_fault self.entry.file.now self.entry.at full) result }
    {
        self.zero_fault(Kind::Workload, full)
    }
}
