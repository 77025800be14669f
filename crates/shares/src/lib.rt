// The shares of the intervals of a plan at W from a start.
#![tactic(auto)]

ghost use Rattle.std.specs.Prelude.{◌≡◌, cond, ◌-◌, ◌≤◌, ◌<◌, length};
ghost use Rattle.meaning.specs.Plan.{most_intervals, sum_of};
ghost use Rattle.shares.specs.Part.{Begins};
ghost use Rattle.shares.specs.Shares.{Addable, Added, shares_given, Reads};

use units::Periods;

// Where the part of a plan begins that the analysis goes on with: the mark of a plan that starts over, the periods of one cycle, the start,
// the interval that it falls in, counted from 0, and what it leaves of this interval.
#[derive(Clone, Copy)]
pub struct Beginning {
    pub repeating: bool,
    pub cycle: Periods,
    pub start: Periods,
    pub interval: usize,
    pub left: Periods,
}

// The beginning for a start below T, which falls in one of the intervals: those before it are passed over.
pub fn begin_at(repeating: bool, cycle: Periods, lengths: &[u16], start: Periods) -> Beginning
    requires { (cycle.0 ≡ sum_of lengths.now) × (start.0 < sum_of lengths.now) }
    ensures { (result.repeating ≡ repeating) × (result.start.0 ≡ start.0) × Begins lengths.now result }
{
    let mut before = start.0;
    for (interval, length) in lengths.iter().enumerate() {
        if before < *length {
            let left = Periods(*length - before);
            return Beginning {
                repeating,
                cycle,
                start,
                interval,
                left,
            };
        }
        before -= *length;
    }
    unreachable!()
}

// The given shares, and added to them those of `full` cycles and of `periods` periods of one more, over a part of a plan: `lengths` are those
// of its intervals, the first of which has number `interval` in the plan and is `left` periods long. The whole plan is the part from its
// first interval, with that one's own length. Of the last, part cycle an interval gets its own length,
// or what those before it leave. Arrays for 64 intervals: there is no heap.
fn with_part(
    mut shares: [u16; 64],
    interval: usize,
    left: Periods,
    lengths: &[u16],
    full: u16,
    periods: Periods,
) -> [u16; 64]
    requires { Addable shares interval left.0 lengths.now full periods.0 }
    ensures { Added shares interval left.0 lengths.now full periods.0 result }
{
    let mut rest = periods.0;
    for (i, length) in lengths.iter().enumerate() {
        let own = if i == 0 { left.0 } else { *length };
        let part = own.min(rest);
        shares[interval + i] += full * own + part;
        rest -= part;
    }
    shares
}

// What is left of W for later cycles when the first, from the start on, is over; a plain plan has no later ones.
fn later_periods(begin: Beginning, periods: Periods) -> Periods
    requires { begin.start.0 < begin.cycle.0 }
    ensures { result.0 ≡ cond begin.repeating (periods.0 - (begin.cycle.0 - begin.start.0)) 0 }
{
    let ahead = begin.cycle.0 - begin.start.0;
    if begin.repeating {
        Periods(periods.0.saturating_sub(ahead))
    } else {
        Periods(0)
    }
}

// The shares of all intervals at W, in an array for 64: those in the part of the plan that begins at the start, and past it those in the
// later cycles, which are whole; places past the intervals are 0.
pub fn shares_of(begin: Beginning, lengths: &[u16], periods: Periods) -> [u16; 64]
    requires { (length lengths.now ≤ most_intervals) × Begins lengths.now begin }
    ensures { Reads result (shares_given begin.repeating lengths.now begin.start.0 periods.0) }
{
    let first = begin.interval;
    let part = with_part([0; 64], first, begin.left, &lengths[first..], 0, periods);
    let later = later_periods(begin, periods);
    if later.0 == 0 {
        return part;
    }
    let full = later.0 / begin.cycle.0;
    let last = Periods(later.0 % begin.cycle.0);
    with_part(part, 0, Periods(lengths[0]), lengths, full, last)
}
