// Greatest stall and the answered placement, for bases, shares and an order of filling that are given.
#![tactic(auto)]

ghost use Rattle.std.specs.Prelude.{◌≡◌, ◌++◌, ◌+◌, ◌*◌, ◌≤◌, length, get_or, drop};
ghost use Rattle.units.specs.Units.{slots_of};
ghost use Rattle.meaning.specs.Fraction.{round_up};
ghost use Rattle.meaning.specs.Plan.{most_intervals, most_work};
ghost use Rattle.number_laws.specs.Lists.{list_from};
ghost use Rattle.placement_laws.specs.Filling.{base_stall, fill};
ghost use Rattle.placement_laws.specs.FillingAnswers.{filled_stall};
ghost use Rattle.segments.specs.Picks.{picks_of, Inside};
ghost use Rattle.stall.specs.Walks.{number_at};

use segments::{Segment, crossed};
use units::{Requests, Slots};

mod prepared; // prepared.rt: what is found once for a plan, a core and a beginning

pub use prepared::Prepared;

// The stall of so many requests on a segment, rounded up to a whole slot: a number of slots that may be past what the unit holds.
fn part(requests: Requests, rise: Slots, run: Requests) -> u64
    requires { 1 ≤ run.0 }
    ensures { result ≡ round_up (record { num = requests.0 * rise.0; den = run.0 }) }
{
    crossed(rise, requests).div_ceil(u64::from(run.0))
}

// The share of a segment's interval.
fn share_of(shares: &[u16; 64], segment: Segment) -> u16
    ensures { result ≡ number_at shares.now segment.interval }
{
    shares[usize::from(segment.interval)]
}

// The stall before any request is placed: each share times its interval's base, the stall at 0 requests, for as many intervals as there
// are bases. It is a number of slots that may be past what the unit holds.
fn base_stall(bases: &[u16], shares: &[u16; 64]) -> u64
    requires { length bases.now ≤ most_intervals }
    ensures { (result ≡ base_stall (length bases.now) (number_at shares.now) (number_at bases.now)) × (result ≤ most_intervals * most_work) }
{
    let mut stall: u64 = 0;
    for (i, base) in bases.iter().enumerate() {
        stall += u64::from(shares[i]) * u64::from(*base);
    }
    stall
}

// The greatest stall, rounded up to a whole slot: that of the bases, and what the filling adds.
pub fn greatest(prepared: &Prepared, shares: &[u16; 64], requests: Requests) -> Option<Slots>
    ensures { result ≡ slots_of (round_up (filled_stall (length prepared.now.bases.items) (number_at shares.now) (number_at prepared.now.bases.items) (picks_of prepared.now.segments.items) requests.0)) }
{
    let mut whole = base_stall(&prepared.bases, shares);
    let mut left = requests.0;
    for segment in prepared.segments.as_slice() {
        let share = share_of(shares, *segment);
        let room = segment.room(share);
        let risen = segment.risen(share);
        if u64::from(left) <= room {
            return Slots::checked(whole + part(Requests(left), segment.rise(), segment.run()));
        }
        whole += risen;
        left -= room as u32;
    }
    Slots::checked(whole)
}

// The answered placement, in the first so many places.
pub fn place(
    segments: &[Segment],
    shares: &[u16; 64],
    requests: Requests,
    intervals: usize,
    placement: &mut [u32],
)
    requires { Inside intervals (picks_of segments.now) × (intervals ≤ length placement.old) }
    ensures { placement.new ≡ list_from 0 intervals (fill (number_at shares.now) (picks_of segments.now) requests.0 (λ j. 0)) ++ drop intervals placement.old }
{
    placement[..intervals].fill(0);
    let mut left = requests.0;
    for segment in segments {
        let place = usize::from(segment.interval);
        let room = segment.room(share_of(shares, *segment));
        if u64::from(left) <= room {
            placement[place] += left;
            return;
        }
        placement[place] += room as u32;
        left -= room as u32;
    }
}
