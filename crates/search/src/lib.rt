// The search over 004's terms, for bases and for segments that are in the order of filling.
#![tactic(auto)]

ghost use Rattle.std.specs.Prelude.{◌≡◌, ◌+◌, ◌≤◌, length};
ghost use Rattle.meaning.specs.Plan.{most_intervals};
ghost use Rattle.units.specs.Units.{periods_of};
ghost use Rattle.shares.specs.Part.{Begins};
ghost use Rattle.shares.specs.Shares.{shares_given};
ghost use Rattle.search.specs.Terms.{held_with, stall_at};
ghost use Rattle.search.specs.Searched.{TermsClimb, Searched};

use shares::Beginning;
use units::{Periods, Refusal, Slots};

mod terms; // terms.rt: what 004's terms of a workload are made from

pub use terms::Terms;

// The term that the search ends at, and the rounds up to it.
#[derive(Clone, Copy, Debug, PartialEq, Eq)]
pub struct Met {
    pub span: Periods,
    pub rounds: u32,
}

// The term for a stall: the least periods that hold it with the computing and the requests, where a plan can have so many.
fn term_for(terms: Terms, stall: Slots) -> Option<Periods>
    ensures { result ≡ periods_of (held_with terms.entry stall.0) }
{
    let work = u64::from(terms.workload.computing.0) + u64::from(terms.workload.requests.slots().0);
    Slots::checked(work + u64::from(stall.0))?.periods(terms.per_period)
}

// The term after one at which the intervals have these shares.
fn next_term(terms: Terms, shares: &[u16; 64]) -> Option<Periods>
    ensures { result ≡ periods_of (held_with terms.entry (stall_at terms.entry shares.now)) }
{
    let stall = stall::greatest(terms.prepared, shares, terms.workload.requests)?;
    term_for(terms, stall)
}

// The search over the terms from a beginning in the plan, a loop that yields by break as document 01 names it: it ends at the first term equal
// to the one before it, or past the horizon.
pub fn search(terms: Terms, begin: Beginning, lengths: &[u16]) -> Result<Met, Refusal>
    requires { Begins lengths.now begin × (length lengths.now ≤ most_intervals) × TermsClimb terms (shares_given begin.repeating lengths.now begin.start.0) }
    ensures { Searched terms.entry (shares_given begin.repeating lengths.now begin.start.0) result }
{
    let mut term = term_for(terms, Slots(0)).ok_or(Refusal::NoSpan)?;
    let mut rounds: u32 = 0;
    loop {
        if terms.workload.horizon.0 < term.0 {
            break Err(Refusal::NoSpan);
        }
        let shares = shares::shares_of(begin, lengths, term);
        let Some(next) = next_term(terms, &shares) else {
            break Err(Refusal::NoSpan);
        };
        rounds += 1;
        if next.0 == term.0 {
            break Ok(Met { span: term, rounds });
        }
        term = next;
    }
}
