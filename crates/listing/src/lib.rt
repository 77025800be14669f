// The program's listing, line by line: each line's text is written from the front of a lent place.
#![tactic(auto)]

ghost use Rattle.std.specs.Prelude.{◌≡◌, true, false, [], ◌∷◌, ◌+◌, ◌≤◌, length, MatchOption};
ghost use Rattle.meaning.specs.Listing.{plan_line, refused_line, end_line, file_refused_line};
ghost use Rattle.units.specs.Refusals.{number_of};
ghost use Rattle.units.specs.Given.{plan_of};
ghost use Rattle.text.specs.Put.{Put};
ghost use Rattle.listing.specs.Promise.{LinePromise, room_for, found_text, span_text};

use text::{put_figure, put_figures, put_number};
use units::{Head, Periods, Plan, Refusal, Slots, sum};

// Room for the longest line: 64 requests of up to 10 digits, each after a space, and fewer than 100 bytes besides.
pub const ROOM: usize = 1_024;

// Room in the place for a line that lists so many lengths or requests; none where the place is shorter than ROOM, or more than 64 are listed.
fn room(line: &[u8], numbers: usize) -> Option<()>
    ensures { MatchOption result (room_for numbers (length line.now) ≡ false) (λ t. room_for numbers (length line.now) ≡ true) }
{
    (ROOM <= line.len() && numbers <= usize::from(Head::MOST_INTERVALS)).then_some(())
}

// The newline that ends a line; the length of the line.
fn finish(line: &mut [u8], at: usize) -> usize
    requires { at + 1 ≤ length line.old }
    ensures { Put (10 ∷ []) at line.old result line.new }
{
    line[at] = b'\n';
    at + 1
}

// First line: cores, Q, intervals, T, without mark and budgets. T may be more than a plan can have: the line judges nothing.
pub fn plan_line(plan: Plan, line: &mut [u8]) -> Option<usize>
    ensures { LinePromise (plan_line (plan_of plan.entry)) (room_for (length plan.entry.lengths.now) (length line.old)) line.old result line.new }
{
    room(line, plan.lengths.len())?;
    let figures = [
        u32::from(plan.head.cores),
        plan.head.per_period.0,
        plan.lengths.len() as u32,
        sum(plan.lengths),
    ];
    let at = put_figures(line, 0, b"plan", &figures);
    Some(finish(line, at))
}

// A workload's number, and its span, stall and rounds, each after its word, from the front of the place; the index after them.
fn put_found(line: &mut [u8], number: u16, span: Periods, stall: Slots, rounds: u32) -> usize
    requires { 61 ≤ length line.old }
    ensures { Put (found_text number span.0 stall.0 rounds) 0 line.old result line.new × (result ≤ 61) }
{
    let mut at = put_number(line, 0, u32::from(number));
    at = put_figure(line, at, b" span", u32::from(span.0));
    at = put_figure(line, at, b" stall", stall.0);
    put_figure(line, at, b" rounds", rounds)
}

// A workload's number and its answer, requests per interval. The answer's parts come one by one: their struct is of the crate span, above this one.
pub fn span_line(
    number: u16,
    span: Periods,
    stall: Slots,
    rounds: u32,
    requests: &[u32],
    line: &mut [u8],
) -> Option<usize>
    ensures { LinePromise (span_text number span.0 stall.0 rounds requests.now) (room_for (length requests.now) (length line.old)) line.old result line.new }
{
    room(line, requests.len())?;
    let mut at = put_found(line, number, span, stall, rounds);
    at = put_figures(line, at, b" requests", requests);
    Some(finish(line, at))
}

// A workload's number and its refusal.
pub fn refused_line(number: u16, refusal: Refusal, line: &mut [u8]) -> Option<usize>
    ensures { LinePromise (refused_line number (number_of refusal)) (room_for 0 (length line.old)) line.old result line.new }
{
    room(line, 0)?;
    let mut at = put_number(line, 0, u32::from(number));
    at = put_figure(line, at, b" refused", u32::from(refusal.number()));
    Some(finish(line, at))
}

// Last line: workload count.
pub fn end_line(count: u16, line: &mut [u8]) -> Option<usize>
    ensures { LinePromise (end_line count) (room_for 0 (length line.old)) line.old result line.new }
{
    room(line, 0)?;
    let at = put_figure(line, 0, b"end", u32::from(count));
    Some(finish(line, at))
}

// The single line of a refused file.
pub fn file_refused_line(refusal: Refusal, offset: u32, line: &mut [u8]) -> Option<usize>
    ensures { LinePromise (file_refused_line (number_of refusal) offset) (room_for 0 (length line.old)) line.old result line.new }
{
    room(line, 0)?;
    let mut at = put_figure(line, 0, b"file refused", u32::from(refusal.number()));
    at = put_figure(line, at, b" at", offset);
    Some(finish(line, at))
}
