// Questions on a whole plan: placement and span.
ghost use Rattle.std.specs.Prelude.{◌≤◌, length};

use crate::answers::put_answer;
use crate::lists::Lists;
use span::SpanAnswer;
use std::fmt::Write;
use units::{Periods, Requests, Slots, Workload};
use vectors_text::body::{head_at, number_at};
use vectors_text::filling::in_slice;
use vectors_text::line::{put_malformed, put_place};
use vectors_text::places::unwritten;

// Cores, core, Q, the mark, requests, W, the start, the room of the place, the count of the lengths, the lengths, and the budgets to the body's end.
pub fn answer_placement<W: Write>(body: &[u8], line: &mut W) {
    let Some(lists) = Lists::at(body, 16) else {
        return put_malformed(line);
    };
    let room = usize::from(number_at::<u8>(body, 15));
    let mut place = unwritten();
    let place = &mut place[..room];
    let answer = span::placement(
        lists.plan(head_at(body, 2)),
        number_at(body, 1),
        Requests(number_at(body, 7)),
        Periods(number_at(body, 13)),
        Periods(number_at(body, 11)),
        place,
    );
    put_answer(line, "placement", answer.map(|stall| [stall.0 as usize]));
    put_place(line, place)
}

// The workload of a question on a span.
fn workload(body: &[u8]) -> Workload {
    Workload {
        core: number_at(body, 1),
        computing: Slots(number_at(body, 7)),
        requests: Requests(number_at(body, 11)),
        horizon: Periods(number_at(body, 15)),
        start: Periods(number_at(body, 17)),
    }
}

// The results of an answer on a span.
fn results(found: SpanAnswer) -> [usize; 3] {
    let span = usize::from(found.span.0);
    [span, found.stall.0 as usize, found.rounds as usize]
}

// Cores, core, Q, the mark, computing, requests, horizon, start, the room of the place, the count of the lengths, the lengths, and the
// budgets to the body's end.
pub fn answer_span<W: Write>(body: &[u8], line: &mut W) {
    let Some(lists) = Lists::at(body, 20) else {
        return put_malformed(line);
    };
    let room = usize::from(number_at::<u8>(body, 19));
    let mut place = unwritten();
    let place = &mut place[..room];
    let answer = span::span(lists.plan(head_at(body, 2)), workload(body), place);
    put_answer(line, "span", answer.map(results));
    put_place(line, place)
}

// `answer_placement` into a slice, from its front on; the answer's length, or the slice's where there is no room for all of it.
pub fn placement_question(body: &[u8], line: &mut [u8]) -> usize
    ensures { result ≤ length line.new }
{
    in_slice(line, |line| answer_placement(body, line))
}

// `answer_span` into a slice, from its front on; the answer's length, or the slice's where there is no room for all of it.
pub fn span_question(body: &[u8], line: &mut [u8]) -> usize
    ensures { result ≤ length line.new }
{
    in_slice(line, |line| answer_span(body, line))
}
