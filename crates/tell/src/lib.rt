// Answers told as text: words, numbers after a space, and the answers to questions on whole plans.
#![tactic(auto)]

use std::fmt;
use std::fmt::{Display, Write};
use units::{Periods, Plan, Refusal, Workload};

// Standard output, written to by its number: the programs take no handle, which `print!` would need.
#[derive(Drop)]
struct Output;

// The number of standard output.
const STDOUT: i32 = 1;

impl Write for Output {
    // Text, as it is.
    fn write_str(&mut self, text: &str) -> fmt::Result {
        say(text.as_bytes());
        Ok(())
    }
}

// Words, as they are; what the system does not take is passed over.
pub fn say(words: &[u8]) {
    io::write_all(STDOUT, words);
}

// What can be displayed, as it is.
pub fn show(words: impl Display + Drop) {
    let _ = Output.write(words);
}

// A number after a space.
pub fn tell(number: u32) {
    show(format_args!(" {number}"));
}

// Each number after a space, and the end of the line.
pub fn tell_all<T: Display>(numbers: &[T]) {
    for number in numbers {
        show(format_args!(" {number}"));
    }
    say(b"\n");
}

// A refusal by its number, and the end of the line.
pub fn tell_refused(refusal: Refusal) {
    show(format_args!(" refused {}\n", refusal.number()));
}

// The span of a workload on a plan, with the placement where there is one.
pub fn tell_span(words: &[u8], plan: Plan, workload: Workload, placement: &mut [u32]) {
    say(words);
    match span::span(plan, workload, placement) {
        Ok(found) => {
            let (span, stall, rounds) = (found.span.0, found.stall.0, found.rounds);
            show(format_args!(" span {span} stall {stall} rounds {rounds} requests"));
            tell_all(placement);
        }
        Err(refusal) => tell_refused(refusal),
    }
}

// The placement and stall at a given W of a workload's requests from its start, with the placement; computing and horizon are not read.
pub fn tell_placement(
    words: &[u8],
    plan: Plan,
    workload: Workload,
    periods: Periods,
    placement: &mut [u32],
) {
    say(words);
    let Workload {
        core,
        requests,
        start,
        ..
    } = workload;
    match span::placement(plan, core, requests, start, periods, placement) {
        Ok(stall) => {
            show(format_args!(" stall {} requests", stall.0));
            tell_all(placement);
        }
        Err(refusal) => tell_refused(refusal),
    }
}
