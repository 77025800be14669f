// The numbers that document 01 and the requests of document 02 work by hand, answered by the library. P1 to P10 and the requests' numbers
// are proved too (crates/demands).
#![tactic(auto)]

mod plans; // plans.rt: the plans that the numbers are worked on

use plans::{
    ALL_PARKED, ALONE, BUDGETS, FOUR_CORES, FULL, LISTING, LONGEST, NEAR_SLOPES, ONE, PARKED,
    PARKED_BUDGETS, SECTION_SIX, THREE_EQUAL, TWENTY, TWO_EQUAL, repeating,
};
use std::fmt::Display;
use tell::{say, show, tell, tell_all, tell_placement, tell_refused, tell_span};
use units::{Head, Periods, Plan, Requests, Slots, Workload, Workloads};

// A workload by its numbers, from the plan's beginning.
fn work(core: u8, computing: u32, requests: u32, horizon: u16) -> Workload {
    Workload {
        core,
        computing: Slots(computing),
        requests: Requests(requests),
        horizon: Periods(horizon),
        start: Periods(0),
    }
}

// The same workload, starting later.
fn starting(start: u16, workload: Workload) -> Workload {
    Workload {
        start: Periods(start),
        ..workload
    }
}

// The raw stall of a core at a rate, with Q = 16.
fn tell_raw(budgets: &[u16], core: u8, rate: u32) {
    match interval::raw_stall(FOUR_CORES, budgets, core, Requests(rate)) {
        Ok(stall) => tell(stall.0),
        Err(refusal) => tell_refused(refusal),
    }
}

// The raw stalls of a core at every rate up to its budget, with Q = 16.
fn tell_raws(words: &str, budgets: &[u16], core: u8, budget: u32) {
    show(words);
    for rate in 0..=budget {
        tell_raw(budgets, core, rate);
    }
    say(b"\n");
}

// The corners of a core in a place that has just room for them, with Q = 16.
fn tell_corners(words: &str, budgets: &[u16], core: u8, place: &mut [u16]) {
    show(words);
    match interval::corners(FOUR_CORES, budgets, core, place) {
        Ok(_) => tell_all(place),
        Err(refusal) => tell_refused(refusal),
    }
}

// The most intervals that a plan has; by `as`, since `From` is not const.
const MOST: usize = Head::MOST_INTERVALS as usize;

// Room for a placement on any plan. A place left as it was would show a 9.
const ROOM: [u32; MOST] = [9; MOST];

// The span of a workload on a plan, with a place for just its intervals.
fn span(words: impl Display + Drop, plan: Plan, workload: Workload) {
    let mut room = ROOM;
    let place = &mut room[..plan.lengths.len().min(MOST)];
    show(words);
    tell_span(b"", plan, workload, place);
}

// The placement and stall at a given W of so many requests of a core from a start, with such a place.
fn placement(
    words: impl Display + Drop,
    plan: Plan,
    core: u8,
    requests: u32,
    start: u16,
    periods: u16,
) {
    let mut room = ROOM;
    let place = &mut room[..plan.lengths.len().min(MOST)];
    let workload = starting(start, work(core, 0, requests, 0));
    show(words);
    tell_placement(b"", plan, workload, Periods(periods), place);
}

// The longest file, in a place: 256 workloads on a full plan.
fn longest_file(words: &str, place: &mut [u8]) {
    let workloads = Workloads {
        analysed: &[1; 256],
        computing: &[1; 256],
        requests: &[0; 256],
        horizons: &[1; 256],
    };
    show(words);
    match writer::write(FULL, workloads, place) {
        Ok(bytes) => show(format_args!(" {bytes}\n")),
        Err(refusal) => tell_refused(refusal),
    }
}

// Raw stalls, corners, and the refusal of budgets.
fn curves() {
    tell_raws("P1 core 1, raw:", &BUDGETS, 1, 2);
    tell_corners("P1 core 1, corners:", &BUDGETS, 1, &mut [9; 2]);
    tell_raws("P2 core 3, raw:", &BUDGETS, 3, 5);
    tell_corners("P2 core 3, corners:", &BUDGETS, 3, &mut [9; 3]);
    tell_raws("P3 core 4, raw:", &BUDGETS, 4, 7);
    tell_corners("P3 core 4, corners:", &BUDGETS, 4, &mut [9; 4]);
    say(b"budgets 2, 2, 5, 6 with Q 16:");
    tell_raw(&[2, 2, 5, 6], 1, 0);
    say(b"budgets 0, 4, 6, 6, core 2, raw at 4:");
    tell_raw(&PARKED_BUDGETS, 2, 4);
    say(b"\n");
}

// P4 to P10.
fn spans() {
    span("P4:", TWENTY, work(3, 40, 35, 20));
    span("P4, H = 10:", TWENTY, work(3, 40, 35, 10));
    span("P5:", TWENTY, work(3, 40, 35, 9));
    span("P6:", TWENTY, work(3, 17, 0, 20));
    span("P6, E 16:", TWENTY, work(3, 16, 0, 20));
    span("P7:", TWENTY, work(3, 1, 4, 20));
    span("P7, 5 requests:", TWENTY, work(3, 1, 5, 20));
    span("P8:", TWENTY, work(1, 1, 1, 20));
    span("P8, 2 requests:", TWENTY, work(1, 1, 2, 20));
    span("P9:", ALONE, work(1, 10, 22, 20));
    span("P10:", LISTING, work(3, 10, 10, 5));
    span("P10, H = 3:", LISTING, work(3, 10, 10, 3));
}

// 004's section VI; its exact fraction; a total that is rounded once; two slopes that are near.
fn placements() {
    placement("004, section VI, at W = 6:", SECTION_SIX, 3, 25, 0, 6);
    // 004 prints 9 at rate 3.88; the exact value times 9 periods is 82 1/3, which is 83 whole slots.
    let exact = "core 3, 35 requests at W = 9, where 9 * 9 would be 81:";
    placement(exact, TWENTY, 3, 35, 0, 9);
    // 3 requests in each interval would stall 7 2/3 each, 24 if rounded up before the total is sought.
    let rounded = "three intervals, core 3, 9 requests at W = 3:";
    placement(rounded, THREE_EQUAL, 3, 9, 0, 3);
    // The second interval is filled first.
    placement("slopes 8/5 and 5/3, 39 requests:", NEAR_SLOPES, 1, 39, 0, 2);
}

// The listing's plan repeating, and one period that repeats (2026-01).
fn cycles() {
    let last = Periods::MAX;
    let cycle = repeating(LISTING);
    span("repeating, P10:", cycle, work(3, 10, 10, 5));
    span("repeating, E 40:", cycle, work(3, 40, 35, last));
    span("repeating, E 40, H = 11:", cycle, work(3, 40, 35, 11));
    span("plain, E 40:", LISTING, work(3, 40, 35, last));
    span("plain, E 40, H = 11:", LISTING, work(3, 40, 35, 11));
    span("repeating, E 100:", cycle, work(3, 100, 100, last));
    placement("repeating, at W = 12:", cycle, 3, 25, 0, 12);
    placement("repeating, at W = 65,535:", cycle, 3, 25, 0, last);
    placement("repeating, at W = 0:", cycle, 3, 25, 0, 0);
    let one = repeating(ONE);
    span("one period that repeats, P4:", one, work(3, 40, 35, 20));
    span("one period that repeats, P5:", one, work(3, 40, 35, 9));
}

// Core 1 parked in some intervals, in all of them, and where the plan repeats (2026-02).
fn parked() {
    tell_raws("parked, raw:", &PARKED_BUDGETS, 1, 0);
    say(b"parked, raw at 1:");
    tell_raw(&PARKED_BUDGETS, 1, 1);
    tell_corners("parked, corners:", &PARKED_BUDGETS, 1, &mut [9; 1]);
    tell_corners(
        "core 2 beside it, corners:",
        &PARKED_BUDGETS,
        2,
        &mut [9; 2],
    );
    span("parked, E 1:", PARKED, work(1, 1, 0, 6));
    span("parked, E 17:", PARKED, work(1, 17, 0, 6));
    span("parked, E 1, 2 requests:", PARKED, work(1, 1, 2, 6));
    span("parked, E 10, 1 request:", PARKED, work(1, 10, 1, 6));
    span("parked, E 1, 6 requests:", PARKED, work(1, 1, 6, 6));
    for periods in [1, 2, 3, 5, 6] {
        let words = format_args!("parked, at W = {periods}:");
        placement(words, PARKED, 1, 2, 0, periods);
    }
    let cycle = repeating(PARKED);
    span("parked, repeating:", cycle, work(1, 20, 4, Periods::MAX));
    span("parked all the way:", ALL_PARKED, work(1, 1, 0, 5));
}

// Spans of tasks that start later on the listing's plan (2026-03).
fn started() {
    for (start, horizon) in [(1, 4), (2, 3), (4, 1), (4, 2), (5, 1)] {
        let words = format_args!("start {start}, H = {horizon}:");
        span(words, LISTING, starting(start, work(3, 10, 10, horizon)));
    }
    let cycle = repeating(LISTING);
    let workload = work(3, 10, 10, Periods::MAX);
    span("repeating, start 5:", cycle, starting(5, workload));
    span("repeating, start 3:", cycle, starting(3, workload));
}

// Placements from later starts (2026-03); of two equal intervals the one that is met last, interval 1, is filled first.
fn started_placements() {
    for (start, periods) in [(3, 5), (4, 1), (4, 2), (4, 6), (4, 7)] {
        let words = format_args!("repeating, start {start}, at W = {periods}:");
        placement(words, repeating(LISTING), 3, 8, start, periods);
    }
    let met_last = "two equal intervals, start 2, 10 requests at W = 3:";
    placement(met_last, repeating(TWO_EQUAL), 3, 10, 2, 3);
}

// Computing, requests and the length of a file, at their limits and one past them.
fn limits() {
    let last = Periods::MAX;
    let all = work(1, Slots::MAX, 0, last);
    let past = work(1, Slots::MAX + 1, 0, last);
    let most = work(1, 1, Requests::MAX, last);
    let many = work(1, 1, Requests::MAX + 1, last);
    span("E 4,294,836,225 at Q 65,535:", LONGEST, all);
    span("E 4,294,836,226:", LONGEST, past);
    span("requests 4,294,836,225:", LONGEST, most);
    span("requests 4,294,836,226:", LONGEST, many);
    longest_file("the longest file, in bytes:", &mut [0; 5642]);
    let short = "the longest file in a place of 5,641 bytes:";
    longest_file(short, &mut [0; 5641]);
}

// All of them: document 01's in its order, the requests' before the limits.
fn main() {
    curves();
    spans();
    placements();
    cycles();
    parked();
    started();
    started_placements();
    limits();
}
