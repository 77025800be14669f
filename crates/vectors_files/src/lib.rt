// Questions on plan files: one read, and one written.
#![tactic(auto)]

ghost use Rattle.std.specs.Prelude.{◌≤◌, length};

use reader::{Contents, FileRefusal};
use std::fmt::Write;
use units::{Plan, Workloads};
use vectors_text::body::{count_at, head_at, is_within, number_at, numbers_from};
use vectors_text::filling::in_slice;
use vectors_text::line::{put_malformed, put_place, write_refused, write_start};
use vectors_text::places::ROOM;

// Whether the counts of two bytes at these indexes are within the fixed places.
fn are_within(body: &[u8], indexes: &[usize]) -> bool {
    indexes.iter().all(|at| is_within(body, *at))
}

// The start of an answer on a file that is read.
fn put_read<W: Write>(line: &mut W, answer: Result<Contents, FileRefusal>) {
    let _ = match answer {
        Ok(found) => {
            let head = found.head;
            let plan = [
                0,
                usize::from(head.cores),
                head.per_period.0 as usize,
                usize::from(head.repeating),
                found.intervals,
                found.workloads,
            ];
            write_start(line, "read", 0, &plan)
        }
        Err(refused) => write_refused(
            line,
            "read",
            refused.refusal,
            &[refused.offset, 0, 0, 0, 0, 0],
        ),
    };
}

// The rooms of the six places in two bytes each, and the file to the body's end. The places stay six: their numbers have three sizes. Each
// number holds 7 before the question; the arrays are written out, since by `unwritten` each would be moved once more.
pub fn answer_read<W: Write>(body: &[u8], line: &mut W) {
    let Some(file) = body.get(12..) else {
        return put_malformed(line);
    };
    if !are_within(body, &[0, 2, 4, 6, 8, 10]) {
        return put_malformed(line);
    }
    let mut lengths = [7; ROOM];
    let mut budgets = [7; ROOM];
    let mut analysed = [7; ROOM];
    let mut computing = [7; ROOM];
    let mut requests = [7; ROOM];
    let mut horizons = [7; ROOM];
    let lengths = &mut lengths[..count_at(body, 0)];
    let budgets = &mut budgets[..count_at(body, 2)];
    let analysed = &mut analysed[..count_at(body, 4)];
    let computing = &mut computing[..count_at(body, 6)];
    let requests = &mut requests[..count_at(body, 8)];
    let horizons = &mut horizons[..count_at(body, 10)];
    let answer = reader::read(
        file, lengths, budgets, analysed, computing, requests, horizons,
    );
    put_read(line, answer);
    put_place(line, lengths);
    put_place(line, budgets);
    put_place(line, analysed);
    put_place(line, computing);
    put_place(line, requests);
    put_place(line, horizons)
}

// Cores, Q, the mark, the room of the place, the counts of the lengths and the budgets, of the four lists of workload values, and the lists.
pub fn answer_write<W: Write>(body: &[u8], line: &mut W) {
    let intervals = usize::from(number_at::<u8>(body, 8));
    let budgets_start = 19 + 2 * intervals;
    let analysed_start = budgets_start + 2 * count_at(body, 9);
    let computing_start = analysed_start + count_at(body, 11);
    let requests_start = computing_start + 4 * count_at(body, 13);
    let horizons_start = requests_start + 4 * count_at(body, 15);
    let end = horizons_start + 2 * count_at(body, 17);
    if !are_within(body, &[6, 9, 11, 13, 15, 17]) || body.len() != end {
        return put_malformed(line);
    }
    let lengths = numbers_from(body, 19, intervals);
    let budgets = numbers_from(body, budgets_start, count_at(body, 9));
    let analysed = numbers_from(body, analysed_start, count_at(body, 11));
    let computing = numbers_from(body, computing_start, count_at(body, 13));
    let requests = numbers_from(body, requests_start, count_at(body, 15));
    let horizons = numbers_from(body, horizons_start, count_at(body, 17));
    let plan = Plan {
        head: head_at(body, 1),
        lengths: &lengths,
        budgets: &budgets,
    };
    let workloads = Workloads {
        analysed: &analysed,
        computing: &computing,
        requests: &requests,
        horizons: &horizons,
    };
    let mut place = [7; ROOM];
    let place = &mut place[..count_at(body, 6)];
    let _ = match writer::write(plan, workloads, place) {
        Ok(bytes) => write_start(line, "write", 0, &[bytes]),
        Err(refusal) => write_refused(line, "write", refusal, &[0]),
    };
    put_place(line, place)
}

// `answer_read` into a slice, from its front on; the answer's length, or the slice's where there is no room for all of it.
pub fn read_question(body: &[u8], line: &mut [u8]) -> usize
    ensures { result ≤ length line.new }
{
    in_slice(line, |line| answer_read(body, line))
}

// `answer_write` into a slice, from its front on; the answer's length, or the slice's where there is no room for all of it.
pub fn write_question(body: &[u8], line: &mut [u8]) -> usize
    ensures { result ≤ length line.new }
{
    in_slice(line, |line| answer_write(body, line))
}
