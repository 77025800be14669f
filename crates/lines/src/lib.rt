// The lines of a file's listing: line n, from 0 to the last, of a file that was read. The room of the lent line is asked for in each contract:
// an array of just `ROOM` bytes in its place would ask more of callers, who may lend a longer one.
#![tactic(auto)]

ghost use Rattle.std.specs.Prelude.{◌≡◌, ◌+◌, ◌≤◌, ◌<◌, length};
ghost use Rattle.meaning.specs.Plan.{most_intervals};
ghost use Rattle.meaning.specs.PlanFile.{Reading, read_file};
ghost use Rattle.meaning.specs.Listing.{line_count};
ghost use Rattle.units.specs.Given.{plan_of, workload_of};
ghost use Rattle.reader.specs.Reading.{places_in};
ghost use Rattle.listing.specs.Promise.{room};
ghost use Rattle.lines.specs.Answered.{AnswerLine};
ghost use Rattle.lines.specs.Held.{HeldIn, held_file, LineGiven, ReadInto, ReadAs};

use reader::{Contents, FileRefusal, Places};
use record::lists::workload_in;
use units::{Plan, Workload};

// The line of a workload with its number: what the question "span" answers for it, with a place for just its intervals.
fn workload_line(
    number: u16,
    plan: Plan,
    workload: Workload,
    place: &mut [u32],
    line: &mut [u8],
) -> Option<usize>
    requires { (length place.old ≡ length plan.lengths.now) × (length plan.lengths.now ≤ most_intervals) × (room ≤ length line.old) }
    ensures { AnswerLine (plan_of plan.entry) (workload_of workload) number line.old result line.new }
{
    match span::span(plan, workload, place) {
        Ok(answer) => listing::span_line(
            number,
            answer.span,
            answer.stall,
            answer.rounds,
            place,
            line,
        ),
        Err(refusal) => listing::refused_line(number, refusal, line),
    }
}

// Line n of a sound file's listing, whose values the reader put into these places: the plan's first, then one for each workload, then the last.
fn sound_line(n: u16, found: Contents, places: Places, line: &mut [u8]) -> Option<usize>
    requires held_in { HeldIn found (places_in places) }
    requires n_bound { (n ≤ found.workloads + 1) × (room ≤ length line.old) }
    ensures { LineGiven (Reading.sound (held_file found (places_in places.entry))) n line.old result line.new }
{
    let intervals = found.intervals;
    let numbers = intervals * usize::from(found.head.cores);
    let plan = Plan {
        head: found.head,
        lengths: &places.lengths[..intervals],
        budgets: &places.budgets[..numbers],
    };
    if n == 0 {
        return listing::plan_line(plan, line);
    }
    let number = usize::from(n);
    if found.workloads < number {
        return listing::end_line(n - 1, line);
    }
    let workload = workload_in(places.workloads, number - 1);
    // 64 intervals at most: there is no heap.
    let mut place = [0u32; 64];
    workload_line(n, plan, workload, &mut place[..intervals], line)
}

// How many lines the listing of a file has, which was read with this answer; file and answer come one by one, since `spans` has them so.
pub fn lines_in(file: &[u8], answer: Result<Contents, FileRefusal>) -> u16
    requires { ReadAs file.now answer }
    ensures { result ≡ line_count (read_file file.now) }
{
    match answer {
        Ok(found) => found.workloads as u16 + 2,
        Err(_) => 1,
    }
}

// Line n of the listing of a file, n from 0 to the last. The file was read with this answer into these places, each as long as the longest
// file needs. The line is written from the front of the place lent for it, and what lies behind is kept.
pub fn line_of(
    file: &[u8],
    n: u16,
    answer: Result<Contents, FileRefusal>,
    places: Places,
    line: &mut [u8],
) -> Option<usize>
    requires read_into { ReadInto file.now answer (places_in places) }
    requires n_bound { (n < line_count (read_file file.now)) × (length file.now ≤ 8_192) × (room ≤ length line.old) }
    ensures { LineGiven (read_file file.now) n line.old result line.new }
{
    match answer {
        Ok(found) => sound_line(n, found, places, line),
        Err(fault) => listing::file_refused_line(fault.refusal, fault.offset as u32, line),
    }
}
