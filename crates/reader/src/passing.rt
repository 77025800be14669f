// A whole file judged with no store, record by record.
ghost use Rattle.std.specs.Prelude.{◌≡◌, MatchResult};
ghost use Rattle.reader.specs.Reading.{HeadSound, IntervalsRead, FileJudged};

use crate::{Contents, FileRefusal};
use record::faults::head_fault;
use record::values::{head_at, intervals_at};
use record::{Kind, Record};
use units::{Head, Periods, Refusal, Workload};

// What the record at an offset was judged, with the offset where it is refused.
fn at_offset<T>(judged: Result<T, Refusal>, offset: usize) -> Result<T, FileRefusal>
    ensures { MatchResult result
        (λ x. judged ≡ Ok x)
        (λ e. (judged ≡ Err e.refusal) × (e.offset ≡ offset)) }
{
    judged.map_err(|refusal| FileRefusal { refusal, offset })
}

// The workloads from a start on, behind a head and so many intervals: what the file holds. The loop is a `while`, since the end of the file
// ends it, and each record says where the next begins.
fn pass_workloads(
    file: &[u8],
    head: Head,
    intervals: usize,
    start: usize,
) -> Result<Contents, FileRefusal>
    requires { IntervalsRead file.now head intervals start }
    ensures { FileJudged file.now result }
{
    let mut at = start;
    let mut count: u16 = 0;
    while at < file.len() {
        let record = Record { file, at };
        at_offset(record.workload_fault(count == Workload::MOST), at)?;
        at = record.behind();
        count += 1;
    }
    Ok(Contents {
        head,
        intervals,
        workloads: usize::from(count),
    })
}

// The intervals behind a head, and then the workloads: what the file holds.
fn pass_intervals(file: &[u8], head: Head, intervals: usize) -> Result<Contents, FileRefusal>
    requires { HeadSound file.now head intervals }
    ensures { FileJudged file.now result }
{
    let mut at = Kind::HEAD_BYTES;
    let mut passed = Periods(0);
    for _i in 0..intervals {
        let record = Record { file, at };
        passed = at_offset(record.interval_fault(head, passed), at)?;
        at = record.behind();
    }
    pass_workloads(file, head, intervals, at)
}

// What a file holds, judged whole.
pub fn contents(file: &[u8]) -> Result<Contents, FileRefusal>
    ensures { FileJudged file.now result }
{
    at_offset(head_fault(file), 0)?;
    pass_intervals(file, head_at(file), intervals_at(file))
}
