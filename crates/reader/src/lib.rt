// A plan file read: judged whole, and its values filled into lent places.
#![tactic(auto)]

ghost use Rattle.meaning.specs.Promises.{ReadPromise};
ghost use Rattle.reader.specs.Reading.{read_figures, places_of};

use filling::{fill_intervals, fill_workloads, fits};
use passing::contents;
use units::{Head, Refusal, Workloads};

mod filling; // filling.rt: the values of a judged file filled into lent places
mod passing; // passing.rt: a whole file judged with no store

// What a sound file holds, beside the values in the lent places.
#[derive(Clone, Copy)]
pub struct Contents {
    pub head: Head,
    pub intervals: usize,
    pub workloads: usize,
}

// What a file is refused for, with the offset of the record at fault.
#[derive(Clone, Copy, Debug, PartialEq, Eq)]
pub struct FileRefusal {
    pub refusal: Refusal,
    pub offset: usize,
}

// The six places of a file that was read, as they are lent for a call: the periods of each interval, the budgets, and the workloads.
#[derive(Clone, Copy)]
pub struct Places<'a> {
    pub lengths: &'a [u16],
    pub budgets: &'a [u16],
    pub workloads: Workloads<'a>,
}

// Reads a plan file. The file and the six places are lent for the call alone. Written from the front of the places, and what lies behind
// is kept, are the periods of each interval; the budgets, interval by interval, core 1 first; and of each workload the core, counted from
// 1, its computing, its requests and its horizon. How many numbers they are is in the answer. On a refusal no place is written; 11, with
// offset 0, is a place that is too short. The places are six parameters, since each list of a struct that is lent to be written would need
// a clause of its own on its name as a loan.
pub fn read(
    file: &[u8],
    lengths: &mut [u16],
    budgets: &mut [u16],
    analysed: &mut [u8],
    computing: &mut [u32],
    requests: &mut [u32],
    horizons: &mut [u16],
) -> Result<Contents, FileRefusal>
    ensures { ReadPromise
        file.now
        (places_of
        lengths.old
        budgets.old
        analysed.old
        computing.old
        requests.old
        horizons.old)
        (read_figures result)
        (places_of
        lengths.new
        budgets.new
        analysed.new
        computing.new
        requests.new
        horizons.new) }
{
    let found = contents(file)?;
    if !fits(
        found, lengths, budgets, analysed, computing, requests, horizons,
    ) {
        return Err(FileRefusal {
            refusal: Refusal::NoRoom,
            offset: 0,
        });
    }
    let start = fill_intervals(file, found.head.cores, found.intervals, lengths, budgets);
    fill_workloads(
        file,
        start,
        found.workloads,
        analysed,
        computing,
        requests,
        horizons,
    );
    Ok(found)
}
