// One record of a plan file: its kind, the numbers in it, its values, and what it is refused for.
#![tactic(auto)]

ghost use Rattle.std.specs.Prelude.{◌≡◌};
ghost use Rattle.record.specs.Kinds.{number_in_file, least_of, most_of};

use units::Head;

pub mod bytes; // bytes.rt: numbers of several bytes
pub mod faults; // faults.rt: what a record is refused for
pub mod lists; // lists.rt: lists of workload values
mod record; // record.rt: a record as the place where it stands
pub mod values; // values.rt: what stands in a record

pub use record::{IntervalRecord, Record};

// A kind of record, with its number in the file: the head of a plan, an interval with up to eight listed budgets, a workload.
#[derive(Clone, Copy, Debug, PartialEq, Eq)]
pub enum Kind {
    Head = 1,
    Interval = 2,
    Workload = 3,
}

impl Kind {
    // The bytes of a head's body.
    pub const HEAD_BODY: u16 = 6;

    // The bytes of the body of an interval without its listed budgets.
    pub const INTERVAL_BODY: u16 = 4;

    // The bytes of a workload's body.
    pub const WORKLOAD_BODY: u16 = 12;

    // The bytes of a whole head: the body's length, the kind, the body. By `as`, since `From` is not const.
    pub const HEAD_BYTES: usize = 4 + Kind::HEAD_BODY as usize;

    // The bytes of a whole workload record, by `as` too.
    pub const WORKLOAD_BYTES: usize = 4 + Kind::WORKLOAD_BODY as usize;

    // The number in the file.
    pub fn number(self) -> u16
        ensures { result ≡ number_in_file self }
    {
        self as u16
    }

    // The least bytes of a body of this kind.
    pub fn least(self) -> u16
        ensures { result ≡ least_of self }
    {
        match self {
            Kind::Head => Kind::HEAD_BODY,
            Kind::Interval => Kind::INTERVAL_BODY,
            Kind::Workload => Kind::WORKLOAD_BODY,
        }
    }

    // The most bytes of a body of this kind.
    pub fn most(self) -> u16
        ensures { result ≡ most_of self }
    {
        match self {
            Kind::Interval => Kind::INTERVAL_BODY + 2 * u16::from(Head::MOST_CORES),
            _ => self.least(),
        }
    }
}
