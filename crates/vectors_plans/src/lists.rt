// The lists of a plan out of a record's body.
use arrayvec::ArrayVec;
use units::{Head, Plan};
use vectors_text::body::{ends_in_twos, numbers_from};
use vectors_text::places::ROOM;

// The periods of a plan's intervals, and its budgets.
#[derive(Drop)]
pub struct Lists {
    lengths: ArrayVec<u16, ROOM>,
    budgets: ArrayVec<u16, ROOM>,
}

impl Lists {
    // The lists that end a body from an index on: the count of the lengths, the lengths, and the budgets to the body's end.
    pub fn at(body: &[u8], at: usize) -> Option<Lists> {
        let (count, numbers) = body.get(at..)?.split_first()?;
        let intervals = usize::from(*count);
        if !ends_in_twos(numbers, 2 * intervals) {
            return None;
        }
        Some(Lists {
            lengths: numbers_from(numbers, 0, intervals),
            budgets: numbers_from(numbers, 2 * intervals, ROOM),
        })
    }

    // The plan of a head and these lists.
    pub fn plan(&self, head: Head) -> Plan {
        Plan {
            head,
            lengths: &self.lengths,
            budgets: &self.budgets,
        }
    }
}
