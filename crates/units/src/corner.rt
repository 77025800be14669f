// The corners of an interval's curve, and the block that holds them.
ghost use Rattle.std.specs.Prelude.{◌≤◌};

use crate::{Requests, Slots};

// A corner of an interval's curve: a whole rate, and the stall there, both of one period.
#[derive(Clone, Copy, Debug, PartialEq, Eq)]
pub struct Corner {
    pub rate: Requests,
    pub stall: Slots,
    ghost small_rate: { rate.0 ≤ 65_535 },
    ghost small_stall: { stall.0 ≤ 65_535 },
}

impl Corner {
    // What stands in a block past its corners.
    pub const NONE: Corner = Corner {
        rate: Requests(0),
        stall: Slots(0),
    };
}

// The corners of one interval in a fixed block of nine, by value, as document 01 names it, with a count; places past the count are 0.
#[derive(Clone, Copy)]
pub struct Block {
    pub corners: [Corner; 9],
    pub count: u8,
}

impl Block {
    // The block of no corners.
    pub const EMPTY: Block = Block {
        corners: [Corner::NONE; 9],
        count: 0,
    };
}
