// The plans that the numbers are worked on.
use units::{Head, Periods, Plan, Slots};

// The head of a plain plan of four cores with Q = 16.
pub const FOUR_CORES: Head = Head {
    cores: 4,
    per_period: Slots(16),
    repeating: false,
};

// The budgets of P1 to P8.
pub const BUDGETS: [u16; 4] = [2, 2, 5, 7];

// Budgets with which core 1 is parked.
pub const PARKED_BUDGETS: [u16; 4] = [0, 4, 6, 6];

// P4 to P8: one interval of 20 periods.
pub const TWENTY: Plan<'static> = Plan {
    head: FOUR_CORES,
    lengths: &[20],
    budgets: &BUDGETS,
};

// The same with one period.
pub const ONE: Plan<'static> = Plan {
    lengths: &[1],
    ..TWENTY
};

// P9: a core that is alone, with all of Q, for 20 periods.
pub const ALONE: Plan<'static> = Plan {
    head: Head {
        cores: 1,
        ..FOUR_CORES
    },
    lengths: &[20],
    budgets: &[16],
};

// P10: the listing's plan.
pub const LISTING: Plan<'static> = Plan {
    head: FOUR_CORES,
    lengths: &[1, 4],
    budgets: &[2, 2, 5, 7, 4, 4, 4, 4],
};

// 004's section VI.
pub const SECTION_SIX: Plan<'static> = Plan {
    head: FOUR_CORES,
    lengths: &[5, 3, 7],
    budgets: &[2, 2, 5, 7, 2, 3, 7, 4, 5, 5, 1, 5],
};

// Three intervals with one curve.
pub const THREE_EQUAL: Plan<'static> = Plan {
    head: FOUR_CORES,
    lengths: &[1, 1, 1],
    budgets: &[2, 2, 5, 7, 2, 2, 5, 7, 2, 2, 5, 7],
};

// Two intervals of 2 periods with the same budgets.
pub const TWO_EQUAL: Plan<'static> = Plan {
    head: FOUR_CORES,
    lengths: &[2, 2],
    budgets: &[4; 8],
};

// Two intervals with slopes of 8/5 and 5/3, which are equal as rounded quotients.
pub const NEAR_SLOPES: Plan<'static> = Plan {
    head: Head {
        cores: 2,
        per_period: Slots(104),
        repeating: false,
    },
    lengths: &[1, 1],
    budgets: &[40, 64, 39, 65],
};

// Core 1 is parked first and last.
pub const PARKED: Plan<'static> = Plan {
    head: FOUR_CORES,
    lengths: &[2, 3, 1],
    budgets: &[0, 4, 6, 6, 2, 2, 5, 7, 0, 5, 5, 6],
};

// Core 1 is parked in all 5 periods, and core 2 has all of Q.
pub const ALL_PARKED: Plan<'static> = Plan {
    head: Head {
        cores: 2,
        ..FOUR_CORES
    },
    lengths: &[5],
    budgets: &[0, 16],
};

// A core that is alone for as many periods, and with as many slots in each, as a plan can have.
pub const LONGEST: Plan<'static> = Plan {
    head: Head {
        cores: 1,
        per_period: Slots(Slots::MAX_PER_PERIOD),
        repeating: false,
    },
    lengths: &[Periods::MAX],
    budgets: &[65_535],
};

// The plan of the longest file: 64 intervals in which all 8 cores have a budget.
pub const FULL: Plan<'static> = Plan {
    head: Head {
        cores: 8,
        per_period: Slots(8),
        repeating: false,
    },
    lengths: &[1; 64],
    budgets: &[1; 512],
};

// The same plan, starting over each cycle.
pub fn repeating(plan: Plan) -> Plan {
    Plan {
        head: Head {
            repeating: true,
            ..plan.head
        },
        ..plan
    }
}
