// The questions of `vectors` on curves and on whole plans.
#![tactic(auto)]

mod answers; // answers.rt: the start of an answer
pub mod curves; // curves.rt: raw stall and corners
mod lists; // lists.rt: the lists of a plan out of a body
pub mod plans; // plans.rt: placement and span
