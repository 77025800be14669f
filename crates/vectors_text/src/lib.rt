// The text of `vectors`: numbers out of a question's body, and an answer put into a line.
#![tactic(auto)]

pub mod body; // body.rt: numbers out of a record's body
pub mod filling; // filling.rt: what is put into a lent slice
pub mod line; // line.rt: an answer put into a line
pub mod places; // places.rt: places that are lent
pub mod slice_line; // slice_line.rt: a lent slice as a line
