// Call control of one individual TETRA call: the call record, the rows of the paper, and the step.
#![tactic(auto)]

pub mod call;
mod draft;
pub mod row;
pub mod rows;
pub mod settle;
pub mod step;
mod writing;
