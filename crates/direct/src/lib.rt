// Direct mode, the outgoing call with presence check of EN 300 396-3, clause 6.2.2.1: the record, its events and messages, the rows and the step.
#![tactic(auto)]

pub mod call;
pub mod events;
pub mod messages;
mod rows;
pub mod step;
