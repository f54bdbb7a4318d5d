// A console with eight calls: where an event goes, the step of the call at that place, and the messages behind the place's record.
#![tactic(auto)]

pub mod console;
pub mod keys;
pub mod lent;
pub mod route;
mod table;
