// A set that never touches a timer: the record of a call and its bank of timers together, with three entries over both.
#![tactic(auto)]

mod lengths;
pub mod set;
mod starts;
