// Timers kept for a host: a bank of the seven timers over a wrapping 32-bit counter of milliseconds.
#![tactic(auto)]

pub mod bank;
mod due;
mod wrap;
