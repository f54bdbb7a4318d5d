// Records from a serial line, which comes in pieces: for every cutting of the input the same records are handed on, in the same
// order, and the same bytes are carried (specs/Claims).
#![tactic(auto)]

mod front;
pub mod reader;
