// One event or message as bytes: length, kind and body, little-endian. What is written reads back as the same
// value, and what is read is written back as the same bytes (proofs/RoundTrip).
#![tactic(auto)]

pub mod bodies;
pub mod events;
pub mod fields;
pub mod letters;
pub mod lines;
pub mod message_lines;
pub mod messages;
pub mod record;
