// Channel change responses: whether the lower layers are to follow a channel allocation (EN 300 392-2, clause 14.5.3.2). Each question is answered
// at once or waits in one of four rooms, and is answered once.
#![tactic(auto)]

pub mod questions;
pub mod rooms;
