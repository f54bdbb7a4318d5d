// What a row orders, once it is carried out: the next call, the timers to stop and to start, and the messages.
use crate::call::Call;
use crate::row::Row;

#[derive(Clone, Copy, Debug, PartialEq, Eq)]
pub struct Drafted {
    pub call: Call,
    pub stops: [bool; 7],
    pub starts: [bool; 7],
    // The plane that CONFIGURE tells, 0 where none is written, as `draft` and `messages_in` of specs/ have it: an Option would need a test
    // for a held plane 0, which `decide` may be given.
    pub configure: u8,
    // The row itself: its digits say the other messages, which are laid straight from them.
    pub row: Row,
}
