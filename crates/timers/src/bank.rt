// The bank of seven timers: STOP, START and readings of the host's counter.
ghost use Rattle.std.specs.Prelude.{◌≡◌, ◌<◌};
ghost use Rattle.timers.specs.Bank.{answer_number, new_bank, index_of, entry_of, length_in, stopped, started, advanced, index_given, length_given, as_ordered, as_advanced};

use crate::due::{Pairs, count_of, keys_of, staying};
use crate::wrap::{forward, is_back};

// Why a call is refused.
#[derive(Clone, Copy, Debug, PartialEq, Eq)]
pub enum Refusal {
    // No timer has this number.
    TimerUnknown = 30,
    // The length is out of range or missing.
    LengthOutOfRange = 31,
    // The reading is earlier than the last.
    ReadingEarlier = 32,
    // The lent list is shorter than the number due.
    ListShort = 33,
}

impl Refusal {
    // Its number for a host.
    pub fn number(self) -> u8
        ensures value { result ≡ answer_number self }
        ensures upper_bound { result < 34 }
    {
        self as u8
    }
}

#[derive(Clone, Copy, Debug, PartialEq, Eq)]
pub struct Bank {
    // The last reading that was accepted.
    pub last: u32,
    // The counter's reading at each timer's deadline; it says nothing of a timer that does not run. Not an Option each: a host's 39 bytes keep
    // the deadline of a timer that was stopped, and a bank that was unpacked is packed as the same bytes (HeldBankIsPacked of host).
    pub deadlines: [u32; 7],
    // Which of the timers 301 302 303 306 308 310 311 run.
    pub running: [bool; 7],
}

// The number of timers handed out and the next bank.
#[derive(Clone, Copy, Debug, PartialEq, Eq)]
pub struct Advanced {
    pub count: usize,
    pub bank: Bank,
}

// A timer's index of seven, by rising number.
#[tactic(auto, unfolding(crate::specs::Bank::index_of))]
fn index_of(timer: u16) -> Option<usize>
    ensures { result ≡ index_given (index_of timer) }
{
    match timer {
        301 => Some(0),
        302 => Some(1),
        303 => Some(2),
        306 => Some(3),
        308 => Some(4),
        310 => Some(5),
        311 => Some(6),
        _ => None,
    }
}

// The entry of the lent table for a timer: T301 T302 T303 T306 T308 T311, then T310's by code.
#[tactic(auto, unfolding(crate::specs::Bank::entry_of))]
fn entry_of(timer: u16, code: u8) -> usize
    ensures { result ≡ entry_of timer code }
{
    match timer {
        301 => 0,
        302 => 1,
        303 => 2,
        306 => 3,
        308 => 4,
        311 => 5,
        _ => 6 + code as usize,
    }
}

impl Bank {
    // The entries of a lent table.
    pub const ENTRIES: usize = 22;

    // The longest a timer runs, in milliseconds: 2^30.
    pub const LENGTH_MOST: u32 = 1073741824;

    // A timer's length in the lent table, none where it is out of range or missing.
    #[tactic(auto, unfolding(crate::specs::Bank::length_in))]
    fn length_in(table: &[u32], timer: u16, code: u8) -> Option<u32>
        ensures { result ≡ length_given (length_in table.now timer code) }
    {
        let at = entry_of(timer, code);
        if at >= Self::ENTRIES {
            return None;
        }
        let length = *table.get(at)?;
        if length == 0 || length > Self::LENGTH_MOST {
            return None;
        }
        Some(length)
    }

    // No timer runs.
    #[tactic(auto, unfolding(crate::specs::Bank::new_bank))]
    pub fn new(reading: u32) -> Self
        ensures { result ≡ new_bank reading }
    {
        Bank {
            last: reading,
            deadlines: [0; 7],
            running: [false; 7],
        }
    }

    // STOP.
    #[tactic(auto, unfolding(crate::specs::Bank::stopped))]
    pub fn stop(mut self, timer: u16) -> Result<Bank, Refusal>
        ensures { as_ordered self result ≡ stopped self timer }
    {
        let index = index_of(timer).ok_or(Refusal::TimerUnknown)?;
        self.running[index] = false;
        Ok(self)
    }

    // START: the timer runs for its length in the lent table from the last reading on.
    #[tactic(auto, unfolding(crate::specs::Bank::started))]
    pub fn start(mut self, table: &[u32], timer: u16, code: u8) -> Result<Bank, Refusal>
        ensures { as_ordered self result ≡ started self table.now timer code }
    {
        let index = index_of(timer).ok_or(Refusal::TimerUnknown)?;
        let length = Self::length_in(table, timer, code).ok_or(Refusal::LengthOutOfRange)?;
        self.deadlines[index] = self.last.wrapping_add(length);
        self.running[index] = true;
        Ok(self)
    }

    // A new reading: every timer then due is handed out, and no longer runs.
    pub fn advance(self, reading: u32, due: &mut [u16]) -> Result<Advanced, Refusal>
        ensures { as_advanced self result due.new ≡ advanced self reading due.old }
    {
        if is_back(forward(self.last, reading)) {
            return Err(Refusal::ReadingEarlier);
        }
        let keys = keys_of(self.running, self.deadlines, reading);
        let count = count_of(keys);
        if due.len() < count {
            return Err(Refusal::ListShort);
        }
        Pairs::of(keys).hand_out(count, due);
        let mut bank = self;
        bank.last = reading;
        bank.running = staying(self.running, keys);
        Ok(Advanced { count, bank })
    }
}
