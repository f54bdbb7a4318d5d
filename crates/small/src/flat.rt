// An event as numbers, as the tables have it.
ghost use Rattle.std.specs.Prelude.{◌≡◌, ◌<◌};
ghost use Rattle.callcontrol.specs.Call.{is_idle};
ghost use Rattle.small.specs.Flat.{place};
ghost use Rattle.small.specs.Small.{names_other, over_flat};

use callcontrol::call::Call;

// Which event it is, and the values that it brings. A value that it does not bring is the one that the call holds, so that a row may store
// it all the same.
#[derive(Clone, Copy)]
pub struct Flat {
    pub kind: u64,
    pub address: u32,
    pub id: u16,
    pub mode: u8,
    // Whether to transmit: q of SETUP request, k of TX request and D-TX CONTINUE.
    pub ask: u8,
    // The grant g.
    pub value: u8,
    pub reset: u8,
    pub code: u8,
    // 0 where the event brings none, as callcontrol's slots_after takes them.
    pub slots: u8,
    // The timer that expired.
    pub timer: Timer,
}

// A timer, with its place in a call's record.
#[derive(Clone, Copy, Debug, PartialEq, Eq)]
pub enum Timer {
    T301 = 0,
    T302 = 1,
    T303 = 2,
    T306 = 3,
    T308 = 4,
    T310 = 5,
    T311 = 6,
}

impl Timer {
    // The timer at a place.
    pub fn at(k: usize) -> Self
        requires { k < 7 }
        ensures { place result ≡ k }
    {
        match k {
            0 => Timer::T301,
            1 => Timer::T302,
            2 => Timer::T303,
            3 => Timer::T306,
            4 => Timer::T308,
            5 => Timer::T310,
            _ => Timer::T311,
        }
    }
}

impl Flat {
    // Whether it is a network event but D-SETUP, and names another call.
    #[tactic(auto, unfolding(crate::specs::Small::names_other))]
    pub fn names_other(self, call: Call) -> bool
        ensures { result ≡ names_other self.kind self.id call.id (is_idle call) }
    {
        match self.kind {
            D_SETUP => false,
            D_CALL_PROCEEDING..=D_RELEASE => {
                (self.id != call.id) & ((call.id != 0) | call.is_idle())
            }
            _ => false,
        }
    }

    // Whether it is D-INFO while the set transmits.
    #[tactic(auto, unfolding(crate::specs::Small::over_flat))]
    pub fn is_over(self, call: Call) -> bool
        ensures { result ≡ over_flat self.kind call.plane }
    {
        (self.kind == D_INFO) & call.transmits()
    }
}

// The events by number, in the paper's order. An expiry has three, since T308 and T311 have rows of their own. Numbers and no enum: a row
// of the table has its event in its sum, and an event is read as its entry's place in a table, from which an enum would come by a match of
// 25 arms.
pub const SETUP_REQUEST: u64 = 0;

pub const SETUP_RESPONSE: u64 = 1;

pub const RELEASE_REQUEST: u64 = 2;

pub const TX_REQUEST: u64 = 3;

pub const D_CALL_PROCEEDING: u64 = 4;

pub const D_ALERT: u64 = 5;

pub const D_CONNECT: u64 = 6;

pub const D_CONNECT_ACKNOWLEDGE: u64 = 7;

pub const D_SETUP: u64 = 8;

pub const D_INFO: u64 = 9;

pub const D_TX_GRANTED: u64 = 10;

pub const D_TX_CEASED: u64 = 11;

pub const D_TX_INTERRUPT: u64 = 12;

pub const D_TX_WAIT: u64 = 13;

pub const D_TX_CONTINUE: u64 = 14;

pub const D_CALL_RESTORE: u64 = 15;

pub const D_DISCONNECT: u64 = 16;

pub const D_RELEASE: u64 = 17;

pub const REPORT_SENT: u64 = 18;

pub const REPORT_FAILED: u64 = 19;

pub const BREAK: u64 = 20;

pub const RESUME: u64 = 21;

pub const EXPIRY: u64 = 22;

pub const EXPIRY_308: u64 = 23;

pub const EXPIRY_311: u64 = 24;
