// The paper's steps as one table. A row is a number, a sum of names that reads as the paper's sentence: where the call is, the event, what
// must hold beside it, then the next state and the orders (of callcontrol's row.rt, as they are), what is stored and what is told. The
// first row that fits is taken, so a row with a condition stands before the one without. What the event alone says is in no row: which
// timer expired, whether T310 starts anew (r of D-INFO and D-CALL RESTORE), and the slots, which are stored where it brings some.
use crate::flat::{
    BREAK, D_ALERT, D_CALL_PROCEEDING, D_CALL_RESTORE, D_CONNECT, D_CONNECT_ACKNOWLEDGE,
    D_DISCONNECT, D_INFO, D_RELEASE, D_SETUP, D_TX_CEASED, D_TX_CONTINUE, D_TX_GRANTED,
    D_TX_INTERRUPT, D_TX_WAIT, EXPIRY, EXPIRY_308, EXPIRY_311, RELEASE_REQUEST, REPORT_FAILED,
    REPORT_SENT, RESUME, SETUP_REQUEST, SETUP_RESPONSE, TX_REQUEST,
};
use callcontrol::row::{
    ALERT, BROKEN, CALL_ACTIVE, CANCEL, COMPLETE, CONFIRMED, ENDED, KEPT_PLANE, MO_CALL_SETUP,
    MODIFY_INDICATION, MT_CALL_SETUP, OVER, PLANE_1, PLANE_2, PLANE_OFF, PROCEED, RELEASE,
    RELEASE_CONFIRM, RELEASE_INDICATION, RESTORING, SAME_PLANE, SENT, SETUP_CONFIRM,
    SETUP_INDICATION, START_301, START_302, START_303, START_306, START_310, STAY, STOP_301,
    STOP_302, STOP_303, STOP_306, TX_INDICATION, U_CALL_RESTORE, U_CONNECT, U_RELEASE, U_SETUP,
    U_TX_CEASED, U_TX_DEMAND, UP, WAIT,
};

// Where the call is: its state, and in CALL-ACTIVE its path. The number is that of its bit in a row, by which a row is shifted: a division by
// a number that the compiler does not know is slow.
#[derive(Clone, Copy, Debug, PartialEq, Eq)]
pub enum Situation {
    Idle = 48,
    Mo = 49,
    Mt = 50,
    Up = 51,
    Broken = 52,
    Restoring = 53,
    Wait = 54,
    Disconnect = 55,
}

pub const AT_IDLE: u64 = 1 << (Situation::Idle as u64);

pub const AT_MO: u64 = 1 << (Situation::Mo as u64);

pub const AT_MT: u64 = 1 << (Situation::Mt as u64);

pub const AT_UP: u64 = 1 << (Situation::Up as u64);

pub const AT_BROKEN: u64 = 1 << (Situation::Broken as u64);

pub const AT_RESTORING: u64 = 1 << (Situation::Restoring as u64);

pub const AT_WAIT: u64 = 1 << (Situation::Wait as u64);

pub const AT_DISCONNECT: u64 = 1 << (Situation::Disconnect as u64);

// Every state but IDLE and CALL-DISCONNECT, on every path.
pub const AT_CALL: u64 = AT_MO + AT_MT + AT_UP + AT_BROKEN + AT_RESTORING + AT_WAIT;

// The event, by its number. Bits 56 to 60, so there may be as many as KINDS.
pub const KINDS: u64 = 32;

pub const ON: u64 = 0x100000000000000;

pub const ON_SETUP_REQUEST: u64 = SETUP_REQUEST * ON;

pub const ON_SETUP_RESPONSE: u64 = SETUP_RESPONSE * ON;

pub const ON_RELEASE_REQUEST: u64 = RELEASE_REQUEST * ON;

pub const ON_TX_REQUEST: u64 = TX_REQUEST * ON;

pub const ON_D_CALL_PROCEEDING: u64 = D_CALL_PROCEEDING * ON;

pub const ON_D_ALERT: u64 = D_ALERT * ON;

pub const ON_D_CONNECT: u64 = D_CONNECT * ON;

pub const ON_D_CONNECT_ACKNOWLEDGE: u64 = D_CONNECT_ACKNOWLEDGE * ON;

pub const ON_D_SETUP: u64 = D_SETUP * ON;

pub const ON_D_INFO: u64 = D_INFO * ON;

pub const ON_D_TX_GRANTED: u64 = D_TX_GRANTED * ON;

pub const ON_D_TX_CEASED: u64 = D_TX_CEASED * ON;

pub const ON_D_TX_INTERRUPT: u64 = D_TX_INTERRUPT * ON;

pub const ON_D_TX_WAIT: u64 = D_TX_WAIT * ON;

pub const ON_D_TX_CONTINUE: u64 = D_TX_CONTINUE * ON;

pub const ON_D_CALL_RESTORE: u64 = D_CALL_RESTORE * ON;

pub const ON_D_DISCONNECT: u64 = D_DISCONNECT * ON;

pub const ON_D_RELEASE: u64 = D_RELEASE * ON;

pub const ON_REPORT_SENT: u64 = REPORT_SENT * ON;

pub const ON_REPORT_FAILED: u64 = REPORT_FAILED * ON;

pub const ON_BREAK: u64 = BREAK * ON;

pub const ON_RESUME: u64 = RESUME * ON;

pub const ON_EXPIRY: u64 = EXPIRY * ON;

pub const ON_EXPIRY_308: u64 = EXPIRY_308 * ON;

pub const ON_EXPIRY_311: u64 = EXPIRY_311 * ON;

// What must hold beside it, one of eight. Bits 61 to 63; 0 asks nothing, but of an expiry that its timer runs. Names of one number are one
// condition, whose sense the event tells.
pub const IF: u64 = 0x2000000000000000;

pub const IF_UNSENT: u64 = IF;

pub const IF_T301_STOPPED: u64 = 2 * IF;

pub const IF_T301_RUNS: u64 = 2 * IF;

pub const IF_DEMAND: u64 = 3 * IF;

pub const IF_CEASE_IN_PLANE_1: u64 = 4 * IF;

pub const IF_CEASE_ASKED: u64 = 5 * IF;

pub const IF_CHANGES_ASKED: u64 = 6 * IF;

pub const IF_SAME_D: u64 = 7 * IF;

pub const IF_G_3: u64 = 7 * IF;

pub const IF_K_1: u64 = 7 * IF;

// What is stored: the identifier; address and mode. Bits 42 and 43.
pub const STORE_I: u64 = 0x40000000000;

pub const STORE_A_D: u64 = 0x80000000000;

// What asked becomes, by a rule: q or k of the event; 0; by rule G; whether a restored call is to ask; 1 where the set talked; 1. Bits 25 to 27.
pub const GIVEN: u64 = 1;

pub const NOT_ASKED: u64 = 2;

pub const AFTER_G: u64 = 3;

pub const NEEDED: u64 = 4;

pub const IF_TALKING: u64 = 5;

pub const NOW_ASKED: u64 = 6;

pub const ASKED: u64 = 0x2000000;

pub const ASKED_GIVEN: u64 = GIVEN * ASKED;

pub const ASKED_0: u64 = NOT_ASKED * ASKED;

pub const ASKED_BY_G: u64 = AFTER_G * ASKED;

pub const ASKED_NEEDED: u64 = NEEDED * ASKED;

pub const ASKED_IF_TALKING: u64 = IF_TALKING * ASKED;

pub const ASKED_1: u64 = NOW_ASKED * ASKED;

// The plane by rule G, and with off for 1 and 2: two more digits beside row.rt's planes. Bits 12 to 15.
pub const GRANTED: u64 = 7;

pub const GRANTED_OR_OFF: u64 = 8;

pub const BY_G: u64 = GRANTED * PLANE_1;

pub const BY_G_OR_OFF: u64 = GRANTED_OR_OFF * PLANE_1;

// What a message tells: a cause c, how a transmission stands x, the event's g, its slots. Bits 44 to 47.
pub const EVENTS_G: u8 = 9;

pub const EVENTS_SLOTS: u8 = 10;

pub const TOLD: u64 = 0x100000000000;

pub const C_1: u64 = TOLD;

pub const C_2: u64 = 2 * TOLD;

pub const C_3: u64 = 3 * TOLD;

pub const C_4: u64 = 4 * TOLD;

pub const X_4: u64 = 4 * TOLD;

pub const X_5: u64 = 5 * TOLD;

pub const X_6: u64 = 6 * TOLD;

pub const X_7: u64 = 7 * TOLD;

pub const X_8: u64 = 8 * TOLD;

pub const TELL_G: u64 = (EVENTS_G as u64) * TOLD;

pub const TELL_S: u64 = (EVENTS_SLOTS as u64) * TOLD;

// The rows, in the order of the events. Each event has a row, so its first one is not before the place of its own number.
pub static ROWS: [u64; 38] = [
    // User events.
    AT_IDLE
        + ON_SETUP_REQUEST
        + MO_CALL_SETUP
        + STORE_A_D
        + ASKED_GIVEN
        + U_SETUP
        + TELL_S
        + START_303,
    AT_MT + ON_SETUP_RESPONSE + IF_T301_STOPPED + STAY + U_CONNECT + START_301,
    AT_MO + ON_RELEASE_REQUEST + IF_UNSENT + CANCEL + STOP_303 + RELEASE_CONFIRM + OVER,
    AT_CALL + ON_RELEASE_REQUEST + RELEASE + ASKED_0 + C_1,
    AT_UP + ON_TX_REQUEST + IF_DEMAND + STAY + U_TX_DEMAND + ASKED_1,
    AT_UP + ON_TX_REQUEST + IF_CEASE_IN_PLANE_1 + STAY + U_TX_CEASED + PLANE_OFF,
    AT_UP + ON_TX_REQUEST + IF_CEASE_ASKED + STAY + U_TX_CEASED + ASKED_0,
    AT_BROKEN + ON_TX_REQUEST + IF_CHANGES_ASKED + STAY + ASKED_GIVEN,
    // Network events, in the order of a call.
    AT_MO + ON_D_CALL_PROCEEDING + STAY + STORE_I + SENT + STOP_303 + START_302 + PROCEED,
    AT_MO + ON_D_ALERT + STAY + STORE_I + SENT + STOP_303 + START_302 + ALERT,
    AT_MO
        + ON_D_CONNECT
        + CALL_ACTIVE
        + STORE_I
        + STORE_A_D
        + SENT
        + STOP_302
        + STOP_303
        + START_310
        + BY_G_OR_OFF
        + ASKED_BY_G
        + SETUP_CONFIRM
        + TELL_G,
    AT_MT
        + ON_D_CONNECT_ACKNOWLEDGE
        + IF_T301_RUNS
        + CALL_ACTIVE
        + STOP_301
        + START_310
        + BY_G_OR_OFF
        + ASKED_BY_G
        + COMPLETE
        + TELL_G,
    AT_IDLE + ON_D_SETUP + MT_CALL_SETUP + STORE_I + STORE_A_D + SETUP_INDICATION,
    AT_UP + ON_D_INFO + IF_SAME_D + STAY + STORE_A_D + SAME_PLANE + MODIFY_INDICATION,
    AT_UP + ON_D_INFO + STAY + STORE_A_D + PLANE_OFF + MODIFY_INDICATION,
    AT_UP + ON_D_TX_GRANTED + STAY + BY_G + ASKED_BY_G + TX_INDICATION + TELL_G,
    AT_UP + ON_D_TX_CEASED + STAY + PLANE_OFF + TX_INDICATION + X_4,
    AT_UP + ON_D_TX_INTERRUPT + IF_G_3 + STAY + PLANE_2 + TX_INDICATION + X_5,
    AT_UP + ON_D_TX_INTERRUPT + STAY + PLANE_OFF + TX_INDICATION + X_5,
    AT_UP + ON_D_TX_WAIT + WAIT + PLANE_OFF + TX_INDICATION + X_6,
    AT_WAIT + ON_D_TX_CONTINUE + IF_K_1 + CALL_ACTIVE + KEPT_PLANE + TX_INDICATION + X_7,
    AT_WAIT + ON_D_TX_CONTINUE + CALL_ACTIVE + PLANE_OFF + TX_INDICATION + X_8,
    AT_RESTORING
        + ON_D_CALL_RESTORE
        + STAY
        + STOP_306
        + UP
        + BY_G
        + ASKED_BY_G
        + TX_INDICATION
        + TELL_G,
    AT_DISCONNECT + ON_D_DISCONNECT + IF_UNSENT + CANCEL + ENDED + C_3 + U_RELEASE + STORE_I,
    AT_CALL + AT_DISCONNECT + ON_D_DISCONNECT + ENDED + C_3 + U_RELEASE + STORE_I,
    AT_DISCONNECT + ON_D_RELEASE + IF_UNSENT + CANCEL + ENDED + C_3,
    AT_DISCONNECT + ON_D_RELEASE + CONFIRMED,
    AT_CALL + ON_D_RELEASE + ENDED + C_3,
    // Reports, the break of the radio link and its end.
    AT_MO + AT_DISCONNECT + ON_REPORT_SENT + IF_UNSENT + STAY + SENT,
    AT_MO + ON_REPORT_FAILED + IF_UNSENT + STOP_303 + RELEASE_INDICATION + C_4 + OVER,
    AT_DISCONNECT + ON_REPORT_FAILED + IF_UNSENT + CONFIRMED,
    AT_UP + ON_BREAK + STAY + BROKEN + PLANE_OFF + ASKED_IF_TALKING,
    AT_RESTORING + ON_BREAK + STAY + STOP_306 + BROKEN + PLANE_OFF,
    AT_WAIT + ON_BREAK + CALL_ACTIVE + BROKEN + PLANE_OFF + TX_INDICATION + X_8,
    AT_BROKEN + ON_RESUME + STAY + ASKED_NEEDED + RESTORING + U_CALL_RESTORE + START_306,
    // Expiries.
    AT_CALL + ON_EXPIRY + RELEASE + ASKED_0 + C_2 + RELEASE_INDICATION,
    AT_DISCONNECT + ON_EXPIRY_308 + CONFIRMED,
    AT_UP + ON_EXPIRY_311 + STAY + U_TX_CEASED + PLANE_OFF,
];
