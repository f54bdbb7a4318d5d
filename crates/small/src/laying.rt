// A row's messages from one table of messages, laid in a room of our own and copied into the lent buffer.
ghost use Rattle.std.specs.Option.{unwrap_or};
ghost use Rattle.std.specs.Bool.{then_some};
ghost use Rattle.std.specs.Prelude.{ℕ, ◌≡◌, true, false, cond, ◌+◌, ◌-◌, ◌/◌, ◌%◌, ◌≤◌, ◌<◌, eqb, length, get_or, set};
ghost use Rattle.records.specs.Bytes.{bytes};
ghost use Rattle.records.specs.Bodies.{Stored};
ghost use Rattle.callcontrol.specs.Settle.{has, configure_by, settled};
ghost use Rattle.callcontrol.specs.Step.{carried, as_outcome};
ghost use Rattle.small.specs.Flat.{place};
ghost use Rattle.small.specs.Entry.{STOP, width_of, body, spell, spelled, entry_bytes};
ghost use Rattle.small.specs.Places.{timer_at, place_bytes, places_from, number_of, pdu_of, ordered, tells_plane, ran_at, started, stopped, stop_of, runs_of, turned, turns, number_after, number_in, code_of, Alike};

use crate::entry::{FOURTH, KIND, Letters, SECOND, SIZE, THIRD};
use crate::flat::Timer;
use callcontrol::call::{Call, T301, T302, T303, T306, T308, T310, T311};
use callcontrol::row::{
    CANCEL, EXPIRED_301, KEPT_PLANE, OVER, PLANE_1, Row, SAME_PLANE, SETUP_INDICATION, U_SETUP,
};
use callcontrol::settle::next_by;
use callcontrol::step::{Refusal, Stepped};
use std::marker::Model;

// The letters of messages by number, since an entry of the table is a sum of them; 0 is none. A letter's number is also where its value stands
// among the values, so these are not the letters of events, whose numbers are places in a table of ranges. TOLD is what the row tells: c, g, x,
// or the slots of a SETUP request.
const NO_LETTER: u32 = 0;

const I: u32 = 1;

const A: u32 = 2;

const D: u32 = 3;

const Q: u32 = 4;

const TOLD: u32 = 5;

const N: u32 = 6;

const O: u32 = 7;

const P: u32 = 8;

const S: u32 = 9;

// The kinds by number.
const IS_U_SETUP: u32 = 0x501 * KIND;

const IS_U_CONNECT: u32 = 0x502 * KIND;

const IS_U_DISCONNECT: u32 = 0x503 * KIND;

const IS_U_RELEASE: u32 = 0x504 * KIND;

const IS_U_TX_DEMAND: u32 = 0x506 * KIND;

const IS_U_TX_CEASED: u32 = 0x507 * KIND;

const IS_U_CALL_RESTORE: u32 = 0x508 * KIND;

const IS_STOP: u32 = 0x601 * KIND;

const IS_START: u32 = 0x602 * KIND;

const IS_CONFIGURE: u32 = 0x603 * KIND;

const IS_CANCEL: u32 = 0x604 * KIND;

const IS_SETUP_INDICATION: u32 = 0x701 * KIND;

const IS_SETUP_CONFIRM: u32 = 0x702 * KIND;

const IS_PROCEED: u32 = 0x703 * KIND;

const IS_ALERT: u32 = 0x704 * KIND;

const IS_COMPLETE: u32 = 0x705 * KIND;

const IS_RELEASE_INDICATION: u32 = 0x706 * KIND;

const IS_RELEASE_CONFIRM: u32 = 0x707 * KIND;

const IS_TX_INDICATION: u32 = 0x708 * KIND;

const IS_MODIFY_INDICATION: u32 = 0x709 * KIND;

const NO_MESSAGE: u32 = 0;

// The paper's table of messages.
static MESSAGES: [u32; 22] = [
    NO_MESSAGE,
    // The U-PDUs, in the order of a row's digits.
    IS_U_SETUP + 10 * SIZE + A + D * SECOND + Q * THIRD,
    IS_U_CONNECT + 6 * SIZE + I,
    IS_U_DISCONNECT + 7 * SIZE + I + TOLD * SECOND,
    IS_U_RELEASE + 6 * SIZE + I,
    IS_U_TX_DEMAND + 6 * SIZE + I,
    IS_U_TX_CEASED + 6 * SIZE + I,
    IS_U_CALL_RESTORE + 11 * SIZE + I + A * SECOND + Q * THIRD,
    // The user primitives, in the order of a row's digits.
    IS_SETUP_INDICATION + 11 * SIZE + I + A * SECOND + D * THIRD,
    IS_SETUP_CONFIRM + 7 * SIZE + I + TOLD * SECOND,
    IS_PROCEED + 4 * SIZE,
    IS_ALERT + 4 * SIZE,
    IS_COMPLETE + 5 * SIZE + TOLD,
    IS_RELEASE_INDICATION + 5 * SIZE + TOLD,
    IS_RELEASE_CONFIRM + 4 * SIZE,
    IS_TX_INDICATION + 5 * SIZE + TOLD,
    IS_MODIFY_INDICATION + 6 * SIZE + D + S * SECOND,
    // What a row's bits order.
    IS_STOP + 6 * SIZE + N,
    IS_START + 7 * SIZE + N + O * SECOND,
    IS_CONFIGURE + 5 * SIZE + P,
    IS_CANCEL + 4 * SIZE,
    // U-SETUP with slots.
    IS_U_SETUP + 11 * SIZE + A + D * SECOND + Q * THIRD + TOLD * FOURTH,
];

// How many U-PDUs and user primitives there are, and the numbers of the messages behind them.
const U_PDUS: u64 = 7;

const PRIMITIVES: u64 = 9;

const STOP: usize = 17;

const START: usize = 18;

const CONFIGURE: usize = 19;

const CANCELLING: usize = 20;

const SETUP_WITH_SLOTS: usize = 21;

// The places of the order of writing: STOPs by rising number of the timer, CANCEL, U-PDU, STARTs, CONFIGURE, user primitive.
const TIMERS: usize = 7;

const PLACE_OF_CANCEL: usize = TIMERS;

const PLACE_OF_U_PDU: usize = 8;

const FIRST_START: usize = 9;

const START_OF_T310: usize = FIRST_START + T310;

const PLACE_OF_CONFIGURE: usize = FIRST_START + TIMERS;

const PLACES: usize = 18;

// Where the values of letters stand that a place gives: T310's code, which START takes; a timer's number; a START's code.
const T310_CODE: usize = 0;

const TIMER: usize = N as usize;

const CODE: usize = O as usize;

// The bits of a row's orders that stop T301 and start it; those of the other timers follow them.
const STOPS: usize = 28;

const STARTS: usize = 36;

// Digits of a row's orders: no plane, the one that the call has, the one that it kept; and U-SETUP.
const NO_PLANE: u64 = 0;

const PRESENT: u64 = SAME_PLANE / PLANE_1;

const KEPT: u64 = KEPT_PLANE / PLANE_1;

const SETUP: u64 = U_SETUP / U_SETUP;

// The plane on which the set transmits, and T311 runs.
const SENDING: u8 = 1;

// How many bytes a letter takes.
#[tactic(auto, unfolding(crate::specs::Entry::width_of))]
fn width_of(l: u32) -> usize
    ensures value { result ≡ width_of l }
    ensures upper_bound { result ≤ 4 }
{
    match l {
        NO_LETTER => 0,
        I => 2,
        A => 4,
        N => 2,
        _ => 1,
    }
}

// The number of a place's timer, counted from the first STOP or START; 0 at CANCEL and the U-PDU, CONFIGURE and the user primitive, which have
// none. A match: a table of nine numbers, two of them 0, would be no plainer.
#[tactic(auto, unfolding(crate::specs::Places::timer_at))]
fn timer_at(k: usize) -> u32
    ensures { result ≡ timer_at k }
{
    match k {
        T301 => 301,
        T302 => 302,
        T303 => 303,
        T306 => 306,
        T308 => 308,
        T310 => 310,
        T311 => 311,
        _ => 0,
    }
}

// START carries T310's code; every other timer has 0.
fn code_at(k: usize, code: u32) -> u32
    ensures { result ≡ cond (eqb k 14) code 0 }
{
    if k == START_OF_T310 { code } else { 0 }
}

// A room of our own, for what eighteen places take, whatever stands there; and how far it is filled. No invariant: what a method promises
// is where bytes are stored, and what it asks is room for those; both are of the position, and differ from method to method.
#[derive(Drop)]
struct Room {
    bytes: [u8; 360],
    at: usize,
}

impl Room {
    fn new() -> Self
        ensures bytes { 360 ≡ length result.bytes }
        ensures at { result.at ≡ 0 }
    {
        Room {
            bytes: [0; 360],
            at: 0,
        }
    }

    // A number's bytes.
    fn put(&mut self, v: u32, width: usize)
        requires { (self.old.at + width ≤ 360) × (width ≤ 4) }
        ensures { Stored self.old.bytes self.old.at (bytes width v) self.new.at self.new.bytes }
    {
        let at = self.at;
        let end = at + width;
        self.bytes[at..end].copy_from_slice(&v.to_le_bytes()[..width]);
        self.at = end;
    }

    fn lay_body(&mut self, letters: u32, v: &[u32; 10])
        requires { (letters < 0x10000) × (self.old.at ≤ 344) × (spelled (spell 4 letters) ≡ true) }
        ensures { Stored self.old.bytes self.old.at (body (spell 4 letters) v.now) self.new.at self.new.bytes }
    {
        for l in (Letters { left: letters }) {
            self.put(v[l as usize], width_of(l));
        }
    }

    fn lay_entry(&mut self, entry: u32, v: &[u32; 10])
        requires { (self.old.at ≤ 340) × (spelled (spell 4 (entry % 0x10000)) ≡ true) }
        ensures { Stored self.old.bytes self.old.at (entry_bytes entry v.now) self.new.at self.new.bytes }
    {
        self.put(entry / SIZE % 16 + entry / KIND * 0x10000, 4);
        self.lay_body(entry % SIZE, v);
    }

    // The message at a place of the order of writing, by its number, where there is one.
    fn lay_place(&mut self, k: usize, number: Option<Number>, v: &mut [u32; 10])
        requires { self.old.at ≤ 340 }
        ensures stored { Stored self.old.bytes self.old.at (place_bytes k (unwrap_or number 0) v.old) self.new.at self.new.bytes }
        ensures alike { Alike v.new v.old }
        ensures upper_bound { self.new.at ≤ self.old.at + 20 }
    {
        let Some(number) = number else {
            return;
        };
        let code = code_at(k, v[T310_CODE]);
        v[TIMER] = timer_at(k % FIRST_START);
        v[CODE] = code;
        self.lay_entry(MESSAGES[number.n], v);
    }
}

// A message's number in the table; the first entry is none.
#[derive(Clone, Copy)]
struct Number {
    n: usize,
}

impl Model for Number {
    ghost Value = { ℕ };

    ghost view = { λ m. m.n };

    ghost invariant = { λ m. (0 < m.n) × (m.n < 22) };

    ghost inverse = { λ n. record { n = n } };
}

// What a row orders: its sum of orders, T310's code, what is told, and the plane that CONFIGURE tells, 0 for none as callcontrol's next_by
// takes it.
#[derive(Clone, Copy)]
struct Orders {
    sum: u64,
    code: u8,
    value: u8,
    configure: u8,
}

impl Orders {
    // Whether an order of one bit is in the sum.
    #[tactic(auto, unfolding(crate::specs::Places::ordered))]
    fn has(self, bit: usize) -> bool
        requires { bit < 64 }
        ensures { result ≡ ordered self.sum bit }
    {
        (self.sum >> bit) % 2 == 1
    }

    // Whether a plane is told that the call does not have already; T311 goes with it.
    #[tactic(auto, unfolding(crate::specs::Places::tells_plane))]
    fn tells_plane(self) -> bool
        ensures { result ≡ tells_plane self.sum }
    {
        let p = self.sum / PLANE_1 % 16;
        (p != NO_PLANE) & (p != PRESENT)
    }

    // Whether a timer is started: T310 only with a limit, T311 with plane 1.
    #[tactic(auto, unfolding(crate::specs::Places::started, crate::specs::Places::starts_at))]
    fn starts(self, timer: Timer) -> bool
        ensures { result ≡ started self.sum self.code self.configure (place timer) }
    {
        let bit = self.has(STARTS + timer as usize);
        match timer {
            Timer::T311 => self.tells_plane() & (self.configure == SENDING),
            Timer::T310 => bit & (self.code != 0),
            _ => bit,
        }
    }

    // Whether it is stopped, unless it is started.
    #[tactic(auto, unfolding(crate::specs::Places::stopped, crate::specs::Places::stops_at))]
    fn stops(self, timer: Timer) -> bool
        ensures { result ≡ stopped self.sum (place timer) }
    {
        let bit = self.has(STOPS + timer as usize);
        match timer {
            Timer::T311 => bit | self.tells_plane(),
            Timer::T310 => bit | self.has(STARTS + timer as usize),
            _ => bit,
        }
    }

    // Whether it ran until now; an expired timer did not.
    #[tactic(auto, unfolding(crate::specs::Places::ran_at))]
    fn ran(self, timer: Timer, held: bool) -> bool
        ensures { result ≡ ran_at (place timer) self.sum held }
    {
        held & (self.sum / EXPIRED_301 % 16 != (timer as u64) + 1)
    }

    // A timer's turn: its STOP or none, and whether it runs then.
    #[tactic(auto, unfolding(crate::specs::Places::stop_of, crate::specs::Places::runs_of))]
    fn turn(self, timer: Timer, running: &mut [bool; 7]) -> Option<Number>
        ensures stop { result ≡ then_some (stop_of self.sum self.code self.configure (get_or running.old (place timer) false) (place timer)) STOP }
        ensures running_after { running.new ≡ set running.old (place timer) (runs_of self.sum self.code self.configure (get_or running.old (place timer) false) (place timer)) }
    {
        let k = timer as usize;
        let start = self.starts(timer);
        let stop = self.stops(timer);
        let ran = self.ran(timer, running[k]);
        running[k] = start | (ran & !stop);
        (ran & stop & !start).then_some(Number { n: STOP })
    }

    #[tactic(auto, unfolding(callcontrol::specs::Settle::has))]
    fn cancels(self) -> bool
        ensures { result ≡ has self.sum 0x1000000 }
    {
        self.sum / CANCEL % 2 == 1
    }

    // The U-PDU: U-SETUP has an entry of its own where it carries slots.
    #[tactic(auto, unfolding(crate::specs::Places::pdu_of))]
    fn pdu(self) -> Option<Number>
        ensures { unwrap_or result 0 ≡ pdu_of (self.sum / 0x10000 % 16) self.value }
    {
        let digit = self.sum / U_SETUP % 16;
        if (digit == SETUP) & (self.value != 0) {
            return Some(Number {
                n: SETUP_WITH_SLOTS,
            });
        }
        number_of(digit, U_PDUS, 0)
    }

    // What follows the STOPs: CANCEL, U-PDU, STARTs by rising number, CONFIGURE, user primitive.
    #[tactic(auto, unfolding(crate::specs::Places::number_after))]
    fn number_at(self, k: usize) -> Option<Number>
        requires { (6 < k) × (k < 18) }
        ensures { unwrap_or result 0 ≡ number_after (started self.sum self.code self.configure (k - 9)) self.sum self.value self.configure k }
    {
        match k {
            PLACE_OF_CANCEL => self.cancels().then_some(Number { n: CANCELLING }),
            PLACE_OF_U_PDU => self.pdu(),
            FIRST_START..PLACE_OF_CONFIGURE => self
                .starts(Timer::at(k - FIRST_START))
                .then_some(Number { n: START }),
            PLACE_OF_CONFIGURE => (self.configure != 0).then_some(Number { n: CONFIGURE }),
            _ => number_of(self.sum / SETUP_INDICATION % 16, PRIMITIVES, U_PDUS),
        }
    }

    // The message at a place, and the timers then: STOPs by rising number, and what follows them.
    #[tactic(auto, unfolding(crate::specs::Places::number_in, crate::specs::Places::turned))]
    fn number_for(self, k: usize, running: &mut [bool; 7]) -> Option<Number>
        requires { k < 18 }
        ensures value { unwrap_or result 0 ≡ number_in self.sum self.code self.value self.configure running.old k }
        ensures running_after { running.new ≡ turned self.sum self.code self.configure k running.old }
    {
        if k < TIMERS {
            return self.turn(Timer::at(k), running);
        }
        self.number_at(k)
    }

    fn lay_all(self, running: &mut [bool; 7], v: &mut [u32; 10], room: &mut Room)
        requires { room.old.at ≡ 0 }
        ensures stored { Stored room.old.bytes 0 (places_from 18 0 (number_in self.sum self.code self.value self.configure running.old) v.old) room.new.at room.new.bytes }
        ensures upper_bound { room.new.at ≤ 360 }
        ensures running_after { running.new ≡ turns self.sum self.code self.configure 18 0 running.old }
    {
        for k in 0..PLACES {
            room.lay_place(k, self.number_for(k, running), v);
        }
    }
}

// The number of the message that a row's digit orders, among the first so many behind some others.
#[tactic(auto, unfolding(crate::specs::Places::number_of))]
fn number_of(digit: u64, most: u64, before: u64) -> Option<Number>
    requires { (digit < 16) × (most + before < 22) }
    ensures { unwrap_or result 0 ≡ number_of digit most before }
{
    if digit == 0 || most < digit {
        return None;
    }
    Some(Number {
        n: (digit + before) as usize,
    })
}

// The plane that CONFIGURE tells, 0 for none: the present one for 5, the kept one for 6. callcontrol's takes a row's whole orders and promises
// the plane of those; this one takes the digit alone, and its promise is of a digit.
#[tactic(auto, unfolding(callcontrol::specs::Settle::configure_by))]
fn configure_by(digit: u64, call: Call) -> u8
    requires { digit < 16 }
    ensures { result ≡ configure_by digit call }
{
    match digit {
        PRESENT => call.plane,
        KEPT => call.kept,
        _ => digit as u8,
    }
}

// A call that has ended holds no code.
#[tactic(auto, unfolding(crate::specs::Places::code_of))]
fn code_of(n: u64, code: u8) -> u8
    ensures { result ≡ code_of n code }
{
    if n % 16 == OVER { 0 } else { code }
}

// A row carried out: its messages are laid in a room of our own first, and copied only where they fit.
pub fn carry_row(call: Call, row: Row, buffer: &mut [u8]) -> Result<Stepped, Refusal>
    ensures { as_outcome call result buffer.new ≡ carried call (settled call row) buffer.old }
{
    let n = row.orders;
    let configure = configure_by(n / PLANE_1 % 16, call);
    // An array and no struct: a letter of the table says by its number where its value is.
    let mut values: [u32; 10] = [
        code_of(n, row.code) as u32,
        row.id as u32,
        row.address,
        row.mode as u32,
        row.asked as u32,
        row.value as u32,
        0,
        0,
        configure as u32,
        row.slots as u32,
    ];
    let orders = Orders {
        sum: n,
        code: row.code,
        value: row.value,
        configure,
    };
    let mut running = call.timers;
    let mut room = Room::new();
    orders.lay_all(&mut running, &mut values, &mut room);
    let size = room.at;
    if buffer.len() < size {
        return Err(Refusal::NoRoom);
    }
    buffer[..size].copy_from_slice(&room.bytes[..size]);
    Ok(Stepped {
        count: size,
        call: next_by(call, row, configure, running),
    })
}
