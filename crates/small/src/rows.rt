// The row of an event from the table: where the call is and what holds, the first row that fits, and what that row says.
ghost use Rattle.std.specs.Prelude.{find, drop, ◌≡◌, ◌<◌, ◌≤◌, ◌/◌, ◌%◌, ◌^◌, true, cond, not, leb, eqb};
ghost use Rattle.small.specs.Flat.{D_CONNECT_ACKNOWLEDGE, D_INFO, D_TX_INTERRUPT, EXPIRY};
ghost use Rattle.small.specs.Table.{bit, situation_of, facts_of, fits, rows};
ghost use Rattle.small.specs.Line.{plane_by, asked_by, value_by, code_by, expired_by, orders_by, row_by, table_row};

use crate::flat::{D_CONNECT_ACKNOWLEDGE, D_INFO, D_TX_INTERRUPT, EXPIRY, Flat};
use crate::table::{
    AFTER_G, ASKED, EVENTS_G, EVENTS_SLOTS, GIVEN, GRANTED, GRANTED_OR_OFF, IF, IF_TALKING, KINDS,
    NEEDED, NOT_ASKED, NOW_ASKED, ON, ROWS, STORE_A_D, STORE_I, Situation, TOLD,
};
use callcontrol::call::{Call, Path, State, T301};
use callcontrol::row::{EXPIRED_301, PLANE_1, Row, START_310, STOP_301, U_SETUP};
use callcontrol::rows::{
    asked_after, asked_after_cut, asks, code_after, plane_granted, plane_or_off, restarting,
    slots_after,
};

// Where the call is.
fn situation(call: Call) -> Situation
    ensures { 2 ^ bit result ≡ situation_of call }
{
    match call.state {
        State::Idle => Situation::Idle,
        State::MoCallSetup => Situation::Mo,
        State::MtCallSetup => Situation::Mt,
        State::CallActive => match call.path {
            Path::Up => Situation::Up,
            Path::Broken => Situation::Broken,
            Path::Restoring => Situation::Restoring,
        },
        State::Wait => Situation::Wait,
        State::CallDisconnect => Situation::Disconnect,
    }
}

// Whether a row is for this place, event and these facts.
#[tactic(auto, unfolding(crate::specs::Table::fits))]
fn fits(row: u64, situation: Situation, kind: u64, facts: &[bool; 8]) -> bool
    ensures { result ≡ fits (2 ^ bit situation) kind facts.now row }
{
    row / ON % KINDS == kind && (row >> situation as usize) % 2 == 1 && facts[(row / IF) as usize]
}

// The first row that fits; none stands before the place of its event's number.
fn found(rows: &[u64], situation: Situation, kind: u64, facts: &[bool; 8]) -> Option<u64>
    ensures { result ≡ find (fits (2 ^ bit situation) kind facts.now) (drop kind rows.now) }
{
    rows.iter()
        .copied()
        .skip(kind as usize)
        .find(|&row| fits(row, situation, kind, facts))
}

// Facts whose sense the event tells.

// An expiry needs its timer running.
fn runs_or_no_expiry(kind: u64, running: bool) -> bool
    ensures { result ≡ cond (leb EXPIRY kind) running true }
{
    if EXPIRY <= kind { running } else { true }
}

// D-CONNECT ACKNOWLEDGE needs T301 running, SETUP response needs it stopped.
fn t301_suits(kind: u64, running: bool) -> bool
    ensures { result ≡ cond (eqb kind D_CONNECT_ACKNOWLEDGE) running (not running) }
{
    if kind == D_CONNECT_ACKNOWLEDGE {
        running
    } else {
        !running
    }
}

// D-INFO with the held mode, D-TX INTERRUPT with g = 3, D-TX CONTINUE with k = 1.
fn suits(kind: u64, same: bool, other: bool, go: bool) -> bool
    ensures { result ≡ cond (eqb kind D_INFO) same (cond (eqb kind D_TX_INTERRUPT) other go) }
{
    match kind {
        D_INFO => same,
        D_TX_INTERRUPT => other,
        _ => go,
    }
}

// What rows ask for, by its number.
#[tactic(auto, unfolding(crate::specs::Table::facts_of))]
fn facts(call: Call, e: Flat) -> [bool; 8]
    ensures { result ≡ facts_of call e }
{
    let t = call.timers;
    let k = e.timer as usize;
    [
        runs_or_no_expiry(e.kind, t[k]),
        call.sent == 0,
        t301_suits(e.kind, t[T301]),
        (e.ask == 1) & ((call.asked == 0) & matches!(call.plane, 2 | 4)),
        (e.ask != 1) & (call.plane == 1),
        (e.ask != 1) & (call.asked == 1),
        call.asked != e.ask,
        suits(e.kind, e.mode == call.mode, e.value == 3, e.ask == 1),
    ]
}

// What a row says. The call and the event are the two things that a step is of: a struct of both would be made once, and taken apart in each
// function.

// By rule G, the same with off for 1 and 2, or the digit of a plane of row.rt.
#[tactic(auto, unfolding(crate::specs::Line::plane_by))]
fn plane_by(p: u64, grant: u8, mode: u8) -> u64
    requires { p < 16 }
    ensures value { result ≡ plane_by p grant mode }
    ensures upper_bound { result ≤ 0xF000 }
{
    match p {
        GRANTED => plane_granted(grant, mode),
        GRANTED_OR_OFF => plane_or_off(grant, mode),
        _ => p * PLANE_1,
    }
}

#[tactic(auto, unfolding(crate::specs::Line::asked_by))]
fn asked_by(a: u64, call: Call, e: Flat) -> u8
    ensures { result ≡ asked_by a call e }
{
    match a {
        GIVEN => e.ask,
        NOT_ASKED => 0,
        AFTER_G => asked_after(e.value, call.asked),
        NEEDED => asks(call),
        IF_TALKING => asked_after_cut(call),
        NOW_ASKED => 1,
        _ => call.asked,
    }
}

// The event's g, its slots, or the number itself.
#[tactic(auto, unfolding(crate::specs::Line::value_by))]
fn value_by(v: u8, e: Flat) -> u8
    ensures { result ≡ value_by v e }
{
    match v {
        EVENTS_G => e.value,
        EVENTS_SLOTS => e.slots,
        _ => v,
    }
}

// A row that starts T310 stores the event's code; else r and o tell.
#[tactic(auto, unfolding(crate::specs::Line::code_by))]
fn code_by(n: u64, call: Call, e: Flat) -> u8
    ensures { result ≡ code_by n call e }
{
    if_bit(n, START_310, e.code, code_after(e.reset, e.code, call.code))
}

#[tactic(auto, unfolding(crate::specs::Line::expired_by))]
fn expired_by(e: Flat) -> u64
    ensures value { result ≡ expired_by e }
    ensures upper_bound { result ≤ 0x700000000000 }
{
    if EXPIRY <= e.kind {
        (e.timer as u64) * EXPIRED_301 + EXPIRED_301
    } else {
        0
    }
}

// One value where a row has a bit, and else the other.
fn if_bit<T: Copy>(n: u64, bit: u64, one: T, other: T) -> T
    requires { 0 < bit }
    ensures { result ≡ cond (eqb (n / bit % 2) 1) one other }
{
    if n / bit % 2 == 1 { one } else { other }
}

// Of a row from U-PDU on, what is below asked: the messages; of a row from T301's STOP on, what is below what is stored: the timers.
const MESSAGES: u64 = ASKED / U_SETUP;

const TIMERS: u64 = STORE_I / STOP_301;

// The orders of row.rt are taken as they are, but for the digits of plane and asked.
#[tactic(auto, unfolding(crate::specs::Line::orders_by))]
fn orders_by(n: u64, call: Call, e: Flat) -> u64
    ensures { result ≡ orders_by n call e }
{
    expired_by(e)
        + (n % PLANE_1 + n / U_SETUP % MESSAGES * U_SETUP + n / STOP_301 % TIMERS * STOP_301)
        + plane_by(
            n / PLANE_1 % 16,
            e.value,
            if_bit(n, STORE_A_D, e.mode, call.mode),
        )
        + restarting(e.reset)
}

#[tactic(auto, unfolding(crate::specs::Line::row_by))]
fn row_by(n: u64, call: Call, e: Flat) -> Row
    ensures { result ≡ row_by n call e }
{
    Row {
        orders: orders_by(n, call, e),
        id: if_bit(n, STORE_I, e.id, call.id),
        address: if_bit(n, STORE_A_D, e.address, call.address),
        mode: if_bit(n, STORE_A_D, e.mode, call.mode),
        asked: asked_by(n / ASKED % 8, call, e),
        code: code_by(n, call, e),
        slots: slots_after(e.slots, call.slots),
        value: value_by((n / TOLD % 16) as u8, e),
    }
}

// The row of an event, if there is one.
pub fn table_row(call: Call, e: Flat) -> Option<Row>
    ensures { result ≡ table_row call e }
{
    let known = facts(call, e);
    let n = found(&ROWS, situation(call), e.kind, &known)?;
    Some(row_by(n, call, e))
}
