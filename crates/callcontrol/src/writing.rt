// What one step writes: the draft's messages in the paper's order, straight from the digits of its row.
ghost use Rattle.std.specs.Prelude.{◌≡◌, cond, not, ◌≤◌, eqb, length};
ghost use Rattle.records.specs.declared.messages.Message.{Message};
ghost use Rattle.callcontrol.specs.Settle.{pdu_by, user_by, as_draft};
ghost use Rattle.callcontrol.specs.Writing.{when, held, by_number, starting, messages_in, bytes_of, Laid, count_of};

use crate::draft::Drafted;
use crate::row::{
    ALERT, CANCEL, COMPLETE, MODIFY_INDICATION, PDU, PROCEED, RELEASE_CONFIRM, RELEASE_INDICATION,
    Row, SETUP_CONFIRM, SETUP_INDICATION, TX_INDICATION, U_CALL_RESTORE, U_CONNECT, U_DISCONNECT,
    U_RELEASE, U_SETUP, U_TX_CEASED, U_TX_DEMAND, USER, part,
};
use crate::settle::has;
use records::message_lines::{
    lay_alert, lay_cancel, lay_complete, lay_configure, lay_modify_indication, lay_proceed,
    lay_release_confirm, lay_release_indication, lay_setup_confirm, lay_setup_indication,
    lay_start, lay_stop, lay_tx_indication, lay_u_call_restore, lay_u_connect, lay_u_disconnect,
    lay_u_release, lay_u_setup, lay_u_tx_ceased, lay_u_tx_demand,
};

// The timers by their numbers, in the order of a record's array.
const TIMERS: [u16; 7] = [301, 302, 303, 306, 308, 310, 311];

// Each answers a position, or how many bytes.

fn size_when(flag: bool, size: usize) -> usize
    ensures value { result ≡ cond flag size 0 }
    ensures upper_bound { result ≤ size }
{
    if flag { size } else { 0 }
}

// The U-PDU.
#[tactic(auto, using(crate::proofs::Laying::size_pdu))]
fn size_pdu(row: Row) -> usize
    ensures value { result ≡ length (bytes_of (held (pdu_by row))) }
    ensures upper_bound { result ≤ 11 }
{
    match part(row.orders, PDU) {
        U_SETUP => 10 + size_when(row.value != 0, 1),
        U_CONNECT => 6,
        U_DISCONNECT => 7,
        U_RELEASE => 6,
        U_TX_DEMAND => 6,
        U_TX_CEASED => 6,
        U_CALL_RESTORE => 11,
        _ => 0,
    }
}

// The user primitive.
#[tactic(auto, using(crate::proofs::Laying::size_user))]
fn size_user(row: Row) -> usize
    ensures value { result ≡ length (bytes_of (held (user_by row))) }
    ensures upper_bound { result ≤ 11 }
{
    match part(row.orders, USER) {
        SETUP_INDICATION => 11,
        SETUP_CONFIRM => 7,
        PROCEED => 4,
        ALERT => 4,
        COMPLETE => 5,
        RELEASE_INDICATION => 5,
        RELEASE_CONFIRM => 4,
        TX_INDICATION => 5,
        MODIFY_INDICATION => 6,
        _ => 0,
    }
}

#[tactic(auto, using(crate::proofs::Laying::lay_none), unfolding(crate::specs::Settle::pdu_by))]
fn lay_pdu(row: Row, buffer: &mut [u8], at: usize) -> usize
    ensures { Laid buffer.old at (held (pdu_by row)) result buffer.new }
{
    let id = row.id;
    let address = row.address;
    let mode = row.mode;
    let ask = row.asked;
    let value = row.value;
    match part(row.orders, PDU) {
        U_SETUP => lay_u_setup(address, mode, ask, value, buffer, at),
        U_CONNECT => lay_u_connect(id, buffer, at),
        U_DISCONNECT => lay_u_disconnect(id, value, buffer, at),
        U_RELEASE => lay_u_release(id, buffer, at),
        U_TX_DEMAND => lay_u_tx_demand(id, buffer, at),
        U_TX_CEASED => lay_u_tx_ceased(id, buffer, at),
        U_CALL_RESTORE => lay_u_call_restore(id, address, ask, buffer, at),
        _ => at,
    }
}

#[tactic(auto, using(crate::proofs::Laying::lay_none), unfolding(crate::specs::Settle::user_by))]
fn lay_user(row: Row, buffer: &mut [u8], at: usize) -> usize
    ensures { Laid buffer.old at (held (user_by row)) result buffer.new }
{
    let id = row.id;
    let address = row.address;
    let mode = row.mode;
    let slots = row.slots;
    let value = row.value;
    match part(row.orders, USER) {
        SETUP_INDICATION => lay_setup_indication(id, address, mode, buffer, at),
        SETUP_CONFIRM => lay_setup_confirm(id, value, buffer, at),
        PROCEED => lay_proceed(buffer, at),
        ALERT => lay_alert(buffer, at),
        COMPLETE => lay_complete(value, buffer, at),
        RELEASE_INDICATION => lay_release_indication(value, buffer, at),
        RELEASE_CONFIRM => lay_release_confirm(buffer, at),
        TX_INDICATION => lay_tx_indication(value, buffer, at),
        MODIFY_INDICATION => lay_modify_indication(mode, slots, buffer, at),
        _ => at,
    }
}

fn lay_stop_if(flag: bool, timer: u16, buffer: &mut [u8], at: usize) -> usize
    ensures { Laid buffer.old at (when flag (Message.Stop timer)) result buffer.new }
{
    if flag {
        return lay_stop(timer, buffer, at);
    }
    at
}

fn lay_start_if(flag: bool, timer: u16, code: u8, buffer: &mut [u8], at: usize) -> usize
    ensures { Laid buffer.old at (when flag (Message.Start timer code)) result buffer.new }
{
    if flag {
        return lay_start(timer, code, buffer, at);
    }
    at
}

fn lay_cancel_if(flag: bool, buffer: &mut [u8], at: usize) -> usize
    ensures { Laid buffer.old at (when flag Message.Cancel) result buffer.new }
{
    if flag {
        return lay_cancel(buffer, at);
    }
    at
}

// CONFIGURE, unless the plane is 0.
fn lay_plane(plane: u8, buffer: &mut [u8], at: usize) -> usize
    ensures { Laid buffer.old at (when (not (eqb plane 0)) (Message.Configure plane)) result buffer.new }
{
    if plane == 0 {
        return at;
    }
    lay_configure(plane, buffer, at)
}

// START carries T310's code; every other timer has 0.
fn code_for(timer: u16, code: u8) -> u8
    ensures { result ≡ cond (eqb timer 310) code 0 }
{
    if timer == 310 { code } else { 0 }
}

// Most rows stop no timer, and most start none. The stops' count is that of their size, so that the compiler counts once.
fn lay_stops(flags: [bool; 7], buffer: &mut [u8], mut at: usize) -> usize
    ensures { Laid buffer.old at (by_number Message.Stop flags) result buffer.new }
{
    if count_of(flags) == 0 {
        return at;
    }
    for k in 0..7 {
        at = lay_stop_if(flags[k], TIMERS[k], buffer, at);
    }
    at
}

fn lay_starts(flags: [bool; 7], code: u8, buffer: &mut [u8], mut at: usize) -> usize
    ensures { Laid buffer.old at (by_number (starting code) flags) result buffer.new }
{
    if !any_of(flags) {
        return at;
    }
    for k in 0..7 {
        let timer = TIMERS[k];
        at = lay_start_if(flags[k], timer, code_for(timer, code), buffer, at);
    }
    at
}

// STOPs by rising number, CANCEL, U-PDU, STARTs by rising number, CONFIGURE, user primitive.
pub fn lay_messages(draft: Drafted, buffer: &mut [u8]) -> usize
    ensures { Laid buffer.old 0 (messages_in (as_draft draft)) result buffer.new }
{
    let stops = draft.stops;
    let starts = draft.starts;
    let row = draft.row;
    let code = draft.call.code;
    let at = lay_stops(stops, buffer, 0);
    let at = lay_cancel_if(has(row.orders, CANCEL), buffer, at);
    let at = lay_pdu(row, buffer, at);
    let at = lay_starts(starts, code, buffer, at);
    let at = lay_plane(draft.configure, buffer, at);
    lay_user(row, buffer, at)
}

// How many of the seven are flagged.
fn count_of(flags: [bool; 7]) -> usize
    ensures value { result ≡ count_of flags }
    ensures upper_bound { result ≤ 7 }
{
    let mut count = 0;
    for k in 0..7 {
        count += size_when(flags[k], 1);
    }
    count
}

// Whether any is: cheaper than their count.
fn any_of(flags: [bool; 7]) -> bool
    ensures { result ≡ not (eqb (count_of flags) 0) }
{
    flags.contains(&true)
}

// How many bytes the messages take: a STOP takes 6, a START 7, CANCEL 4 and CONFIGURE 5.
#[tactic(auto, using(crate::proofs::Laying::size_messages))]
pub fn messages_size(draft: Drafted) -> usize
    ensures { result ≡ length (bytes_of (messages_in (as_draft draft))) }
{
    let stops = draft.stops;
    let starts = draft.starts;
    let row = draft.row;
    6 * count_of(stops)
        + size_when(has(row.orders, CANCEL), 4)
        + size_pdu(row)
        + 7 * count_of(starts)
        + size_when(draft.configure != 0, 5)
        + size_user(row)
}
