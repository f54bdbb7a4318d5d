// The steps: for each situation, what each event does. A row is a sum of orders, and what has no row is refused. Beside a row stands its
// clause of EN 300 392-2, or H for a house choice.
ghost use Rattle.std.specs.Prelude.{◌≡◌, cond, ◌+◌, ◌≤◌, Some, None};
ghost use Rattle.callcontrol.specs.Call.{transmits};
ghost use Rattle.callcontrol.specs.Rows.{releasing, released, disconnected, expiry, idle, mo_call_setup, mt_call_setup, demands, ceases, informed, cut, active_expiry, active_up, asks, active_broken, active_restoring, wait, call_disconnect, active, in_state, row_for};
ghost use Rattle.callcontrol.specs.Settle.{draft_of, settled, row_asking, RELEASE, RELEASE_INDICATION, plane_granted, plane_or_off, asked_after, restarting, code_after, slots_after};

use crate::call::{Call, Path, State, T301, T302, T303, T306, T308, T310, T311};
use crate::row::{
    ALERT, BROKEN, CALL_ACTIVE, CANCEL, COMPLETE, CONFIRMED, ENDED, EXPIRED_301, EXPIRED_302,
    EXPIRED_303, EXPIRED_306, EXPIRED_308, EXPIRED_310, EXPIRED_311, KEPT_PLANE, MO_CALL_SETUP,
    MODIFY_INDICATION, MT_CALL_SETUP, OVER, PLANE_1, PLANE_2, PLANE_3, PLANE_OFF, PROCEED, RELEASE,
    RELEASE_CONFIRM, RELEASE_INDICATION, RESTORING, Row, SAME_PLANE, SENT, SETUP_CONFIRM,
    SETUP_INDICATION, START_301, START_302, START_303, START_306, START_310, STAY, STOP_301,
    STOP_302, STOP_303, STOP_306, TX_INDICATION, U_CALL_RESTORE, U_CONNECT, U_RELEASE, U_SETUP,
    U_TX_CEASED, U_TX_DEMAND, UP, WAIT,
};
use records::events::Event;

// What several situations share.

// RELEASE request where the call is known to the network (14.5.1.3.1).
#[tactic(auto, using(crate::proofs::Settled::releasing_is))]
fn releasing(call: Call) -> Row
    ensures { settled call result ≡ releasing call }
{
    Row {
        asked: 0,
        ..Row::of(call, RELEASE, 1)
    }
}

// The network has ended the call (14.5.1.3.3).
#[tactic(auto, using(crate::proofs::Settled::released_is))]
fn released(call: Call) -> Row
    ensures { settled call result ≡ released call }
{
    Row::of(call, ENDED, 3)
}

// The network ends the call and wants U-RELEASE with the received identifier (14.5.1.3.3).
#[tactic(auto, using(crate::proofs::Settled::disconnected_is))]
fn disconnected(id: u16, call: Call) -> Row
    ensures { settled call result ≡ disconnected id call }
{
    Row {
        id, // the received one: the held one may be 0
        ..Row::of(call, ENDED + U_RELEASE, 3)
    }
}

// Expiry of T301, T302, T303, T306 (H) and T310 (14.5.1.3.4), where the timer runs.
fn timed_out(running: bool, expired: u64, call: Call) -> Option<Row>
    requires { expired ≤ 0x700000000000 }
    ensures { result ≡ cond running (Some (row_asking call (expired + RELEASE + RELEASE_INDICATION) 0 2)) None }
{
    if !running {
        return None;
    }
    Some(Row {
        asked: 0,
        ..Row::of(call, expired + RELEASE + RELEASE_INDICATION, 2)
    })
}

#[tactic(auto, using(crate::proofs::Settled::timed, crate::proofs::Settled::timed_out_301_is, crate::proofs::Settled::timed_out_302_is, crate::proofs::Settled::timed_out_303_is, crate::proofs::Settled::timed_out_306_is, crate::proofs::Settled::timed_out_310_is), unfolding(crate::specs::Rows::expiry, crate::specs::Rows::timed_out))]
// Inlined, since each situation would else copy its row through the stack: 114 bytes more of it.
#[inline(always)]
fn expiry(timer: u16, call: Call) -> Option<Row>
    ensures { draft_of call result ≡ expiry timer call }
{
    let timers = call.timers;
    match timer {
        301 => timed_out(timers[T301], EXPIRED_301, call),
        302 => timed_out(timers[T302], EXPIRED_302, call),
        303 => timed_out(timers[T303], EXPIRED_303, call),
        306 => timed_out(timers[T306], EXPIRED_306, call),
        310 => timed_out(timers[T310], EXPIRED_310, call),
        _ => None,
    }
}

// Grant rule G: 0 gives plane 1, or 3 in duplex; 3 gives 2; 1 and 2 give no CONFIGURE.
#[tactic(auto, unfolding(crate::specs::Settle::plane_granted))]
pub fn plane_granted(grant: u8, mode: u8) -> u64
    ensures value { result ≡ plane_granted grant mode }
    ensures upper_bound { result ≤ 0x3000 }
{
    if grant == 0 {
        if mode == 1 {
            return PLANE_3;
        }
        return PLANE_1;
    }
    if grant == 3 {
        return PLANE_2;
    }
    0
}

// G, with off for 1 and 2.
#[tactic(auto, unfolding(crate::specs::Settle::plane_or_off))]
pub fn plane_or_off(grant: u8, mode: u8) -> u64
    ensures value { result ≡ plane_or_off grant mode }
    ensures upper_bound { result ≤ 0x4000 }
{
    if grant == 1 {
        return PLANE_OFF;
    }
    if grant == 2 {
        return PLANE_OFF;
    }
    plane_granted(grant, mode)
}

// 0 and 1 clear asked; 2 and 3 keep it.
#[tactic(auto, unfolding(crate::specs::Settle::asked_after))]
pub fn asked_after(grant: u8, asked: u8) -> u8
    ensures { result ≡ asked_after grant asked }
{
    if grant <= 1 {
        return 0;
    }
    asked
}

// If reset is 1, T310 starts.
#[tactic(auto, unfolding(crate::specs::Settle::restarting))]
pub fn restarting(reset: u8) -> u64
    ensures value { result ≡ restarting reset }
    ensures upper_bound { result ≤ 0x20000000000 }
{
    if reset == 1 {
        return START_310;
    }
    0
}

// T310's code then: the received one, or the held one if it is 16 or T310 is left alone.
#[tactic(auto, unfolding(crate::specs::Settle::code_after))]
pub fn code_after(reset: u8, code: u8, held: u8) -> u8
    ensures { result ≡ code_after reset code held }
{
    if reset == 1 {
        if code == 16 {
            return held;
        }
        return code;
    }
    held
}

// The slots then: the carried ones, or the held ones where the body has none.
#[tactic(auto, unfolding(crate::specs::Settle::slots_after))]
pub fn slots_after(slots: u8, held: u8) -> u8
    ensures { result ≡ slots_after slots held }
{
    if slots == 0 {
        return held;
    }
    slots
}

#[tactic(auto, using(crate::proofs::Settled::setup_request_is, crate::proofs::Settled::d_setup_is), unfolding(crate::specs::Rows::idle))]
fn idle(call: Call, event: Event) -> Option<Row>
    ensures { draft_of call result ≡ idle call event }
{
    match event {
        // 14.5.1.1.2
        Event::SetupRequest {
            address,
            mode,
            ask,
            slots,
        } => Some(Row {
            address,
            mode,
            asked: ask,
            slots: slots_after(slots, call.slots),
            ..Row::of(call, MO_CALL_SETUP + U_SETUP + START_303, slots)
        }),
        // 14.5.1.1.1
        Event::DSetup { id, address, mode } => Some(Row {
            id,
            address,
            mode,
            ..Row::of(call, MT_CALL_SETUP + SETUP_INDICATION, 0)
        }),
        _ => None,
    }
}

#[tactic(auto, using(crate::proofs::Settled::alert_is, crate::proofs::Settled::cancelled_is, crate::proofs::Settled::connected_is, crate::proofs::Settled::failed_is, crate::proofs::Settled::proceeding_is, crate::proofs::Settled::reported_is), unfolding(crate::specs::Rows::mo_call_setup))]
fn mo_call_setup(call: Call, event: Event) -> Option<Row>
    ensures { draft_of call result ≡ mo_call_setup call event }
{
    match event {
        // 14.5.1.3.1
        Event::ReleaseRequest => {
            if call.sent == 0 {
                return Some(Row::of(call, CANCEL + STOP_303 + RELEASE_CONFIRM + OVER, 0));
            }
            Some(releasing(call))
        }
        // 14.5.1.1.2: an identifier came, so no local cancel from here on.
        Event::DCallProceeding { id } => Some(Row {
            id,
            ..Row::of(call, STAY + SENT + STOP_303 + START_302 + PROCEED, 0)
        }),
        // 14.5.1.1.2
        Event::DAlert { id } => Some(Row {
            id,
            ..Row::of(call, STAY + SENT + STOP_303 + START_302 + ALERT, 0)
        }),
        // 14.5.1.1.2
        Event::DConnect {
            id,
            grant,
            mode,
            code,
            slots,
        } => {
            let orders = CALL_ACTIVE + SENT + STOP_302 + STOP_303 + START_310 + SETUP_CONFIRM;
            Some(Row {
                id,
                mode,
                asked: asked_after(grant, call.asked),
                code,
                slots: slots_after(slots, call.slots),
                ..Row::of(call, orders + plane_or_off(grant, mode), grant)
            })
        }
        Event::DDisconnect { id } => Some(disconnected(id, call)),
        Event::DRelease { id: _ } => Some(released(call)),
        // 14.5.1.1.2
        Event::ReportSent => {
            if call.sent == 0 {
                return Some(Row::of(call, STAY + SENT, 0));
            }
            None
        }
        // H
        Event::ReportFailed => {
            if call.sent == 0 {
                return Some(Row::of(call, STOP_303 + RELEASE_INDICATION + OVER, 4));
            }
            None
        }
        Event::Expiry { timer } => expiry(timer, call),
        _ => None,
    }
}

#[tactic(auto, using(crate::proofs::Settled::responded_is, crate::proofs::Settled::acknowledged_is), unfolding(crate::specs::Rows::mt_call_setup))]
fn mt_call_setup(call: Call, event: Event) -> Option<Row>
    ensures { draft_of call result ≡ mt_call_setup call event }
{
    let timers = call.timers;
    match event {
        // 14.5.1.1.1
        Event::SetupResponse => {
            if timers[T301] {
                return None;
            }
            Some(Row::of(call, STAY + U_CONNECT + START_301, 0))
        }
        Event::ReleaseRequest => Some(releasing(call)),
        // 14.5.1.1.1
        Event::DConnectAcknowledge { id: _, grant, code } => {
            if timers[T301] {
                let orders = CALL_ACTIVE + STOP_301 + START_310 + COMPLETE;
                return Some(Row {
                    asked: asked_after(grant, call.asked),
                    code,
                    ..Row::of(call, orders + plane_or_off(grant, call.mode), grant)
                });
            }
            None
        }
        Event::DDisconnect { id } => Some(disconnected(id, call)),
        Event::DRelease { id: _ } => Some(released(call)),
        Event::Expiry { timer } => expiry(timer, call),
        _ => None,
    }
}

// The user wants to transmit, with path up (14.5.1.2.1).
#[tactic(auto, using(crate::proofs::Settled::demanded_is), unfolding(crate::specs::Rows::demands))]
fn demands(call: Call) -> Option<Row>
    ensures { draft_of call result ≡ demands call }
{
    if call.asked != 0 {
        return None;
    }
    if call.plane == 2 {
        return Some(Row {
            asked: 1,
            ..Row::of(call, STAY + U_TX_DEMAND, 0)
        });
    }
    if call.plane == 4 {
        return Some(Row {
            asked: 1,
            ..Row::of(call, STAY + U_TX_DEMAND, 0)
        });
    }
    None
}

// The user stops, with path up (14.5.1.2.1).
#[tactic(auto, using(crate::proofs::Settled::ceased_is, crate::proofs::Settled::withdrawn_is), unfolding(crate::specs::Rows::ceases))]
fn ceases(call: Call) -> Option<Row>
    ensures { draft_of call result ≡ ceases call }
{
    if call.plane == 1 {
        return Some(Row::of(call, STAY + U_TX_CEASED + PLANE_OFF, 0));
    }
    if call.asked == 1 {
        return Some(Row {
            asked: 0,
            ..Row::of(call, STAY + U_TX_CEASED, 0)
        });
    }
    None
}

// D-INFO with path up (14.5.1.2.3).
#[tactic(auto, using(crate::proofs::Settled::informed_same_is, crate::proofs::Settled::informed_other_is))]
fn informed(call: Call, reset: u8, code: u8, mode: u8, slots: u8) -> Row
    ensures { settled call result ≡ informed reset code mode slots call }
{
    let orders = if mode == call.mode {
        SAME_PLANE
    } else {
        PLANE_OFF
    };
    Row {
        mode,
        code: code_after(reset, code, call.code),
        slots: slots_after(slots, call.slots),
        ..Row::of(
            call,
            STAY + orders + MODIFY_INDICATION + restarting(reset),
            0,
        )
    }
}

// BREAK with path up: a permission that is cut is asked for again (H).
pub fn asked_after_cut(call: Call) -> u8
    ensures { result ≡ cond (transmits call.plane) 1 call.asked }
{
    if call.transmits() {
        return 1;
    }
    call.asked
}

// BREAK with path up (14.5.1.2.4).
#[tactic(auto, using(crate::proofs::Settled::cut_is))]
fn cut(call: Call) -> Row
    ensures { settled call result ≡ cut call }
{
    Row {
        asked: asked_after_cut(call),
        ..Row::of(call, STAY + BROKEN + PLANE_OFF, 0)
    }
}

// Expiry with path up: T311 ends the transmission (14.5.1.2.1).
#[tactic(auto, using(crate::proofs::Settled::spoken_out_is), unfolding(crate::specs::Rows::active_expiry))]
fn active_expiry(timer: u16, call: Call) -> Option<Row>
    ensures { draft_of call result ≡ active_expiry timer call }
{
    let timers = call.timers;
    if timer == 311 {
        if timers[T311] {
            return Some(Row::of(call, EXPIRED_311 + STAY + U_TX_CEASED + PLANE_OFF, 0));
        }
        return None;
    }
    expiry(timer, call)
}

#[tactic(auto, using(crate::proofs::Settled::granted_is, crate::proofs::Settled::interrupted_for_is, crate::proofs::Settled::interrupted_is, crate::proofs::Settled::paused_is, crate::proofs::Settled::tx_ceased_is), unfolding(crate::specs::Rows::active_up))]
fn active_up(call: Call, event: Event) -> Option<Row>
    ensures { draft_of call result ≡ active_up call event }
{
    match event {
        Event::ReleaseRequest => Some(releasing(call)),
        Event::TxRequest { go } => {
            if go == 1 {
                return demands(call);
            }
            ceases(call)
        }
        // 14.5.1.2.3
        Event::DInfo {
            id: _,
            reset,
            code,
            mode,
            slots,
        } => Some(informed(call, reset, code, mode, slots)),
        // 14.5.1.2.1
        Event::DTxGranted { id: _, grant } => Some(Row {
            asked: asked_after(grant, call.asked),
            ..Row::of(
                call,
                STAY + TX_INDICATION + plane_granted(grant, call.mode),
                grant,
            )
        }),
        // 14.5.1.2.1
        Event::DTxCeased { id: _ } => Some(Row::of(call, STAY + PLANE_OFF + TX_INDICATION, 4)),
        // 14.5.1.2.1
        Event::DTxInterrupt { id: _, grant } => {
            if grant == 3 {
                return Some(Row::of(call, STAY + PLANE_2 + TX_INDICATION, 5));
            }
            Some(Row::of(call, STAY + PLANE_OFF + TX_INDICATION, 5))
        }
        // 14.5.1.2.1
        Event::DTxWait { id: _ } => Some(Row::of(call, WAIT + PLANE_OFF + TX_INDICATION, 6)),
        Event::DDisconnect { id } => Some(disconnected(id, call)),
        Event::DRelease { id: _ } => Some(released(call)),
        Event::Break => Some(cut(call)),
        Event::Expiry { timer } => active_expiry(timer, call),
        _ => None,
    }
}

// What a restoration asks for: 1 if asked or duplex.
#[tactic(auto, unfolding(crate::specs::Rows::asks))]
pub fn asks(call: Call) -> u8
    ensures { result ≡ asks call }
{
    if call.asked == 1 {
        return 1;
    }
    if call.mode == 1 {
        return 1;
    }
    0
}

#[tactic(auto, using(crate::proofs::Settled::reasked_is, crate::proofs::Settled::resumed_is), unfolding(crate::specs::Rows::active_broken))]
fn active_broken(call: Call, event: Event) -> Option<Row>
    ensures { draft_of call result ≡ active_broken call event }
{
    match event {
        Event::ReleaseRequest => Some(releasing(call)),
        // 14.5.1.2.4
        Event::TxRequest { go } => {
            if call.asked == go {
                return None;
            }
            Some(Row {
                asked: go,
                ..Row::of(call, STAY, 0)
            })
        }
        Event::DDisconnect { id } => Some(disconnected(id, call)),
        Event::DRelease { id: _ } => Some(released(call)),
        // 14.5.1.2.4
        Event::Resume => Some(Row {
            asked: asks(call),
            ..Row::of(call, STAY + RESTORING + U_CALL_RESTORE + START_306, 0)
        }),
        Event::Expiry { timer } => expiry(timer, call),
        _ => None,
    }
}

#[tactic(auto, using(crate::proofs::Settled::restored_is, crate::proofs::Settled::broken_again_is), unfolding(crate::specs::Rows::active_restoring))]
fn active_restoring(call: Call, event: Event) -> Option<Row>
    ensures { draft_of call result ≡ active_restoring call event }
{
    match event {
        Event::ReleaseRequest => Some(releasing(call)),
        // 14.5.1.2.4
        Event::DCallRestore {
            id: _,
            grant,
            reset,
            code,
        } => {
            let plane = plane_granted(grant, call.mode);
            let timer = restarting(reset); // r 0 leaves T310 as it is
            Some(Row {
                // The call that was cut keeps its mode and its slots.
                asked: asked_after(grant, call.asked),
                code: code_after(reset, code, call.code),
                ..Row::of(
                    call,
                    STAY + STOP_306 + UP + TX_INDICATION + plane + timer,
                    grant,
                )
            })
        }
        Event::DDisconnect { id } => Some(disconnected(id, call)),
        Event::DRelease { id: _ } => Some(released(call)),
        // 14.5.1.2.4
        Event::Break => Some(Row::of(call, STAY + STOP_306 + BROKEN + PLANE_OFF, 0)),
        Event::Expiry { timer } => expiry(timer, call),
        _ => None,
    }
}

#[tactic(auto, using(crate::proofs::Settled::continued_is, crate::proofs::Settled::continued_off_is, crate::proofs::Settled::pause_cut_is), unfolding(crate::specs::Rows::wait))]
fn wait(call: Call, event: Event) -> Option<Row>
    ensures { draft_of call result ≡ wait call event }
{
    match event {
        Event::ReleaseRequest => Some(releasing(call)),
        // 14.5.1.2.1
        Event::DTxContinue { id: _, go } => {
            if go == 1 {
                return Some(Row::of(call, CALL_ACTIVE + KEPT_PLANE + TX_INDICATION, 7));
            }
            Some(Row::of(call, CALL_ACTIVE + PLANE_OFF + TX_INDICATION, 8))
        }
        Event::DDisconnect { id } => Some(disconnected(id, call)),
        Event::DRelease { id: _ } => Some(released(call)),
        // 14.5.1.2.4: the permission was lost with the pause, so asked stays.
        Event::Break => Some(Row::of(call, CALL_ACTIVE + BROKEN + PLANE_OFF + TX_INDICATION, 8)),
        Event::Expiry { timer } => expiry(timer, call),
        _ => None,
    }
}

#[tactic(auto, using(crate::proofs::Settled::disconnected_unsent_is, crate::proofs::Settled::released_unsent_is, crate::proofs::Settled::confirmed_is, crate::proofs::Settled::confirmed_late_is, crate::proofs::Settled::reported_is), unfolding(crate::specs::Rows::call_disconnect))]
fn call_disconnect(call: Call, event: Event) -> Option<Row>
    ensures { draft_of call result ≡ call_disconnect call event }
{
    match event {
        // 14.5.1.3.5
        Event::DDisconnect { id } => {
            if call.sent == 0 {
                return Some(Row {
                    id,
                    ..Row::of(call, CANCEL + ENDED + U_RELEASE, 3)
                });
            }
            Some(disconnected(id, call))
        }
        // 14.5.1.3.5
        Event::DRelease { id: _ } => {
            if call.sent == 0 {
                return Some(Row::of(call, CANCEL + ENDED, 3));
            }
            Some(Row::of(call, CONFIRMED, 0))
        }
        // 14.5.1.3.1
        Event::ReportSent => {
            if call.sent == 0 {
                return Some(Row::of(call, STAY + SENT, 0));
            }
            None
        }
        // 14.5.1.3.1
        Event::ReportFailed => {
            if call.sent == 0 {
                return Some(Row::of(call, CONFIRMED, 0));
            }
            None
        }
        // 14.5.1.3.4
        Event::Expiry { timer } => {
            let timers = call.timers;
            if timer == 308 {
                if timers[T308] {
                    return Some(Row::of(call, EXPIRED_308 + CONFIRMED, 0));
                }
                return None;
            }
            None
        }
        _ => None,
    }
}

#[tactic(auto, unfolding(crate::specs::Rows::active))]
fn active(path: Path, call: Call, event: Event) -> Option<Row>
    ensures { draft_of call result ≡ active path call event }
{
    match path {
        Path::Up => active_up(call, event),
        Path::Broken => active_broken(call, event),
        Path::Restoring => active_restoring(call, event),
    }
}

#[tactic(auto, unfolding(crate::specs::Rows::in_state))]
fn in_state(state: State, call: Call, event: Event) -> Option<Row>
    ensures { draft_of call result ≡ in_state state call event }
{
    let path = call.path;
    match state {
        State::Idle => idle(call, event),
        State::MoCallSetup => mo_call_setup(call, event),
        State::MtCallSetup => mt_call_setup(call, event),
        State::CallActive => active(path, call, event),
        State::Wait => wait(call, event),
        State::CallDisconnect => call_disconnect(call, event),
    }
}

// What an event does to a call.
#[tactic(auto, unfolding(crate::specs::Rows::row_for))]
pub fn row_for(call: Call, event: Event) -> Option<Row>
    ensures { draft_of call result ≡ row_for call event }
{
    let state = call.state;
    in_state(state, call, event)
}
