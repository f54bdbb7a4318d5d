// The rows: what each event does in each situation. A row sends its messages and gives the next record; a situation without a row for the event refuses it.
ghost use Rattle.std.specs.Prelude.{◌≡◌, List, ℕ, Result};
ghost use Rattle.direct.specs.Rows.{acceptable, idle, reporting, waiting, row_for};
ghost use Rattle.direct.specs.Step.{sent, carried, as_outcome};

use crate::call::{Call, State};
use crate::events::Event;
use crate::messages::Message;
use crate::step::{Refusal, Stepped};
use records::record::Record;

// Messages, one after the other, and the next record; nothing where they do not fit. Written out at each row, whose messages are then known: a step takes
// seven tenths of the time.
#[inline(always)]
fn send(messages: &[Message], call: Call, buffer: &mut [u8]) -> Result<Stepped, Refusal>
    ensures { ◌≡◌ {A = Result Stepped Refusal × List ℕ} (result, buffer.new) (sent messages.now call buffer.old) }
{
    let mut room = buffer.len();
    for message in messages {
        let size = message.size();
        if room < size {
            return Err(Refusal::NoRoom);
        }
        room -= size;
    }
    let mut count = 0;
    for message in messages {
        count = message.lay(buffer, count);
    }
    Ok(Stepped { count, call })
}

// The offers that the user takes: from lowest to target.
#[tactic(auto, unfolding(crate::specs::Rows::acceptable))]
fn acceptable(call: Call, grade: u8) -> bool
    ensures { result ≡ acceptable call grade }
{
    call.lowest <= grade && grade <= call.target
}

// IDLE.
#[tactic(auto, unfolding(crate::specs::Step::carried))]
fn idle(call: Call, event: Event, buffer: &mut [u8]) -> Result<Stepped, Refusal>
    ensures { as_outcome call result buffer.new ≡ carried call (idle call event) buffer.old }
{
    match event {
        // The user asks for a call: the first DM-SETUP PRES.
        Event::SetupRequest {
            target,
            lowest,
            attempts,
        } => send(
            &[Message::DmSetupPres { target, lowest }],
            Call {
                state: State::PresenceCheck,
                target,
                lowest,
                limit: attempts,
                used: 1,
                ..call
            },
            buffer,
        ),
        _ => Err(Refusal::NoRow),
    }
}

// PRESENCE CHECK, DT303 stopped.
#[tactic(auto, unfolding(crate::specs::Step::carried))]
fn reporting(call: Call, event: Event, buffer: &mut [u8]) -> Result<Stepped, Refusal>
    ensures { as_outcome call result buffer.new ≡ carried call (reporting call event) buffer.old }
{
    match event {
        // DM-SETUP PRES is sent: an answer is waited for.
        Event::DmaReport { fared: 0 } => send(
            &[Message::Start { timer: 303 }],
            Call {
                dt303: true,
                ..call
            },
            buffer,
        ),
        // It could not be sent: the user is told.
        Event::DmaReport { fared: _ } => send(&[Message::ReleaseIndication], Call::fresh(), buffer),
        _ => Err(Refusal::NoRow),
    }
}

// PRESENCE CHECK, DT303 running.
#[tactic(auto, unfolding(crate::specs::Step::carried))]
fn waiting(call: Call, event: Event, buffer: &mut [u8]) -> Result<Stepped, Refusal>
    ensures { as_outcome call result buffer.new ≡ carried call (waiting call event) buffer.old }
{
    let stop = Message::Stop { timer: 303 };
    match event {
        // The called set accepts at a grade that is acceptable.
        Event::DmConnect { grade } if acceptable(call, grade) => send(
            &[
                stop,
                Message::DmConnectAck { grade },
                Message::Start { timer: 311 },
                Message::Configure { grade },
                Message::SetupConfirm { grade },
            ],
            Call {
                state: State::Active,
                dt303: false, // stopped
                dt311: true,
                ..call
            },
            buffer,
        ),
        // It rejects, or offers what is not acceptable.
        Event::DmConnect { grade: _ } | Event::DmDisconnect => send(
            &[stop, Message::DmRelease, Message::ReleaseIndication],
            Call::fresh(),
            buffer,
        ),
        // No answer came, and attempts remain: the next DM-SETUP PRES.
        Event::Expiry { timer: 303 } if call.used < call.limit => send(
            &[
                Message::DmRelease,
                Message::DmSetupPres {
                    target: call.target,
                    lowest: call.lowest,
                },
            ],
            Call {
                used: call.used + 1,
                dt303: false, // expired
                ..call
            },
            buffer,
        ),
        // No answer came, and no attempt remains.
        Event::Expiry { timer: 303 } => send(
            &[Message::DmRelease, Message::ReleaseIndication],
            Call::fresh(),
            buffer,
        ),
        _ => Err(Refusal::NoRow),
    }
}

// The row of an event, by the situation of the call.
#[tactic(auto, unfolding(crate::specs::Rows::row_for, crate::specs::Step::carried))]
pub fn row_for(call: Call, event: Event, buffer: &mut [u8]) -> Result<Stepped, Refusal>
    ensures { as_outcome call result buffer.new ≡ carried call (row_for call event) buffer.old }
{
    match call.state {
        State::Idle => idle(call, event, buffer),
        State::PresenceCheck => {
            if call.dt303 {
                waiting(call, event, buffer)
            } else {
                reporting(call, event, buffer)
            }
        }
        State::Active => Err(Refusal::NoRow), // occupation is beyond the setup of a call
    }
}
