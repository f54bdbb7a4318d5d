// What goes out: to the network, the timers, the lower layers and the user, read from bytes and written into a lent buffer.
ghost use Rattle.std.specs.Prelude.{◌≡◌, List, ◌++◌, ℕ};
ghost use Rattle.records.specs.Tables.{as_read, read_among, read_as, read, fine, write};
ghost use Rattle.records.specs.Messages.{messages, message_kinds, host_kinds, to_user_kinds, start_agrees, message_bytes, message_size};
ghost use Rattle.records.specs.Records.{read_by_kind, message_writes, message_short};

use crate::bodies::Unreadable;
use crate::fields::{byte_in, long_in, size_is, size_with_slots, slots_in, word_in};
use crate::letters::{Byte, Long, Word, byte_fits, long_fits, slots_fit, word_fits};
use crate::message_lines::{
    lay_alert, lay_cancel, lay_channel_answer, lay_complete, lay_configure, lay_modify_indication,
    lay_place, lay_proceed, lay_release_confirm, lay_release_indication, lay_setup_confirm,
    lay_setup_indication, lay_start, lay_stop, lay_tx_indication, lay_u_call_restore,
    lay_u_connect, lay_u_disconnect, lay_u_info, lay_u_release, lay_u_setup, lay_u_tx_ceased,
    lay_u_tx_demand,
};
use crate::record::Record;

#[derive(Clone, Copy)]
pub enum Message {
    // 0501 U-SETUP. Asks the network for a call.
    USetup {
        address: u32,
        mode: u8,
        ask: u8,
        // 0 where the body carries none
        slots: u8,
    },
    // 0502 U-CONNECT. Takes a call.
    UConnect {
        id: u16,
    },
    // 0503 U-DISCONNECT. Ends a call; identifier 0 is the dummy.
    UDisconnect {
        id: u16,
        cause: u8,
    },
    // 0504 U-RELEASE. Answers D-DISCONNECT.
    URelease {
        id: u16,
    },
    // 0505 U-INFO. Asks for the other mode.
    UInfo {
        id: u16,
        mode: u8,
    },
    // 0506 U-TX DEMAND. Asks for permission to transmit.
    UTxDemand {
        id: u16,
    },
    // 0507 U-TX CEASED. Ends a transmission or a demand.
    UTxCeased {
        id: u16,
    },
    // 0508 U-CALL RESTORE. Asks for the call that was cut to go on.
    UCallRestore {
        id: u16,
        address: u32,
        ask: u8,
    },
    // 0601 STOP. The host stops a timer.
    Stop {
        timer: u16,
    },
    // 0602 START. The host starts a timer; the code is T310's, and 0 for every other timer.
    Start {
        timer: u16,
        code: u8,
    },
    // 0603 CONFIGURE. The lower layers switch the U-plane.
    Configure {
        plane: u8,
    },
    // 0604 CANCEL. The lower layers drop the PDU that is not yet sent.
    Cancel,
    // 0701 SETUP indication. Another party calls.
    SetupIndication {
        id: u16,
        address: u32,
        mode: u8,
    },
    // 0702 SETUP confirm. The call that was asked for is there.
    SetupConfirm {
        id: u16,
        grant: u8,
    },
    // 0703 PROCEED. The network works on the call.
    Proceed,
    // 0704 ALERT. The other party is called.
    Alert,
    // 0705 COMPLETE. The call that was taken is there.
    Complete {
        grant: u8,
    },
    // 0706 RELEASE indication. The call has ended, or could not be kept.
    ReleaseIndication {
        cause: u8,
    },
    // 0707 RELEASE confirm. The call has ended, as asked.
    ReleaseConfirm,
    // 0708 TX indication. What became of the transmission.
    TxIndication {
        told: u8,
    },
    // 0709 MODIFY indication. The mode of the call and its slots.
    ModifyIndication {
        mode: u8,
        slots: u8,
    },
    // 0605 PLACE, of document 02. The messages behind it, up to the next such record, are those of this place of a console.
    Place {
        at: u8,
    },
    // 0606 CHANNEL ANSWER, of document 02. Whether the lower layers follow the channel allocation that a question was about.
    ChannelAnswer {
        number: u16,
        verdict: u8,
    },
}

// The code of a START: T310 has one, every other timer 0.
#[tactic(auto, unfolding(crate::specs::Messages::start_agrees))]
fn start_agrees(timer: u16, code: u8) -> bool
    ensures { result ≡ start_agrees timer code }
{
    timer == 310 || code == 0
}

// Those to the user.
fn read_to_user(kind: u16, s: &[u8]) -> Result<Message, Unreadable>
    ensures { as_read result ≡ read_among messages to_user_kinds kind s.now }
{
    match kind {
        0x0701 => { // SETUP indication i a d
            size_is(s, 11)?;
            let id = word_in(s, 4, Word::I)?;
            let address = long_in(s, 6, Long::A)?;
            let mode = byte_in(s, 10, Byte::D)?;
            Ok(Message::SetupIndication { id, address, mode })
        }
        0x0702 => { // SETUP confirm i g
            size_is(s, 7)?;
            let id = word_in(s, 4, Word::I)?;
            let grant = byte_in(s, 6, Byte::G)?;
            Ok(Message::SetupConfirm { id, grant })
        }
        0x0703 => { // PROCEED
            size_is(s, 4)?;
            Ok(Message::Proceed)
        }
        0x0704 => { // ALERT
            size_is(s, 4)?;
            Ok(Message::Alert)
        }
        0x0705 => { // COMPLETE g
            size_is(s, 5)?;
            let grant = byte_in(s, 4, Byte::G)?;
            Ok(Message::Complete { grant })
        }
        0x0706 => { // RELEASE indication c
            size_is(s, 5)?;
            let cause = byte_in(s, 4, Byte::C)?;
            Ok(Message::ReleaseIndication { cause })
        }
        0x0707 => { // RELEASE confirm
            size_is(s, 4)?;
            Ok(Message::ReleaseConfirm)
        }
        0x0708 => { // TX indication x
            size_is(s, 5)?;
            let told = byte_in(s, 4, Byte::X)?;
            Ok(Message::TxIndication { told })
        }
        0x0709 => { // MODIFY indication d s
            size_is(s, 6)?;
            let mode = byte_in(s, 4, Byte::D)?;
            let slots = byte_in(s, 5, Byte::S)?;
            Ok(Message::ModifyIndication { mode, slots })
        }
        _ => Err(Unreadable::UnknownKind),
    }
}

// Those to the timers, the lower layers and the host, and then the others.
fn read_host(kind: u16, s: &[u8]) -> Result<Message, Unreadable>
    ensures { as_read result ≡ read_among messages (host_kinds ++ to_user_kinds) kind s.now }
{
    match kind {
        0x0601 => { // STOP n
            size_is(s, 6)?;
            let timer = word_in(s, 4, Word::N)?;
            Ok(Message::Stop { timer })
        }
        0x0602 => { // START n o
            size_is(s, 7)?;
            let timer = word_in(s, 4, Word::N)?;
            let code = byte_in(s, 6, Byte::O)?;
            if !start_agrees(timer, code) {
                return Err(Unreadable::BadBody(6));
            }
            Ok(Message::Start { timer, code })
        }
        0x0603 => { // CONFIGURE p
            size_is(s, 5)?;
            let plane = byte_in(s, 4, Byte::P)?;
            Ok(Message::Configure { plane })
        }
        0x0604 => { // CANCEL
            size_is(s, 4)?;
            Ok(Message::Cancel)
        }
        0x0605 => { // PLACE y
            size_is(s, 5)?;
            let at = byte_in(s, 4, Byte::Y)?;
            Ok(Message::Place { at })
        }
        0x0606 => { // CHANNEL ANSWER u v
            size_is(s, 7)?;
            let number = word_in(s, 4, Word::U)?;
            let verdict = byte_in(s, 6, Byte::V)?;
            Ok(Message::ChannelAnswer { number, verdict })
        }
        _ => read_to_user(kind, s),
    }
}

// Those to the network, and where the kind is none of them the others.
fn read_network(kind: u16, s: &[u8]) -> Result<Message, Unreadable>
    ensures { as_read result ≡ read_among messages message_kinds kind s.now }
{
    match kind {
        0x0501 => { // U-SETUP a d q, or with s behind them
            size_with_slots(s, 10)?;
            let address = long_in(s, 4, Long::A1)?;
            let mode = byte_in(s, 8, Byte::D)?;
            let ask = byte_in(s, 9, Byte::Q)?;
            let slots = slots_in(s, 10)?;
            Ok(Message::USetup {
                address,
                mode,
                ask,
                slots,
            })
        }
        0x0502 => { // U-CONNECT i
            size_is(s, 6)?;
            let id = word_in(s, 4, Word::I)?;
            Ok(Message::UConnect { id })
        }
        0x0503 => { // U-DISCONNECT i c
            size_is(s, 7)?;
            let id = word_in(s, 4, Word::I0)?;
            let cause = byte_in(s, 6, Byte::C)?;
            Ok(Message::UDisconnect { id, cause })
        }
        0x0504 => { // U-RELEASE i
            size_is(s, 6)?;
            let id = word_in(s, 4, Word::I0)?;
            Ok(Message::URelease { id })
        }
        0x0505 => { // U-INFO i d
            size_is(s, 7)?;
            let id = word_in(s, 4, Word::I)?;
            let mode = byte_in(s, 6, Byte::D)?;
            Ok(Message::UInfo { id, mode })
        }
        0x0506 => { // U-TX DEMAND i
            size_is(s, 6)?;
            let id = word_in(s, 4, Word::I)?;
            Ok(Message::UTxDemand { id })
        }
        0x0507 => { // U-TX CEASED i
            size_is(s, 6)?;
            let id = word_in(s, 4, Word::I)?;
            Ok(Message::UTxCeased { id })
        }
        0x0508 => { // U-CALL RESTORE i a q
            size_is(s, 11)?;
            let id = word_in(s, 4, Word::I)?;
            let address = long_in(s, 6, Long::A)?;
            let ask = byte_in(s, 10, Byte::Q)?;
            Ok(Message::UCallRestore { id, address, ask })
        }
        _ => read_host(kind, s),
    }
}

// How many bytes a message takes.
#[tactic(auto, unfolding(crate::specs::Messages::message_size, crate::specs::Bodies::flat_size))]
pub fn message_size(m: Message) -> usize
    ensures { result ≡ message_size m }
{
    match m {
        Message::USetup { slots: 0, .. } => 10, // U-SETUP a d q
        Message::USetup { .. } => 11, // or with s behind them
        Message::UConnect { .. } => 6, // U-CONNECT i
        Message::UDisconnect { .. } => 7, // U-DISCONNECT i c
        Message::URelease { .. } => 6, // U-RELEASE i
        Message::UInfo { .. } => 7, // U-INFO i d
        Message::UTxDemand { .. } => 6, // U-TX DEMAND i
        Message::UTxCeased { .. } => 6, // U-TX CEASED i
        Message::UCallRestore { .. } => 11, // U-CALL RESTORE i a q
        Message::Stop { .. } => 6, // STOP n
        Message::Start { .. } => 7, // START n o
        Message::Configure { .. } => 5, // CONFIGURE p
        Message::Cancel => 4, // CANCEL
        Message::SetupIndication { .. } => 11, // SETUP indication i a d
        Message::SetupConfirm { .. } => 7, // SETUP confirm i g
        Message::Proceed => 4, // PROCEED
        Message::Alert => 4, // ALERT
        Message::Complete { .. } => 5, // COMPLETE g
        Message::ReleaseIndication { .. } => 5, // RELEASE indication c
        Message::ReleaseConfirm => 4, // RELEASE confirm
        Message::TxIndication { .. } => 5, // TX indication x
        Message::ModifyIndication { .. } => 6, // MODIFY indication d s
        Message::Place { .. } => 5, // PLACE y
        Message::ChannelAnswer { .. } => 7, // CHANNEL ANSWER u v
    }
}

impl Record for Message {
    ghost read_of = { read messages };

    ghost kind_of = { read_as messages };

    ghost fine_of = { fine messages };

    ghost bytes_of = { message_bytes };

    ghost write_of = { write messages };

    ghost reads = { read_by_kind messages };

    ghost writes = { message_writes };

    ghost is_short = { message_short };

    fn of_kind(kind: u16, s: &[u8]) -> Result<Message, Unreadable> {
        read_network(kind, s)
    }

    #[tactic(auto, using(crate::proofs::Writing::all_fit_lem, crate::proofs::Writing::agreeing, crate::proofs::Writing::none, crate::proofs::Writing::only, crate::proofs::Writing::also))]
    fn fits(self) -> bool {
        match self {
            Message::USetup {
                address,
                mode,
                ask,
                slots,
            } => { // U-SETUP a d q, or with s behind them
                long_fits(Long::A1, address)
                    & (byte_fits(Byte::D, mode) & (byte_fits(Byte::Q, ask) & slots_fit(slots)))
            }
            Message::UConnect { id } => word_fits(Word::I, id), // U-CONNECT i
            Message::UDisconnect { id, cause } => { // U-DISCONNECT i c
                word_fits(Word::I0, id) & byte_fits(Byte::C, cause)
            }
            Message::URelease { id } => word_fits(Word::I0, id), // U-RELEASE i
            Message::UInfo { id, mode } => word_fits(Word::I, id) & byte_fits(Byte::D, mode), // U-INFO i d
            Message::UTxDemand { id } => word_fits(Word::I, id), // U-TX DEMAND i
            Message::UTxCeased { id } => word_fits(Word::I, id), // U-TX CEASED i
            Message::UCallRestore { id, address, ask } => { // U-CALL RESTORE i a q
                word_fits(Word::I, id) & (long_fits(Long::A, address) & byte_fits(Byte::Q, ask))
            }
            Message::Stop { timer } => word_fits(Word::N, timer), // STOP n
            Message::Start { timer, code } => { // START n o
                (word_fits(Word::N, timer) & byte_fits(Byte::O, code)) & start_agrees(timer, code)
            }
            Message::Configure { plane } => byte_fits(Byte::P, plane), // CONFIGURE p
            Message::Cancel => true, // CANCEL
            Message::Place { at } => byte_fits(Byte::Y, at), // PLACE y
            Message::ChannelAnswer { number, verdict } => { // CHANNEL ANSWER u v
                word_fits(Word::U, number) & byte_fits(Byte::V, verdict)
            }
            Message::SetupIndication { id, address, mode } => { // SETUP indication i a d
                word_fits(Word::I, id) & (long_fits(Long::A, address) & byte_fits(Byte::D, mode))
            }
            Message::SetupConfirm { id, grant } => { // SETUP confirm i g
                word_fits(Word::I, id) & byte_fits(Byte::G, grant)
            }
            Message::Proceed => true, // PROCEED
            Message::Alert => true, // ALERT
            Message::Complete { grant } => byte_fits(Byte::G, grant), // COMPLETE g
            Message::ReleaseIndication { cause } => byte_fits(Byte::C, cause), // RELEASE indication c
            Message::ReleaseConfirm => true, // RELEASE confirm
            Message::TxIndication { told } => byte_fits(Byte::X, told), // TX indication x
            Message::ModifyIndication { mode, slots } => { // MODIFY indication d s
                byte_fits(Byte::D, mode) & byte_fits(Byte::S, slots)
            }
        }
    }

    fn lay(self, buffer: &mut [u8], at: usize) -> usize {
        match self {
            Message::USetup {
                address,
                mode,
                ask,
                slots,
            } => lay_u_setup(address, mode, ask, slots, buffer, at),
            Message::UConnect { id } => lay_u_connect(id, buffer, at),
            Message::UDisconnect { id, cause } => lay_u_disconnect(id, cause, buffer, at),
            Message::URelease { id } => lay_u_release(id, buffer, at),
            Message::UInfo { id, mode } => lay_u_info(id, mode, buffer, at),
            Message::UTxDemand { id } => lay_u_tx_demand(id, buffer, at),
            Message::UTxCeased { id } => lay_u_tx_ceased(id, buffer, at),
            Message::UCallRestore { id, address, ask } => lay_u_call_restore(
                id, address, ask, buffer, at,
            ),
            Message::Stop { timer } => lay_stop(timer, buffer, at),
            Message::Start { timer, code } => lay_start(timer, code, buffer, at),
            Message::Configure { plane } => lay_configure(plane, buffer, at),
            Message::Cancel => lay_cancel(buffer, at),
            Message::Place { at: place } => lay_place(place, buffer, at),
            Message::ChannelAnswer { number, verdict } => lay_channel_answer(
                number, verdict, buffer, at,
            ),
            Message::SetupIndication { id, address, mode } => lay_setup_indication(
                id, address, mode, buffer, at,
            ),
            Message::SetupConfirm { id, grant } => lay_setup_confirm(id, grant, buffer, at),
            Message::Proceed => lay_proceed(buffer, at),
            Message::Alert => lay_alert(buffer, at),
            Message::Complete { grant } => lay_complete(grant, buffer, at),
            Message::ReleaseIndication { cause } => lay_release_indication(cause, buffer, at),
            Message::ReleaseConfirm => lay_release_confirm(buffer, at),
            Message::TxIndication { told } => lay_tx_indication(told, buffer, at),
            Message::ModifyIndication { mode, slots } => lay_modify_indication(
                mode, slots, buffer, at,
            ),
        }
    }
}
