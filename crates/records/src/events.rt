// What comes in: from the user, the network, the lower layers and the timers, read from bytes and written into a lent buffer.
ghost use Rattle.std.specs.Prelude.{◌≡◌, List, ◌++◌, ℕ};
ghost use Rattle.records.specs.declared.events.Event.{Event};
ghost use Rattle.records.specs.Tables.{as_read, read_among, read_as, read, fine, write};
ghost use Rattle.records.specs.Events.{events, event_kinds, setup_kinds, call_kinds, lower_kinds, event_bytes, event_laid};
ghost use Rattle.records.specs.Records.{read_by_kind, event_writes, event_short};

use crate::bodies::Unreadable;
use crate::fields::{byte_in, long_in, size_is, size_with_slots, slots_in, word_in};
use crate::letters::{Byte, Long, Word, byte_fits, long_fits, slots_fit, word_fits};
use crate::lines::lay_record;
use crate::record::Record;

#[derive(Clone, Copy)]
pub enum Event {
    // 0101 SETUP request. The user asks for a call to an address.
    SetupRequest {
        address: u32,
        mode: u8,
        ask: u8,
        // 0 where the body carries none
        slots: u8,
    },
    // 0102 SETUP response. The user takes the call that was indicated.
    SetupResponse,
    // 0103 RELEASE request. The user ends the call.
    ReleaseRequest,
    // 0104 TX request. The user wants to transmit (1, demand) or stops (0, cease).
    TxRequest {
        go: u8,
    },
    // 0201 D-CALL PROCEEDING. The network works on the call.
    DCallProceeding {
        id: u16,
    },
    // 0202 D-ALERT. The other party is called.
    DAlert {
        id: u16,
    },
    // 0203 D-CONNECT. The call that was asked for is connected.
    DConnect {
        id: u16,
        grant: u8,
        mode: u8,
        code: u8,
        // 0 where the body carries none
        slots: u8,
    },
    // 0204 D-CONNECT ACKNOWLEDGE. The call that was taken is connected.
    DConnectAcknowledge {
        id: u16,
        grant: u8,
        code: u8,
    },
    // 0205 D-SETUP. Another party calls.
    DSetup {
        id: u16,
        address: u32,
        mode: u8,
    },
    // 0206 D-INFO. The network gives the mode, may give the slots, and may start T310 anew.
    DInfo {
        id: u16,
        reset: u8,
        code: u8,
        mode: u8,
        // 0 where the body carries none
        slots: u8,
    },
    // 0207 D-TX GRANTED. The answer to a demand, or another party transmits.
    DTxGranted {
        id: u16,
        grant: u8,
    },
    // 0208 D-TX CEASED. A transmission has ended.
    DTxCeased {
        id: u16,
    },
    // 0209 D-TX INTERRUPT. Permission is taken away.
    DTxInterrupt {
        id: u16,
        grant: u8,
    },
    // 020A D-TX WAIT. The call pauses.
    DTxWait {
        id: u16,
    },
    // 020B D-TX CONTINUE. The pause ends, with the permission of before (1) or without (0).
    DTxContinue {
        id: u16,
        go: u8,
    },
    // 020C D-CALL RESTORE. The call that was cut goes on.
    DCallRestore {
        id: u16,
        grant: u8,
        reset: u8,
        code: u8,
    },
    // 020D D-DISCONNECT. The network ends the call and wants an answer.
    DDisconnect {
        id: u16,
    },
    // 020E D-RELEASE. The network has ended the call.
    DRelease {
        id: u16,
    },
    // 0301 REPORT sent. The PDU was sent.
    ReportSent,
    // 0302 REPORT failed. The PDU could not be sent.
    ReportFailed,
    // 0303 BREAK. The radio path is lost.
    Break,
    // 0304 RESUME. A radio path is there again.
    Resume,
    // 0401 expiry. A timer ran out.
    Expiry {
        timer: u16,
    },
}

// Those from the lower layers and the timers.
fn read_lower(kind: u16, s: &[u8]) -> Result<Event, Unreadable>
    ensures { as_read result ≡ read_among events lower_kinds kind s.now }
{
    match kind {
        0x0301 => { // REPORT sent
            size_is(s, 4)?;
            Ok(Event::ReportSent)
        }
        0x0302 => { // REPORT failed
            size_is(s, 4)?;
            Ok(Event::ReportFailed)
        }
        0x0303 => { // BREAK
            size_is(s, 4)?;
            Ok(Event::Break)
        }
        0x0304 => { // RESUME
            size_is(s, 4)?;
            Ok(Event::Resume)
        }
        0x0401 => { // expiry n
            size_is(s, 6)?;
            let timer = word_in(s, 4, Word::N)?;
            Ok(Event::Expiry { timer })
        }
        _ => Err(Unreadable::UnknownKind),
    }
}

// Those from the network within a call, and its end, and then the others.
fn read_call(kind: u16, s: &[u8]) -> Result<Event, Unreadable>
    ensures { as_read result ≡ read_among events (call_kinds ++ lower_kinds) kind s.now }
{
    match kind {
        0x0207 => { // D-TX GRANTED i g
            size_is(s, 7)?;
            let id = word_in(s, 4, Word::I)?;
            let grant = byte_in(s, 6, Byte::G)?;
            Ok(Event::DTxGranted { id, grant })
        }
        0x0208 => { // D-TX CEASED i
            size_is(s, 6)?;
            let id = word_in(s, 4, Word::I)?;
            Ok(Event::DTxCeased { id })
        }
        0x0209 => { // D-TX INTERRUPT i g
            size_is(s, 7)?;
            let id = word_in(s, 4, Word::I)?;
            let grant = byte_in(s, 6, Byte::G)?;
            Ok(Event::DTxInterrupt { id, grant })
        }
        0x020A => { // D-TX WAIT i
            size_is(s, 6)?;
            let id = word_in(s, 4, Word::I)?;
            Ok(Event::DTxWait { id })
        }
        0x020B => { // D-TX CONTINUE i k
            size_is(s, 7)?;
            let id = word_in(s, 4, Word::I)?;
            let go = byte_in(s, 6, Byte::K)?;
            Ok(Event::DTxContinue { id, go })
        }
        0x020C => { // D-CALL RESTORE i g r o
            size_is(s, 9)?;
            let id = word_in(s, 4, Word::I)?;
            let grant = byte_in(s, 6, Byte::G)?;
            let reset = byte_in(s, 7, Byte::R)?;
            let code = byte_in(s, 8, Byte::O16)?;
            Ok(Event::DCallRestore {
                id,
                grant,
                reset,
                code,
            })
        }
        0x020D => { // D-DISCONNECT i
            size_is(s, 6)?;
            let id = word_in(s, 4, Word::I0)?;
            Ok(Event::DDisconnect { id })
        }
        0x020E => { // D-RELEASE i
            size_is(s, 6)?;
            let id = word_in(s, 4, Word::I0)?;
            Ok(Event::DRelease { id })
        }
        _ => read_lower(kind, s),
    }
}

// Those from the network that set a call up or change it, and then the others.
fn read_setup(kind: u16, s: &[u8]) -> Result<Event, Unreadable>
    ensures { as_read result ≡ read_among events (setup_kinds ++ call_kinds ++ lower_kinds) kind s.now }
{
    match kind {
        0x0201 => { // D-CALL PROCEEDING i
            size_is(s, 6)?;
            let id = word_in(s, 4, Word::I)?;
            Ok(Event::DCallProceeding { id })
        }
        0x0202 => { // D-ALERT i
            size_is(s, 6)?;
            let id = word_in(s, 4, Word::I)?;
            Ok(Event::DAlert { id })
        }
        0x0203 => { // D-CONNECT i g d o, or with s behind them
            size_with_slots(s, 9)?;
            let id = word_in(s, 4, Word::I)?;
            let grant = byte_in(s, 6, Byte::G)?;
            let mode = byte_in(s, 7, Byte::D)?;
            let code = byte_in(s, 8, Byte::O)?;
            let slots = slots_in(s, 9)?;
            Ok(Event::DConnect {
                id,
                grant,
                mode,
                code,
                slots,
            })
        }
        0x0204 => { // D-CONNECT ACKNOWLEDGE i g o
            size_is(s, 8)?;
            let id = word_in(s, 4, Word::I)?;
            let grant = byte_in(s, 6, Byte::G)?;
            let code = byte_in(s, 7, Byte::O)?;
            Ok(Event::DConnectAcknowledge { id, grant, code })
        }
        0x0205 => { // D-SETUP i a d
            size_is(s, 11)?;
            let id = word_in(s, 4, Word::I)?;
            let address = long_in(s, 6, Long::A)?;
            let mode = byte_in(s, 10, Byte::D)?;
            Ok(Event::DSetup { id, address, mode })
        }
        0x0206 => { // D-INFO i r o d, or with s behind them
            size_with_slots(s, 9)?;
            let id = word_in(s, 4, Word::I)?;
            let reset = byte_in(s, 6, Byte::R)?;
            let code = byte_in(s, 7, Byte::O16)?;
            let mode = byte_in(s, 8, Byte::D)?;
            let slots = slots_in(s, 9)?;
            Ok(Event::DInfo {
                id,
                reset,
                code,
                mode,
                slots,
            })
        }
        _ => read_call(kind, s),
    }
}

// Those from the user, and where the kind is none of them the others.
fn read_user(kind: u16, s: &[u8]) -> Result<Event, Unreadable>
    ensures { as_read result ≡ read_among events event_kinds kind s.now }
{
    match kind {
        0x0101 => { // SETUP request a d q, or with s behind them
            size_with_slots(s, 10)?;
            let address = long_in(s, 4, Long::A1)?;
            let mode = byte_in(s, 8, Byte::D)?;
            let ask = byte_in(s, 9, Byte::Q)?;
            let slots = slots_in(s, 10)?;
            Ok(Event::SetupRequest {
                address,
                mode,
                ask,
                slots,
            })
        }
        0x0102 => { // SETUP response
            size_is(s, 4)?;
            Ok(Event::SetupResponse)
        }
        0x0103 => { // RELEASE request
            size_is(s, 4)?;
            Ok(Event::ReleaseRequest)
        }
        0x0104 => { // TX request k
            size_is(s, 5)?;
            let go = byte_in(s, 4, Byte::K)?;
            Ok(Event::TxRequest { go })
        }
        _ => read_setup(kind, s),
    }
}

// SETUP request a d q, or with s behind them
fn lay_setup_request(
    address: u32,
    mode: u8,
    ask: u8,
    slots: u8,
    buffer: &mut [u8],
    at: usize,
) -> usize
    ensures { ◌≡◌ {A = ℕ × List ℕ} (result, buffer.new) (event_laid (Event.SetupRequest address mode ask slots) buffer.old at) }
{
    if slots == 0 {
        let [a, b, c, d] = address.to_le_bytes();
        return lay_record(0x0101, [a, b, c, d, mode, ask], buffer, at);
    }
    let [a, b, c, d] = address.to_le_bytes();
    lay_record(0x0101, [a, b, c, d, mode, ask, slots], buffer, at)
}

// D-CONNECT i g d o, or with s behind them
fn lay_d_connect(
    id: u16,
    grant: u8,
    mode: u8,
    code: u8,
    slots: u8,
    buffer: &mut [u8],
    at: usize,
) -> usize
    ensures { ◌≡◌ {A = ℕ × List ℕ} (result, buffer.new) (event_laid (Event.DConnect id grant mode code slots) buffer.old at) }
{
    if slots == 0 {
        let [low, high] = id.to_le_bytes();
        return lay_record(0x0203, [low, high, grant, mode, code], buffer, at);
    }
    let [low, high] = id.to_le_bytes();
    lay_record(0x0203, [low, high, grant, mode, code, slots], buffer, at)
}

// D-INFO i r o d, or with s behind them
fn lay_d_info(
    id: u16,
    reset: u8,
    code: u8,
    mode: u8,
    slots: u8,
    buffer: &mut [u8],
    at: usize,
) -> usize
    ensures { ◌≡◌ {A = ℕ × List ℕ} (result, buffer.new) (event_laid (Event.DInfo id reset code mode slots) buffer.old at) }
{
    if slots == 0 {
        let [low, high] = id.to_le_bytes();
        return lay_record(0x0206, [low, high, reset, code, mode], buffer, at);
    }
    let [low, high] = id.to_le_bytes();
    lay_record(0x0206, [low, high, reset, code, mode, slots], buffer, at)
}

impl Record for Event {
    ghost read_of = { read events };

    ghost kind_of = { read_as events };

    ghost fine_of = { fine events };

    ghost bytes_of = { event_bytes };

    ghost write_of = { write events };

    ghost reads = { read_by_kind events };

    ghost writes = { event_writes };

    ghost is_short = { event_short };

    fn of_kind(kind: u16, s: &[u8]) -> Result<Event, Unreadable> {
        if kind == 0x0105 { // MODIFY request, retired
            return Err(Unreadable::Retired);
        }
        read_user(kind, s)
    }

    #[tactic(auto, using(crate::proofs::Writing::all_fit_lem, crate::proofs::Writing::none, crate::proofs::Writing::only, crate::proofs::Writing::also))]
    fn fits(self) -> bool {
        match self {
            Event::SetupRequest {
                address,
                mode,
                ask,
                slots,
            } => { // SETUP request a d q, or with s behind them
                long_fits(Long::A1, address)
                    & (byte_fits(Byte::D, mode) & (byte_fits(Byte::Q, ask) & slots_fit(slots)))
            }
            Event::SetupResponse => true, // SETUP response
            Event::ReleaseRequest => true, // RELEASE request
            Event::TxRequest { go } => byte_fits(Byte::K, go), // TX request k
            Event::DCallProceeding { id } => word_fits(Word::I, id), // D-CALL PROCEEDING i
            Event::DAlert { id } => word_fits(Word::I, id), // D-ALERT i
            Event::DConnect {
                id,
                grant,
                mode,
                code,
                slots,
            } => { // D-CONNECT i g d o, or with s behind them
                word_fits(Word::I, id)
                    & (byte_fits(Byte::G, grant)
                        & (byte_fits(Byte::D, mode)
                            & (byte_fits(Byte::O, code) & slots_fit(slots))))
            }
            Event::DConnectAcknowledge { id, grant, code } => { // D-CONNECT ACKNOWLEDGE i g o
                word_fits(Word::I, id) & (byte_fits(Byte::G, grant) & byte_fits(Byte::O, code))
            }
            Event::DSetup { id, address, mode } => { // D-SETUP i a d
                word_fits(Word::I, id) & (long_fits(Long::A, address) & byte_fits(Byte::D, mode))
            }
            Event::DInfo {
                id,
                reset,
                code,
                mode,
                slots,
            } => { // D-INFO i r o d, or with s behind them
                word_fits(Word::I, id)
                    & (byte_fits(Byte::R, reset)
                        & (byte_fits(Byte::O16, code)
                            & (byte_fits(Byte::D, mode) & slots_fit(slots))))
            }
            Event::DTxGranted { id, grant } => { // D-TX GRANTED i g
                word_fits(Word::I, id) & byte_fits(Byte::G, grant)
            }
            Event::DTxCeased { id } => word_fits(Word::I, id), // D-TX CEASED i
            Event::DTxInterrupt { id, grant } => { // D-TX INTERRUPT i g
                word_fits(Word::I, id) & byte_fits(Byte::G, grant)
            }
            Event::DTxWait { id } => word_fits(Word::I, id), // D-TX WAIT i
            Event::DTxContinue { id, go } => word_fits(Word::I, id) & byte_fits(Byte::K, go), // D-TX CONTINUE i k
            Event::DCallRestore {
                id,
                grant,
                reset,
                code,
            } => { // D-CALL RESTORE i g r o
                word_fits(Word::I, id)
                    & (byte_fits(Byte::G, grant)
                        & (byte_fits(Byte::R, reset) & byte_fits(Byte::O16, code)))
            }
            Event::DDisconnect { id } => word_fits(Word::I0, id), // D-DISCONNECT i
            Event::DRelease { id } => word_fits(Word::I0, id), // D-RELEASE i
            Event::ReportSent => true, // REPORT sent
            Event::ReportFailed => true, // REPORT failed
            Event::Break => true, // BREAK
            Event::Resume => true, // RESUME
            Event::Expiry { timer } => word_fits(Word::N, timer), // expiry n
        }
    }

    fn lay(self, buffer: &mut [u8], at: usize) -> usize {
        match self {
            Event::SetupRequest {
                address,
                mode,
                ask,
                slots,
            } => lay_setup_request(address, mode, ask, slots, buffer, at), // SETUP request a d q, or with s behind them
            Event::SetupResponse => lay_record(0x0102, [], buffer, at), // SETUP response
            Event::ReleaseRequest => lay_record(0x0103, [], buffer, at), // RELEASE request
            Event::TxRequest { go } => lay_record(0x0104, [go], buffer, at), // TX request k
            Event::DCallProceeding { id } => { // D-CALL PROCEEDING i
                let [low, high] = id.to_le_bytes();
                lay_record(0x0201, [low, high], buffer, at)
            }
            Event::DAlert { id } => { // D-ALERT i
                let [low, high] = id.to_le_bytes();
                lay_record(0x0202, [low, high], buffer, at)
            }
            Event::DConnect {
                id,
                grant,
                mode,
                code,
                slots,
            } => lay_d_connect(id, grant, mode, code, slots, buffer, at), // D-CONNECT i g d o, or with s behind them
            Event::DConnectAcknowledge { id, grant, code } => { // D-CONNECT ACKNOWLEDGE i g o
                let [low, high] = id.to_le_bytes();
                lay_record(0x0204, [low, high, grant, code], buffer, at)
            }
            Event::DSetup { id, address, mode } => { // D-SETUP i a d
                let [low, high] = id.to_le_bytes();
                let [a, b, c, d] = address.to_le_bytes();
                lay_record(0x0205, [low, high, a, b, c, d, mode], buffer, at)
            }
            Event::DInfo {
                id,
                reset,
                code,
                mode,
                slots,
            } => lay_d_info(id, reset, code, mode, slots, buffer, at), // D-INFO i r o d, or with s behind them
            Event::DTxGranted { id, grant } => { // D-TX GRANTED i g
                let [low, high] = id.to_le_bytes();
                lay_record(0x0207, [low, high, grant], buffer, at)
            }
            Event::DTxCeased { id } => { // D-TX CEASED i
                let [low, high] = id.to_le_bytes();
                lay_record(0x0208, [low, high], buffer, at)
            }
            Event::DTxInterrupt { id, grant } => { // D-TX INTERRUPT i g
                let [low, high] = id.to_le_bytes();
                lay_record(0x0209, [low, high, grant], buffer, at)
            }
            Event::DTxWait { id } => { // D-TX WAIT i
                let [low, high] = id.to_le_bytes();
                lay_record(0x020A, [low, high], buffer, at)
            }
            Event::DTxContinue { id, go } => { // D-TX CONTINUE i k
                let [low, high] = id.to_le_bytes();
                lay_record(0x020B, [low, high, go], buffer, at)
            }
            Event::DCallRestore {
                id,
                grant,
                reset,
                code,
            } => { // D-CALL RESTORE i g r o
                let [low, high] = id.to_le_bytes();
                lay_record(0x020C, [low, high, grant, reset, code], buffer, at)
            }
            Event::DDisconnect { id } => { // D-DISCONNECT i
                let [low, high] = id.to_le_bytes();
                lay_record(0x020D, [low, high], buffer, at)
            }
            Event::DRelease { id } => { // D-RELEASE i
                let [low, high] = id.to_le_bytes();
                lay_record(0x020E, [low, high], buffer, at)
            }
            Event::ReportSent => lay_record(0x0301, [], buffer, at), // REPORT sent
            Event::ReportFailed => lay_record(0x0302, [], buffer, at), // REPORT failed
            Event::Break => lay_record(0x0303, [], buffer, at), // BREAK
            Event::Resume => lay_record(0x0304, [], buffer, at), // RESUME
            Event::Expiry { timer } => { // expiry n
                let [low, high] = timer.to_le_bytes();
                lay_record(0x0401, [low, high], buffer, at)
            }
        }
    }
}
