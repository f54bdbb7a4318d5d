// What comes in, in direct mode: from the user, layer 2, the called set and the timers, read from bytes and written into a lent buffer.
ghost use Rattle.records.specs.Tables.{read, read_as, fine, write};
ghost use Rattle.records.specs.Records.{read_by_kind};
ghost use Rattle.direct.specs.Events.{events, event_bytes};
ghost use Rattle.direct.specs.Records.{event_writes, event_short};

use records::bodies::Unreadable;
use records::fields::{byte_in, size_is, word_in};
use records::letters::{Byte, Word, byte_fits, word_fits};
use records::lines::lay_record;
use records::record::Record;

#[derive(Clone, Copy, Debug, PartialEq, Eq)]
pub enum Event {
    // 0801 SETUP request. The user asks for a call with presence check.
    SetupRequest {
        target: u8,
        lowest: u8,
        attempts: u8,
    },
    // 0802 DMA-REPORT. Layer 2 tells how DM-SETUP PRES fared: 0 sent, 1 the channel is busy, 2 its state is unknown.
    DmaReport {
        fared: u8,
    },
    // 0803 DM-CONNECT. The called set accepts, at a grade of service.
    DmConnect {
        grade: u8,
    },
    // 0804 DM-DISCONNECT. The called set rejects.
    DmDisconnect,
    // 0805 expiry. A timer ran out.
    Expiry {
        timer: u16,
    },
}

impl Record for Event {
    ghost read_of = { read events };

    ghost kind_of = { read_as events };

    ghost fine_of = { fine events };

    ghost bytes_of = { event_bytes };

    ghost write_of = { write events };

    ghost reads = { read_by_kind events };

    ghost writes = { event_writes };

    ghost is_short = { event_short };

    fn of_kind(kind: u16, s: &[u8]) -> Result<Event, Unreadable> {
        match kind {
            0x0801 => { // SETUP request t l m
                size_is(s, 7)?;
                let target = byte_in(s, 4, Byte::Any)?;
                let lowest = byte_in(s, 5, Byte::Any)?;
                let attempts = byte_in(s, 6, Byte::Any)?;
                Ok(Event::SetupRequest {
                    target,
                    lowest,
                    attempts,
                })
            }
            0x0802 => { // DMA-REPORT v
                size_is(s, 5)?;
                let fared = byte_in(s, 4, Byte::V)?;
                Ok(Event::DmaReport { fared })
            }
            0x0803 => { // DM-CONNECT t
                size_is(s, 5)?;
                let grade = byte_in(s, 4, Byte::Any)?;
                Ok(Event::DmConnect { grade })
            }
            0x0804 => { // DM-DISCONNECT
                size_is(s, 4)?;
                Ok(Event::DmDisconnect)
            }
            0x0805 => { // expiry n
                size_is(s, 6)?;
                let timer = word_in(s, 4, Word::N2)?;
                Ok(Event::Expiry { timer })
            }
            _ => Err(Unreadable::UnknownKind),
        }
    }

    #[tactic(auto, using(records::proofs::Writing::all_fit_lem, records::proofs::Writing::none, records::proofs::Writing::only, records::proofs::Writing::also))]
    fn fits(self) -> bool {
        match self {
            Event::SetupRequest {
                target,
                lowest,
                attempts,
            } => byte_fits(Byte::Any, target)
                & (byte_fits(Byte::Any, lowest) & byte_fits(Byte::Any, attempts)), // SETUP request t l m
            Event::DmaReport { fared } => byte_fits(Byte::V, fared), // DMA-REPORT v
            Event::DmConnect { grade } => byte_fits(Byte::Any, grade), // DM-CONNECT t
            Event::DmDisconnect => true, // DM-DISCONNECT
            Event::Expiry { timer } => word_fits(Word::N2, timer), // expiry n
        }
    }

    #[tactic(auto, using(crate::proofs::Stores::event_lines))]
    fn lay(self, buffer: &mut [u8], at: usize) -> usize {
        match self {
            Event::SetupRequest {
                target,
                lowest,
                attempts,
            } => lay_record(0x0801, [target, lowest, attempts], buffer, at), // SETUP request t l m
            Event::DmaReport { fared } => lay_record(0x0802, [fared], buffer, at), // DMA-REPORT v
            Event::DmConnect { grade } => lay_record(0x0803, [grade], buffer, at), // DM-CONNECT t
            Event::DmDisconnect => lay_record(0x0804, [], buffer, at), // DM-DISCONNECT
            Event::Expiry { timer } => lay_record(0x0805, timer.to_le_bytes(), buffer, at), // expiry n
        }
    }
}
