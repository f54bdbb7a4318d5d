// What goes out, in direct mode: to the called set, the timers, the lower layers and the user, read from bytes and written into a lent buffer.
ghost use Rattle.std.specs.Prelude.{◌≡◌};
ghost use Rattle.records.specs.Tables.{read, read_as, fine, write};
ghost use Rattle.records.specs.Records.{read_by_kind};
ghost use Rattle.direct.specs.Messages.{messages, message_bytes, message_size};
ghost use Rattle.direct.specs.Records.{message_writes, message_short};

use records::bodies::Unreadable;
use records::fields::{byte_in, size_is, word_in};
use records::letters::{Byte, Word, byte_fits, word_fits};
use records::lines::lay_record;
use records::record::Record;

#[derive(Clone, Copy, Debug, PartialEq, Eq)]
pub enum Message {
    // 0901 DM-SETUP PRES. The called set is asked whether it is there, and at which grade of service.
    DmSetupPres { target: u8, lowest: u8 },
    // 0902 DM-CONNECT ACK. The offered grade is taken.
    DmConnectAck { grade: u8 },
    // 0903 DM-RELEASE. The attempt is over.
    DmRelease,
    // 0911 STOP. A timer that runs is stopped.
    Stop { timer: u16 },
    // 0912 START. A timer is started.
    Start { timer: u16 },
    // 0913 CONFIGURE. The lower layers carry traffic at a grade of service.
    Configure { grade: u8 },
    // 0921 SETUP confirm. The user has the call, at a grade of service.
    SetupConfirm { grade: u8 },
    // 0922 RELEASE indication. The user has no call.
    ReleaseIndication,
}

impl Message {
    // How many bytes it has.
    #[tactic(auto, unfolding(crate::specs::Messages::message_size, records::specs::Bodies::flat_size))]
    pub(crate) fn size(self) -> usize
        ensures { result ≡ message_size self }
    {
        match self {
            Message::DmSetupPres { .. } | Message::Stop { .. } | Message::Start { .. } => 6,
            Message::DmConnectAck { .. }
            | Message::Configure { .. }
            | Message::SetupConfirm { .. } => 5,
            Message::DmRelease | Message::ReleaseIndication => 4,
        }
    }
}

impl Record for Message {
    ghost read_of = { read messages };

    ghost kind_of = { read_as messages };

    ghost fine_of = { fine messages };

    ghost bytes_of = { message_bytes };

    ghost write_of = { write messages };

    ghost reads = { read_by_kind messages };

    ghost writes = { message_writes };

    ghost is_short = { message_short };

    fn of_kind(kind: u16, s: &[u8]) -> Result<Message, Unreadable> {
        match kind {
            0x0901 => { // DM-SETUP PRES t l
                size_is(s, 6)?;
                let target = byte_in(s, 4, Byte::Any)?;
                let lowest = byte_in(s, 5, Byte::Any)?;
                Ok(Message::DmSetupPres { target, lowest })
            }
            0x0902 => { // DM-CONNECT ACK t
                size_is(s, 5)?;
                let grade = byte_in(s, 4, Byte::Any)?;
                Ok(Message::DmConnectAck { grade })
            }
            0x0903 => { // DM-RELEASE
                size_is(s, 4)?;
                Ok(Message::DmRelease)
            }
            0x0911 => { // STOP n
                size_is(s, 6)?;
                let timer = word_in(s, 4, Word::N2)?;
                Ok(Message::Stop { timer })
            }
            0x0912 => { // START n
                size_is(s, 6)?;
                let timer = word_in(s, 4, Word::N2)?;
                Ok(Message::Start { timer })
            }
            0x0913 => { // CONFIGURE t
                size_is(s, 5)?;
                let grade = byte_in(s, 4, Byte::Any)?;
                Ok(Message::Configure { grade })
            }
            0x0921 => { // SETUP confirm t
                size_is(s, 5)?;
                let grade = byte_in(s, 4, Byte::Any)?;
                Ok(Message::SetupConfirm { grade })
            }
            0x0922 => { // RELEASE indication
                size_is(s, 4)?;
                Ok(Message::ReleaseIndication)
            }
            _ => Err(Unreadable::UnknownKind),
        }
    }

    #[tactic(auto, using(records::proofs::Writing::all_fit_lem, records::proofs::Writing::none, records::proofs::Writing::only, records::proofs::Writing::also))]
    fn fits(self) -> bool {
        match self {
            Message::DmSetupPres { target, lowest } => byte_fits(Byte::Any, target)
                & byte_fits(Byte::Any, lowest), // DM-SETUP PRES t l
            Message::DmConnectAck { grade } => byte_fits(Byte::Any, grade), // DM-CONNECT ACK t
            Message::DmRelease => true, // DM-RELEASE
            Message::Stop { timer } => word_fits(Word::N2, timer), // STOP n
            Message::Start { timer } => word_fits(Word::N2, timer), // START n
            Message::Configure { grade } => byte_fits(Byte::Any, grade), // CONFIGURE t
            Message::SetupConfirm { grade } => byte_fits(Byte::Any, grade), // SETUP confirm t
            Message::ReleaseIndication => true, // RELEASE indication
        }
    }

    #[tactic(auto, using(crate::proofs::Stores::message_lines))]
    fn lay(self, buffer: &mut [u8], at: usize) -> usize {
        match self {
            Message::DmSetupPres { target, lowest } => lay_record(
                0x0901,
                [target, lowest],
                buffer,
                at,
            ), // DM-SETUP PRES t l
            Message::DmConnectAck { grade } => lay_record(0x0902, [grade], buffer, at), // DM-CONNECT ACK t
            Message::DmRelease => lay_record(0x0903, [], buffer, at), // DM-RELEASE
            Message::Stop { timer } => lay_record(0x0911, timer.to_le_bytes(), buffer, at), // STOP n
            Message::Start { timer } => lay_record(0x0912, timer.to_le_bytes(), buffer, at), // START n
            Message::Configure { grade } => lay_record(0x0913, [grade], buffer, at), // CONFIGURE t
            Message::SetupConfirm { grade } => lay_record(0x0921, [grade], buffer, at), // SETUP confirm t
            Message::ReleaseIndication => lay_record(0x0922, [], buffer, at), // RELEASE indication
        }
    }
}
