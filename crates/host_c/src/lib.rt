// What a set links, as C calls it: each export calls host's function of the same name, with its promise word for word.
#![tactic(auto)]

ghost use Rattle.std.specs.Prelude.{List, [], ℕ, ◌/◌, ◌≡◌};
ghost use Rattle.channel.specs.Questions.{ask_of, decide_of, ended_of, pdu_of};
ghost use Rattle.host.specs.Bank.{BankLeft, bank_made, on_bank};
ghost use Rattle.host.specs.Channel.{RoomsLeft, on_rooms, rooms_freshened};
ghost use Rattle.host.specs.Entries.{ANSWER, Left, checked, copied, freshened, host_step};
ghost use Rattle.host.specs.SerialLine.{LeftByPiece, host_next, reader_freshened};
ghost use Rattle.records.specs.Bytes.{bytes};
ghost use Rattle.records.specs.Events.{events};
ghost use Rattle.records.specs.Messages.{messages};
ghost use Rattle.timers.specs.Bank.{advanced, started, stopped};

// Writes the fresh record; answer 1 where it has not 22 bytes.
#[unsafe(no_mangle)]
pub extern "C" fn callcontrol_fresh(call: &mut [u8]) -> u32
    ensures { ◌≡◌ {A = ℕ × List ℕ} (result, call.new) (freshened call.old) }
{
    host::callcontrol_fresh(call)
}

// One step: the record goes on and the messages are in out, or nothing is changed.
#[unsafe(no_mangle)]
pub extern "C" fn callcontrol_step(call: &mut [u8], event: &[u8], out: &mut [u8]) -> u32
    ensures { ◌≡◌ {A = Left} (record { result = result; call = call.new; out = out.new }) (host_step call.old event.now out.old) }
{
    host::callcontrol_step(call, event, out)
}

// What reading an event answers.
#[unsafe(no_mangle)]
pub extern "C" fn callcontrol_check_event(bytes: &[u8]) -> u32
    ensures { result ≡ checked events bytes.now }
{
    host::callcontrol_check_event(bytes)
}

// What reading a message answers.
#[unsafe(no_mangle)]
pub extern "C" fn callcontrol_check_message(bytes: &[u8]) -> u32
    ensures { result ≡ checked messages bytes.now }
{
    host::callcontrol_check_message(bytes)
}

// An event read, and written back into out.
#[unsafe(no_mangle)]
pub extern "C" fn callcontrol_copy_event(bytes: &[u8], out: &mut [u8]) -> u32
    ensures { ◌≡◌ {A = ℕ × List ℕ} (result, out.new) (copied events bytes.now out.old) }
{
    host::callcontrol_copy_event(bytes, out)
}

// A message read, and written back into out.
#[unsafe(no_mangle)]
pub extern "C" fn callcontrol_copy_message(bytes: &[u8], out: &mut [u8]) -> u32
    ensures { ◌≡◌ {A = ℕ × List ℕ} (result, out.new) (copied messages bytes.now out.old) }
{
    host::callcontrol_copy_message(bytes, out)
}

// Writes the fresh reader; answer 1 where it has not 2 bytes.
#[unsafe(no_mangle)]
pub extern "C" fn callcontrol_pieces_fresh(reader: &mut [u8]) -> u32
    ensures { ◌≡◌ {A = ℕ × List ℕ} (result, reader.new) (reader_freshened reader.old) }
{
    host::serial::callcontrol_pieces_fresh(reader)
}

// One piece: the reader goes on, and at most one record is handed on; bytes that are no reader are answer 1.
#[unsafe(no_mangle)]
pub extern "C" fn callcontrol_pieces_next(reader: &mut [u8], carry: &mut [u8], piece: &[u8]) -> u32
    ensures { ◌≡◌ {A = LeftByPiece} (record { result = result; reader = reader.new; carry = carry.new }) (host_next reader.old carry.old piece.now) }
{
    host::serial::callcontrol_pieces_next(reader, carry, piece)
}

// Makes a bank in which no timer runs; answer 1 where it has not 39 bytes.
#[unsafe(no_mangle)]
pub extern "C" fn callcontrol_bank_new(bank: &mut [u8], reading: u32) -> u32
    ensures { ◌≡◌ {A = BankLeft} (record { result = result; bank = bank.new; list = [] }) (bank_made bank.old reading) }
{
    host::bank::callcontrol_bank_new(bank, reading)
}

// STOP.
#[unsafe(no_mangle)]
pub extern "C" fn callcontrol_bank_stop(bank: &mut [u8], timer: u16) -> u32
    ensures { ◌≡◌ {A = BankLeft} (record { result = result; bank = bank.new; list = [] }) (on_bank bank.old [] (λ b. stopped b timer)) }
{
    host::bank::callcontrol_bank_stop(bank, timer)
}

// START, with the timer's length in the lent table.
#[unsafe(no_mangle)]
pub extern "C" fn callcontrol_bank_start(
    bank: &mut [u8],
    table: &[u32],
    timer: u16,
    code: u8,
) -> u32
    ensures { ◌≡◌ {A = BankLeft} (record { result = result; bank = bank.new; list = [] }) (on_bank bank.old [] (λ b. started b table.now timer code)) }
{
    host::bank::callcontrol_bank_start(bank, table, timer, code)
}

// A new reading: the timers then due are handed out into the lent list.
#[unsafe(no_mangle)]
pub extern "C" fn callcontrol_bank_advance(bank: &mut [u8], reading: u32, due: &mut [u16]) -> u32
    ensures { ◌≡◌ {A = BankLeft} (record { result = result; bank = bank.new; list = due.new }) (on_bank bank.old due.old (λ b. advanced b reading due.old)) }
{
    host::bank::callcontrol_bank_advance(bank, reading, due)
}

// Writes four free rooms; answer 1 where there are not 20 bytes.
#[unsafe(no_mangle)]
pub extern "C" fn callcontrol_channel_fresh(rooms: &mut [u8]) -> u32
    ensures { ◌≡◌ {A = RoomsLeft} (record { result = result; rooms = rooms.new; out = [] }) (rooms_freshened rooms.old) }
{
    host::rooms::callcontrol_channel_fresh(rooms)
}

// The lower layers ask whether to follow a channel allocation.
#[unsafe(no_mangle)]
pub extern "C" fn callcontrol_channel_ask(
    rooms: &mut [u8],
    number: u16,
    call: u16,
    asked: u8,
    out: &mut [u8],
) -> u32
    ensures { ◌≡◌ {A = RoomsLeft} (record { result = result; rooms = rooms.new; out = out.new }) (on_rooms rooms.old out.old (λ held. ask_of held number call asked out.old)) }
{
    host::rooms::callcontrol_channel_ask(rooms, number, call, asked, out)
}

// The question on an individually addressed PDU, with what the step returned for the PDU.
#[unsafe(no_mangle)]
pub extern "C" fn callcontrol_channel_pdu(
    rooms: &mut [u8],
    number: u16,
    call: u16,
    returned: u32,
    out: &mut [u8],
) -> u32
    ensures { ◌≡◌ {A = RoomsLeft} (record { result = result; rooms = rooms.new; out = out.new }) (on_rooms rooms.old out.old (λ held. pdu_of held number call (returned / ANSWER) out.old)) }
{
    host::rooms::callcontrol_channel_pdu(rooms, number, call, returned, out)
}

// A decision comes for the question of a number.
#[unsafe(no_mangle)]
pub extern "C" fn callcontrol_channel_decide(
    rooms: &mut [u8],
    number: u16,
    decision: u8,
    out: &mut [u8],
) -> u32
    ensures { ◌≡◌ {A = RoomsLeft} (record { result = result; rooms = rooms.new; out = out.new }) (on_rooms rooms.old out.old (λ held. decide_of held number decision out.old)) }
{
    host::rooms::callcontrol_channel_decide(rooms, number, decision, out)
}

// A call has ended.
#[unsafe(no_mangle)]
pub extern "C" fn callcontrol_channel_ended(rooms: &mut [u8], call: u16, out: &mut [u8]) -> u32
    ensures { ◌≡◌ {A = RoomsLeft} (record { result = result; rooms = rooms.new; out = out.new }) (on_rooms rooms.old out.old (λ held. ended_of held call out.old)) }
{
    host::rooms::callcontrol_channel_ended(rooms, call, out)
}
