// A bank of timers as a host's 39 bytes, and its four entries. Each returns answer * 2^24 + count.
ghost use Rattle.std.specs.Prelude.{◌≡◌, Some, None, cond, List, [], ℕ, ◌+◌, ◌<◌, ◌≤◌, length};
ghost use Rattle.std.proofs.lemmas.List.Edits.{sets};
ghost use Rattle.records.specs.Bytes.{bytes};
ghost use Rattle.records.specs.Bodies.{Stored};
ghost use Rattle.timers.specs.Bank.{stopped, started, advanced, as_advanced};
ghost use Rattle.host.specs.Bank.{flags, packed_bank, is_bank, held_bank, BankLeft, left_by, bank_made, on_bank};

use crate::packed::{ANSWER, FLAG_MOST, all_at_most, refused};
use records::fields::long_at;
use timers::bank::{Advanced, Bank, Refusal};

// The last reading and seven deadlines of four bytes each, and seven flags.
const BYTES: usize = 39;

// The bank that some bytes hold; none where they are no bank.
fn held_bank(s: &[u8]) -> Option<Bank>
    ensures { result ≡ cond (is_bank s.now) (Some (held_bank s.now)) None }
{
    if s.len() != BYTES || !all_at_most(&s[32..], FLAG_MOST) {
        return None;
    }
    Some(Bank {
        last: long_at(s, 0),
        deadlines: std::array::from_fn(|i| long_at(s, 4 + 4 * i)),
        running: std::array::from_fn(|i| s[32 + i] == 1),
    })
}

// Each stores at a position and answers the next one.

fn put_byte(out: &mut [u8], at: usize, v: u8) -> usize
    requires { at < length out.old }
    ensures { Stored out.old at (bytes 1 v) result out.new }
{
    out[at] = v;
    at + 1
}

fn put_long(out: &mut [u8], at: usize, v: u32) -> usize
    requires { at + 4 ≤ length out.old }
    ensures { Stored out.old at (bytes 4 v) result out.new }
{
    out[at..at + 4].copy_from_slice(&v.to_le_bytes());
    at + 4
}

// A bank into its bytes.
fn pack_bank(bank: Bank, s: &mut [u8])
    requires { length s.old ≡ 39 }
    ensures { s.new ≡ sets s.old 0 (packed_bank bank) }
{
    let mut at = put_long(s, 0, bank.last);
    for deadline in bank.deadlines {
        at = put_long(s, at, deadline);
    }
    for runs in bank.running {
        at = put_byte(s, at, u8::from(runs));
    }
}

// Makes a bank in which no timer runs; answer 1 where it has not 39 bytes.
pub fn callcontrol_bank_new(bank: &mut [u8], reading: u32) -> u32
    ensures { ◌≡◌ {A = BankLeft} (record { result = result; bank = bank.new; list = [] }) (bank_made bank.old reading) }
{
    if bank.len() != BYTES {
        return ANSWER;
    }
    pack_bank(Bank::new(reading), bank);
    BYTES as u32
}

// What a call leaves of the bank's bytes, and its result: a refused one leaves them as they are.
fn leave(called: Result<Advanced, Refusal>, bank: &mut [u8]) -> u32
    requires whole { length bank.old ≡ 39 }
    requires few { (b : _) → (as_advanced b called []).count ≤ 7 }
    ensures { (b : _) (list : List ℕ) → ◌≡◌ {A = BankLeft} (record { result = result; bank = bank.new; list = list }) (left_by bank.old (as_advanced b called list)) }
{
    match called {
        Ok(advanced) => {
            pack_bank(advanced.bank, bank);
            advanced.count as u32
        }
        Err(refusal) => refused(refusal.number(), 0),
    }
}

// A call that hands out no timer.
fn none_due(bank: Bank) -> Advanced
    ensures { result ≡ record { count = 0; bank = bank } }
{
    Advanced { count: 0, bank }
}

// STOP.
pub fn callcontrol_bank_stop(bank: &mut [u8], timer: u16) -> u32
    ensures { ◌≡◌ {A = BankLeft} (record { result = result; bank = bank.new; list = [] }) (on_bank bank.old [] (λ b. stopped b timer)) }
{
    let Some(held) = held_bank(bank) else {
        return ANSWER;
    };
    leave(held.stop(timer).map(none_due), bank)
}

// START, with the timer's length in the lent table.
pub fn callcontrol_bank_start(bank: &mut [u8], table: &[u32], timer: u16, code: u8) -> u32
    ensures { ◌≡◌ {A = BankLeft} (record { result = result; bank = bank.new; list = [] }) (on_bank bank.old [] (λ b. started b table.now timer code)) }
{
    let Some(held) = held_bank(bank) else {
        return ANSWER;
    };
    leave(held.start(table, timer, code).map(none_due), bank)
}

// A new reading: the timers then due are handed out into the lent list.
pub fn callcontrol_bank_advance(bank: &mut [u8], reading: u32, due: &mut [u16]) -> u32
    ensures { ◌≡◌ {A = BankLeft} (record { result = result; bank = bank.new; list = due.new }) (on_bank bank.old due.old (λ b. advanced b reading due.old)) }
{
    let Some(held) = held_bank(bank) else {
        return ANSWER;
    };
    leave(held.advance(reading, due), bank)
}
