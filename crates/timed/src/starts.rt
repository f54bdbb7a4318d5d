// The STARTs among the messages that a step has written, done on a bank.
ghost use Rattle.std.specs.Prelude.{◌≡◌};
ghost use Rattle.timed.specs.Set.{started_by};
ghost use Rattle.timed.specs.Parts.{AllMessages, FirstDone, AllDone};

use records::fields::word_at;
use records::messages::Message;
use records::record::read;
use timers::bank::Bank;

// START sets a deadline, and no other message does.
#[tactic(auto, unfolding(crate::specs::Set::started_by))]
fn start_by(bank: Bank, lengths: &[u32], message: Message) -> Bank
    ensures { result ≡ started_by lengths.now bank message }
{
    match message {
        Message::Start { timer, code } => bank.start(lengths, timer, code).unwrap_or(bank),
        _ => bank,
    }
}

// The message that some bytes are.
fn start_first(bank: Bank, lengths: &[u32], message: &[u8]) -> Bank
    ensures { FirstDone lengths.now bank message.now result }
{
    match read(message) {
        Ok(message) => start_by(bank, lengths, message),
        Err(_) => bank,
    }
}

// All of them.
#[tactic(auto, using(crate::proofs::Fronts::fronts))]
pub fn start_all(bank: Bank, lengths: &[u32], written: &[u8]) -> Bank
    requires { AllMessages written.now }
    ensures { AllDone lengths.now bank written.now result }
{
    if written.is_empty() {
        return bank;
    }
    let (message, rest) = written.split_at(word_at(written, 0) as usize);
    start_all(start_first(bank, lengths, message), lengths, rest)
}
