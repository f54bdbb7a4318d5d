// The step once more, for a set with little room: reading, rows and messages each from one constant table, with a short routine that carries
// a row out. Its promise is the first engine's, word for word.
#![tactic(auto)]

mod entry;
mod flat;
mod laying;
mod reading;
mod rows;
mod table;

ghost use Rattle.std.specs.Prelude.{◌≡◌};
ghost use Rattle.callcontrol.specs.Step.{step_of, as_outcome};
ghost use Rattle.small.specs.Small.{decided_by};

use crate::flat::Flat;
use crate::laying::carry_row;
use crate::reading::read_flat;
use crate::rows::table_row;
use callcontrol::call::Call;
use callcontrol::step::{Refusal, Stepped};

// An event by its numbers, of a record that is sound: 5, 6, 8, and then what its row orders.
fn decide(call: Call, e: Flat, buffer: &mut [u8]) -> Result<Stepped, Refusal>
    ensures { as_outcome call result buffer.new ≡ decided_by call e buffer.old }
{
    if e.names_other(call) {
        return Err(Refusal::OtherCall);
    }
    let row = table_row(call, e).ok_or(Refusal::NoRow)?;
    if e.is_over(call) {
        return Err(Refusal::OwnTransmission);
    }
    carry_row(call, row, buffer)
}

// The step: the promise is that of the first engine, word for word.
pub fn small_step(call: Call, event: &[u8], buffer: &mut [u8]) -> Result<Stepped, Refusal>
    ensures { as_outcome call result buffer.new ≡ step_of call event.now buffer.old }
{
    if !call.sound() {
        return Err(Refusal::NotSound);
    }
    decide(call, read_flat(call, event)?, buffer)
}
