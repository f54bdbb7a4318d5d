// What the tests alone link: record_in, a part of one of two lent slices, copied to where a test can look at it.
#![tactic(auto)]

ghost use Rattle.std.specs.Prelude.{◌≡◌, List, ℕ};
ghost use Rattle.host_test.specs.Record.{handed, record_copied};

use pieces::reader::{Where, record_in};

// A result is answer * ANSWER + count, as host's are.
const ANSWER: u32 = 16777216;

// A record of this size where this number says; above 2 there is none, as at 0.
fn handed(lies: u8, size: u8) -> Option<Where>
    ensures { result ≡ handed lies size }
{
    match lies {
        1 => Some(Where::Carry(size as usize)),
        2 => Some(Where::Piece(size as usize)),
        _ => None,
    }
}

// The record that callcontrol_pieces_next handed on with this number of where it lies and this size, copied to the front of out and counted; 7 where out is shorter.
#[unsafe(no_mangle)]
pub extern "C" fn callcontrol_test_record_in<'a>(
    lies: u8,
    size: u8,
    carry: &'a [u8],
    piece: &'a [u8],
    out: &mut [u8],
) -> u32
    ensures { ◌≡◌ {A = ℕ × List ℕ} (result, out.new) (record_copied lies size carry.now piece.now out.old) }
{
    let record = record_in(handed(lies, size), carry, piece);
    let count = record.len();
    if out.len() < count {
        return 7 * ANSWER;
    }
    out[..count].copy_from_slice(record);
    count as u32
}
