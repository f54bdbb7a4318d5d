// Records from a serial line on byte slices: a host keeps a reader as 2 bytes, carried and stopped, and lends a carry.
ghost use Rattle.std.specs.Prelude.{◌≡◌, Some, None, cond, List, ℕ, ◌≤◌, length};
ghost use Rattle.std.proofs.lemmas.List.Edits.{sets};
ghost use Rattle.pieces.specs.Next.{where_number, size_handed};
ghost use Rattle.host.specs.SerialLine.{is_reader, reader_of, reader_bytes, found_word, reader_freshened, LeftByPiece, host_next};

use crate::packed::{ANSWER, FLAG_MOST, PLACE, refused};
use pieces::reader::{Found, Reader, Where, where_number};

// How many are carried, and whether the reader is stopped.
const BYTES: usize = 2;

const CARRIED_MOST: u8 = 63;

// The reader that some bytes hold; none where they are no reader.
fn held_reader(s: &[u8]) -> Option<Reader>
    ensures { result ≡ cond (is_reader s.now) (Some (reader_of s.now)) None }
{
    if s.len() != BYTES || s[0] > CARRIED_MOST || s[1] > FLAG_MOST {
        return None;
    }
    Some(Reader {
        carried: s[0] as usize,
        stopped: s[1] == 1,
    })
}

// A reader into its two bytes.
fn put_reader(reader: Reader, s: &mut [u8])
    requires { (length s.old ≡ 2) × (reader.carried ≤ 63) }
    ensures { s.new ≡ sets s.old 0 (reader_bytes reader) }
{
    s[0] = reader.carried as u8;
    s[1] = u8::from(reader.stopped);
}

// The result of a piece that is taken.
fn found_word(found: Found) -> u32
    requires { (size_handed found.handed ≤ 64) × (found.used ≤ 64) }
    ensures { result ≡ found_word 0 (where_number found.handed) (size_handed found.handed) found.used }
{
    let size = match found.handed {
        None => 0,
        Some(Where::Carry(size) | Where::Piece(size)) => size,
    };
    where_number(found.handed) as u32 * PLACE + size as u32 * 256 + found.used as u32
}

// Writes the fresh reader; answer 1 where it has not 2 bytes.
pub fn callcontrol_pieces_fresh(reader: &mut [u8]) -> u32
    ensures { ◌≡◌ {A = ℕ × List ℕ} (result, reader.new) (reader_freshened reader.old) }
{
    if reader.len() != BYTES {
        return ANSWER;
    }
    put_reader(Reader::fresh(), reader);
    BYTES as u32
}

// One piece: the reader goes on, and at most one record is handed on; bytes that are no reader are answer 1.
pub fn callcontrol_pieces_next(reader: &mut [u8], carry: &mut [u8], piece: &[u8]) -> u32
    ensures { ◌≡◌ {A = LeftByPiece} (record { result = result; reader = reader.new; carry = carry.new }) (host_next reader.old carry.old piece.now) }
{
    let Some(mut held) = held_reader(reader) else {
        return ANSWER;
    };
    let found = held.next(carry, piece);
    put_reader(held, reader);
    match found {
        Ok(found) => found_word(found),
        Err(refusal) => refused(refusal.number(), 0),
    }
}
