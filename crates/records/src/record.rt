// What the tables of events and of messages share: a record is read by its kind, tested, stored, and so read from bytes and written into a lent buffer.
ghost use Rattle.std.specs.Prelude.{◌≡◌, Bool, true, List, ℕ};
ghost use Rattle.records.specs.Bodies.{Wrote, kind_in, as_wrote, laid, laid_next, written};
ghost use Rattle.records.specs.Tables.{Read, or_refuse, as_read};
ghost use Rattle.records.specs.Records.{short};

use crate::bodies::{Unreadable, Unwritable, kind_in};

// The values that the lines of a table stand for.
pub trait Record: Copy {
    // What some bytes are by the table, and what a record of a kind is.
    ghost read_of: { List ℕ → Read Self };

    ghost kind_of: { ℕ → List ℕ → Read Self };

    // Whether each field is in its range, the record's bytes, and what a buffer is left as.
    ghost fine_of: { Self → Bool };

    ghost bytes_of: { Self → List ℕ };

    ghost write_of: { Self → List ℕ → Wrote × List ℕ };

    // The record of a kind by its number.
    fn of_kind(kind: u16, s: &[u8]) -> Result<Self, Unreadable>
        ensures { as_read result ≡ kind_of kind s.now };

    // Whether every field is in its letter's range, and those that must agree do.
    fn fits(self) -> bool
        ensures { result ≡ fine_of self };

    // Stores the record's bytes from a position on where they fit, whatever its values, and answers the position after them.
    fn lay(self, buffer: &mut [u8], at: usize) -> usize
        ensures { ◌≡◌ {A = ℕ × List ℕ} (result, buffer.new) (laid_next (bytes_of self) buffer.old at, laid (bytes_of self) buffer.old at) };

    ghost reads: { (s : List ℕ) → read_of s ≡ or_refuse 2 (kind_in s) (λ n. kind_of n s) };

    ghost writes: { (r : Self) (buffer : List ℕ) → write_of r buffer ≡ written (fine_of r) (bytes_of r) buffer };

    ghost is_short: { (r : Self) → short (bytes_of r) ≡ true };
}

// The record that some bytes are, or why they are none.
pub fn read<R: Record>(s: &[u8]) -> Result<R, Unreadable>
    ensures { as_read result ≡ R.read_of s.now }
{
    let kind = kind_in(s).ok_or(Unreadable::BadLength)?;
    R::of_kind(kind, s)
}

// Stores a record's bytes at the front of a lent buffer, and answers how many they are.
pub fn write<R: Record>(r: R, buffer: &mut [u8]) -> Result<usize, Unwritable>
    ensures { ◌≡◌ {A = Wrote × List ℕ} (as_wrote result, buffer.new) (R.write_of r buffer.old) }
{
    if !r.fits() {
        return Err(Unwritable::BadField);
    }
    let size = r.lay(buffer, 0);
    if size == 0 {
        return Err(Unwritable::NoRoom);
    }
    Ok(size)
}
