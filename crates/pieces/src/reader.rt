// The reader: one piece comes in, and at most one record is handed on, as a part of the carry or of the piece, whichever holds it entire.
ghost use Rattle.std.specs.Prelude.{◌≡◌, ◌+◌, ◌≤◌, ◌<◌, false, length, take};
ghost use Rattle.std.proofs.Math.Seq.{paste};
ghost use Rattle.pieces.specs.Next.{fresh_reader, next_of, kept, handed_on, as_outcome, as_taken, record_in, answer_number, where_number, size_handed};

use crate::front::front_of;

// What a reader holds between two pieces; the carried bytes are at the front of the lent carry.
// Not an Option of the count: a host's bytes may have a stopped reader that carries, and are packed again as they were (ReaderIsPacked of host).
#[derive(Clone, Copy, Debug, PartialEq, Eq)]
pub struct Reader {
    // 0 to 63.
    pub carried: usize,
    pub stopped: bool,
}

// Why a piece is refused.
#[derive(Clone, Copy, Debug, PartialEq, Eq)]
pub enum Refusal {
    // The length is impossible.
    ImpossibleLength = 20,
    // The reader is stopped.
    Stopped = 21,
    // The carry has under 64 bytes.
    SmallCarry = 22,
}

impl Refusal {
    // Its number for a host.
    pub fn number(self) -> u8
        ensures value { result ≡ answer_number self }
        ensures upper_bound { result < 23 }
    {
        self as u8
    }
}

// Where a record is that was handed on, at the front of one of two slices, and its size.
#[derive(Clone, Copy, Debug, PartialEq, Eq)]
pub enum Where {
    Carry(usize),
    Piece(usize),
}

// The record, if one has ended, and how many bytes of the piece were used: those behind them are handed in next.
#[derive(Clone, Copy, Debug, PartialEq, Eq)]
pub struct Found {
    pub handed: Option<Where>,
    pub used: usize,
}

// The number of where a record is; 0 where nothing is handed on. A match: two of the cases hold a size, so that `as` does not apply.
pub fn where_number(handed: Option<Where>) -> u8
    ensures value { result ≡ where_number handed }
    ensures upper_bound { result < 3 }
{
    match handed {
        None => 0,
        Some(Where::Carry(_)) => 1,
        Some(Where::Piece(_)) => 2,
    }
}

// The first n bytes of the piece into the carry, behind those carried.
// Byte by byte: `copy_from_slice` of a length that varies calls `memmove`, and an archive for C is to need no name from outside.
fn copy(carry: &mut [u8], at: usize, piece: &[u8], n: usize)
    requires { (at + n ≤ length carry.old) × (n ≤ length piece.now) }
    ensures { carry.new ≡ paste carry.old at piece.now n }
{
    for i in 0..n {
        carry[at + i] = piece[i];
    }
}

impl Reader {
    // Carries nothing and is not stopped; a reader is reset by beginning with this one again.
    pub fn fresh() -> Self
        ensures { result ≡ fresh_reader }
    {
        Reader {
            carried: 0,
            stopped: false,
        }
    }

    // A piece that ends no record is carried whole.
    fn keep(&mut self, carry: &mut [u8], piece: &[u8]) -> Found
        requires { (self.old.carried + length piece.now ≤ length carry.old) × (self.old.stopped ≡ false) }
        ensures { as_taken result self.new carry.new ≡ kept self.old.carried carry.old piece.now }
    {
        let used = piece.len();
        copy(carry, self.carried, piece, used);
        self.carried += used;
        Found { handed: None, used }
    }

    // A record that the piece holds entire stays there; one that was begun is completed in the carry.
    fn hand_on(&mut self, carry: &mut [u8], piece: &[u8], size: usize) -> Found
        requires { (self.old.carried < size) × (size ≤ self.old.carried + length piece.now) × (size ≤ length carry.old) }
        ensures { as_taken result self.new carry.new ≡ handed_on self.old.carried carry.old piece.now size }
    {
        let carried = self.carried;
        *self = Reader::fresh();
        if carried == 0 {
            return Found {
                handed: Some(Where::Piece(size)),
                used: size,
            };
        }
        let used = size - carried;
        copy(carry, carried, piece, used);
        Found {
            handed: Some(Where::Carry(size)),
            used,
        }
    }

    // One piece: the first record that it ends, or all of it carried, or a refusal that hands nothing on. An impossible length stops the
    // reader; the other refusals leave it as it is.
    pub fn next(&mut self, carry: &mut [u8], piece: &[u8]) -> Result<Found, Refusal>
        ensures { as_outcome result self.new carry.new ≡ next_of self.old carry.old piece.now }
    {
        if carry.len() < 64 {
            return Err(Refusal::SmallCarry);
        }
        if self.stopped || self.carried > 63 {
            return Err(Refusal::Stopped);
        }
        match front_of(&carry[..self.carried], piece) {
            Ok(None) => Ok(self.keep(carry, piece)),
            Ok(Some(size)) => Ok(self.hand_on(carry, piece, size)),
            Err(_) => {
                *self = Reader {
                    carried: 0,
                    stopped: true,
                };
                Err(Refusal::ImpossibleLength)
            }
        }
    }
}

// The first bytes of some, or all of them where there are fewer.
fn front_part<'a>(s: &'a [u8], size: usize) -> &'a [u8]
    ensures { result.now ≡ take size s.now }
{
    &s[..size.min(s.len())]
}

// The record that was handed on, as a part of the slice that holds it; no bytes where nothing was.
pub fn record_in<'a>(handed: Option<Where>, carry: &'a [u8], piece: &'a [u8]) -> &'a [u8]
    ensures { result.now ≡ record_in (where_number handed) (size_handed handed) carry.now piece.now }
{
    match handed {
        None => front_part(piece, 0),
        Some(Where::Carry(size)) => front_part(carry, size),
        Some(Where::Piece(size)) => front_part(piece, size),
    }
}
