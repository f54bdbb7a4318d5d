// What the carried bytes and then the piece begin with. A length is judged as soon as its two bytes are there.
ghost use Rattle.std.specs.Prelude.{◌≡◌, ◌++◌, ◌+◌, ◌≤◌, ◌<◌, length, get_or};
ghost use Rattle.pieces.specs.Stream.{front};
ghost use Rattle.pieces.specs.Next.{as_front, begun};

// A length that no record has.
#[derive(Clone, Copy, Debug, PartialEq, Eq)]
pub struct ImpossibleLength;

// The bytes of the shortest record and of the longest.
const SHORTEST: usize = 4;

const LONGEST: usize = 64;

// A byte of those carried and then of the piece.
fn byte_at(carried: &[u8], piece: &[u8], i: usize) -> u8
    requires { i < length carried.now + length piece.now }
    ensures { result ≡ get_or (carried.now ++ piece.now) i 0 }
{
    if i < carried.len() {
        carried[i]
    } else {
        piece[i - carried.len()]
    }
}

// The size of the record at the front of the carried bytes and then the piece, neither of which is moved; none where it has not ended.
pub fn front_of(carried: &[u8], piece: &[u8]) -> Result<Option<usize>, ImpossibleLength>
    requires { length carried.now < 64 }
    ensures { as_front result ≡ begun (length carried.now) (front (carried.now ++ piece.now)) }
{
    let there = carried.len() + piece.len();
    if there < 2 {
        return Ok(None);
    }
    let low = byte_at(carried, piece, 0);
    let high = byte_at(carried, piece, 1);
    let size = u16::from_le_bytes([low, high]) as usize;
    if size < SHORTEST || size > LONGEST || size <= carried.len() {
        return Err(ImpossibleLength);
    }
    if size <= there {
        Ok(Some(size))
    } else {
        Ok(None)
    }
}
