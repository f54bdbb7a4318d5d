// One field of a record: a letter's value from bytes. Open to the crates of this repository, which test first that the field lies within
// the slice; no host reaches it.
ghost use Rattle.std.specs.Prelude.{◌≡◌, ◌+◌, ◌<◌, ◌≤◌, ◌||◌, eqb, length};
ghost use Rattle.records.specs.Bytes.{number};
ghost use Rattle.records.specs.Letters.{Letter};
ghost use Rattle.records.specs.Bodies.{value_at, slots_at, field, size_or_place};

use crate::bodies::Unreadable;
use crate::letters::{Byte, Long, Word, byte_fits, long_fits, word_fits};

#[tactic(auto, unfolding(crate::specs::Bytes::number))]
pub fn word_at(s: &[u8], at: usize) -> u16
    requires { at + 2 ≤ length s.now }
    ensures { result ≡ number 2 s.now at }
{
    u16::from_le_bytes([s[at], s[at + 1]])
}

#[tactic(auto, unfolding(crate::specs::Bytes::number))]
pub fn long_at(s: &[u8], at: usize) -> u32
    requires { at + 4 ≤ length s.now }
    ensures { result ≡ number 4 s.now at }
{
    u32::from_le_bytes([s[at], s[at + 1], s[at + 2], s[at + 3]])
}

// The size of a body's record is tested before its fields: a wrong one is wrong at 2.

pub fn size_is(s: &[u8], size: usize) -> Result<(), Unreadable>
    ensures { result ≡ size_or_place (eqb (length s.now) size) }
{
    if s.len() != size {
        return Err(Unreadable::BadBody(2));
    }
    Ok(())
}

// A body that may carry the slots at its end.
pub fn size_with_slots(s: &[u8], size: u8) -> Result<(), Unreadable>
    ensures { result ≡ size_or_place (eqb (length s.now) size || eqb (length s.now) (size + 1)) }
{
    let size = size as usize;
    if s.len() != size && s.len() != size + 1 {
        return Err(Unreadable::BadBody(2));
    }
    Ok(())
}

// What stands at a letter, at each width: its value, or the place of a number out of its range.

#[tactic(auto, unfolding(crate::specs::Bodies::value_at, crate::specs::Bytes::number))]
pub fn byte_in(s: &[u8], at: u8, letter: Byte) -> Result<u8, Unreadable>
    requires { at < length s.now }
    ensures { result ≡ field (value_at (Letter.byte letter) s.now at) }
{
    let v = s[at as usize];
    if !byte_fits(letter, v) {
        return Err(Unreadable::BadBody(at));
    }
    Ok(v)
}

// The slots at the end of a body that may carry them: 0 where it ends before.
#[tactic(auto, unfolding(crate::specs::Bodies::slots_at))]
pub fn slots_in(s: &[u8], at: u8) -> Result<u8, Unreadable>
    requires { at ≤ length s.now }
    ensures { result ≡ field (slots_at s.now at) }
{
    if s.len() == at as usize {
        return Ok(0);
    }
    byte_in(s, at, Byte::S)
}

#[tactic(auto, unfolding(crate::specs::Bodies::value_at))]
pub fn word_in(s: &[u8], at: u8, letter: Word) -> Result<u16, Unreadable>
    requires { at + 2 ≤ length s.now }
    ensures { result ≡ field (value_at (Letter.word letter) s.now at) }
{
    let v = word_at(s, at as usize);
    if !word_fits(letter, v) {
        return Err(Unreadable::BadBody(at));
    }
    Ok(v)
}

#[tactic(auto, unfolding(crate::specs::Bodies::value_at))]
pub fn long_in(s: &[u8], at: u8, letter: Long) -> Result<u32, Unreadable>
    requires { at + 4 ≤ length s.now }
    ensures { result ≡ field (value_at (Letter.long letter) s.now at) }
{
    let v = long_at(s, at as usize);
    if !long_fits(letter, v) {
        return Err(Unreadable::BadBody(at));
    }
    Ok(v)
}
