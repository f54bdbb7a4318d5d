// A record without its meaning: its head, and why one cannot be read or written.
ghost use Rattle.std.specs.Prelude.{◌≡◌, ◌<◌};
ghost use Rattle.records.specs.Bodies.{kind_in, as_head, unreadable_number, unreadable_place, unwritable_number};

use crate::fields::word_at;

// Why some bytes are no record.
#[derive(Clone, Copy, Debug, PartialEq, Eq)]
pub enum Unreadable {
    // 2: under 4 bytes handed in, or the length field differs from the bytes handed in.
    BadLength,
    // 3: no line of the table has the kind.
    UnknownKind,
    // 9, after 3 and before 4: the kind is retired.
    Retired,
    // 4: the body's size, with place 2, or a field out of range, with the place of the first.
    BadBody(u8),
}

impl Unreadable {
    pub fn number(self) -> u8
        ensures value { result ≡ unreadable_number self }
        ensures upper_bound { result < 10 }
    {
        match self {
            Unreadable::BadLength => 2,
            Unreadable::UnknownKind => 3,
            Unreadable::Retired => 9,
            Unreadable::BadBody(_) => 4,
        }
    }

    // The place in the record, counted from its first byte; 0 where the number says it all.
    pub fn place(self) -> u8
        ensures { result ≡ unreadable_place self }
    {
        match self {
            Unreadable::BadBody(place) => place,
            _ => 0,
        }
    }
}

// Why a record is not written.
#[derive(Clone, Copy, Debug, PartialEq, Eq)]
pub enum Unwritable {
    // A field is out of range.
    BadField = 4,
    // The buffer is too short.
    NoRoom = 7,
}

impl Unwritable {
    pub fn number(self) -> u8
        ensures value { result ≡ unwritable_number self }
        ensures upper_bound { result < 8 }
    {
        self as u8
    }
}

// The kind, where at least four bytes came and as many as the length says.
#[tactic(auto, unfolding(crate::specs::Bodies::kind_in))]
pub fn kind_in(s: &[u8]) -> Option<u16>
    ensures { as_head result ≡ kind_in s.now }
{
    if s.len() < 4 {
        return None;
    }
    let said = word_at(s, 0) as usize;
    if said != s.len() {
        return None;
    }
    Some(word_at(s, 2))
}
