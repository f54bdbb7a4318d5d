// An entry of a table of events or of messages is one number, a sum: its kind, its size, and its letters, the first lowest.
ghost use Rattle.std.specs.Iterator.{YieldsFirst, item_count};
ghost use Rattle.small.specs.Entry.{spell};

pub const KIND: u32 = 0x100000;

pub const SIZE: u32 = 0x10000;

pub const SECOND: u32 = 16;

pub const THIRD: u32 = 256;

pub const FOURTH: u32 = 4096;

pub const FIFTH: u32 = 65536;

// The letters of an entry, from the first on until there is none.
#[derive(Drop)]
pub struct Letters {
    pub left: u32,
}

impl Iterator for Letters {
    type Item = u32;

    ghost next_gives = { YieldsFirst (λ s. spell 8 s.left) };

    ghost remaining = { item_count (λ s. spell 8 s.left) };

    fn next(&mut self) -> Option<u32> {
        if self.left == 0 {
            return None;
        }
        let letter = self.left % 16;
        self.left /= 16;
        Some(letter)
    }
}
