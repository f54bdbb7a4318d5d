// A record from its kind and its body. Buffer and position stand side by side, here and in what calls this: a writer that held the buffer would need, in
// each promise, that it still holds the same one.
ghost use Rattle.std.specs.Prelude.{◌≡◌, List, ℕ};
ghost use Rattle.records.specs.Bodies.{line_laid};

// Stores length, kind and body from a position on where they fit, and answers the position after them; else it stores nothing and answers the position.
pub fn lay_record<const N: usize>(kind: u16, body: [u8; N], buffer: &mut [u8], at: usize) -> usize
    ensures { ◌≡◌ {A = ℕ × List ℕ} (result, buffer.new) (line_laid kind body.entry buffer.old at) }
{
    let size = 4 + body.len();
    if buffer.len() < at {
        return at;
    }
    if buffer.len() - at < size {
        return at;
    }
    let [size_low, size_high] = ((size % 65536) as u16).to_le_bytes();
    let [kind_low, kind_high] = kind.to_le_bytes();
    buffer[at..at + 4].copy_from_slice(&[size_low, size_high, kind_low, kind_high]);
    buffer[at + 4..at + size].copy_from_slice(&body);
    at + size
}
