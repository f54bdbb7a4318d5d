// The text of a line: the answer, the state and the plane of the record given back, the count of bytes written, and the place that comes with
// answer 4. The last line is that of a record which no step answers.
ghost use Rattle.std.specs.Prelude.{◌≡◌, ◌+◌, ◌<◌, ◌≤◌, [], ◌∷◌, ◌++◌, length, leb};
ghost use Rattle.calltrace.specs.Line.{code, decimal, name_of, header, line_most, line_bytes, last_line, end_lines};

use callcontrol::call::{Call, State};
use std::marker::Model;

// The most bytes that a line takes: the header's.
const LINE_MOST: usize = 31;

// Room for the lines, so that few writes are needed.
pub const LINE_ROOM: usize = 65536;

// A line's five columns. All are printed whatever the answer is, so that none counts only beside some answers.
#[derive(Clone, Copy, Debug, PartialEq, Eq)]
pub struct Line {
    pub answer: u8,
    pub state: State,
    pub plane: u8,
    pub count: u8,
    pub place: u8,
}

impl Line {
    // The line of a record that is cut or has a length under 4.
    pub fn last(call: Call) -> Line
        ensures value { line_bytes result ≡ last_line call }
        ensures answer_bound { result.answer < 10 }
    {
        Line {
            answer: 2,
            state: call.state,
            plane: call.plane,
            count: 0,
            place: 0,
        }
    }
}

// The bytes of lines that are laid and not yet written.
#[derive(Drop)]
pub struct LineBlock {
    bytes: [u8; LINE_ROOM],
    laid: usize,
}

impl Model for LineBlock {
    ghost use Rattle.std.specs.Prelude.{ℕ, ◌≤◌, List, take};
    ghost use Rattle.calltrace.specs.declared.line.TheConstants.{LINE_ROOM};

    ghost Value = { List ℕ };

    ghost view = { λ l. take l.laid l.bytes };

    ghost invariant = { λ l. l.laid ≤ LINE_ROOM };
}

impl LineBlock {
    pub fn new() -> LineBlock
        ensures { result ≡ [] }
    {
        LineBlock {
            bytes: [0; LINE_ROOM],
            laid: 0,
        }
    }

    pub fn laid(&self) -> &[u8]
        ensures value { result.now ≡ self.now }
        ensures upper_bound { length self.now ≤ LINE_ROOM }
    {
        &self.bytes[..self.laid]
    }

    pub fn has_room(&self) -> bool
        ensures value { result ≡ leb (length self.now + line_most) LINE_ROOM }
        ensures upper_bound { length self.now ≤ LINE_ROOM }
    {
        self.laid + LINE_MOST <= LINE_ROOM
    }

    // After the lines are written.
    pub fn clear(&mut self)
        ensures { self.new ≡ [] }
    {
        self.laid = 0;
    }

    // Begins anew, with the header.
    pub fn begin(&mut self)
        ensures value { self.new ≡ header }
        ensures upper_bound { length self.new ≤ line_most }
    {
        self.clear();
        self.put(b"answer state plane bytes place\n");
    }

    #[tactic(auto, unfolding(crate::specs::Line::line_of))]
    pub fn put_line(&mut self, line: Line)
        requires line_most_in_bounds { length self.old + line_most ≤ LINE_ROOM }
        requires answer_bound { line.answer < 10 }
        ensures value { self.new ≡ self.old ++ line_bytes line }
        ensures upper_bound { length self.new ≤ length self.old + line_most }
    {
        self.put_digit(line.answer);
        self.put(b" ");
        self.put_name(line.state);
        self.put_column(line.plane);
        self.put_column(line.count);
        self.put_column(line.place);
        self.put(b"\n");
    }

    // The end of the input, at which a record of which `rest` bytes came has a line too.
    pub fn put_end(&mut self, call: Call, rest: usize)
        requires { length self.old + line_most ≤ LINE_ROOM }
        ensures value { self.new ≡ self.old ++ end_lines rest call }
        ensures upper_bound { length self.new ≤ length self.old + line_most }
    {
        if rest > 0 {
            self.put_line(Line::last(call));
        }
    }

    fn put(&mut self, text: &[u8])
        requires { length self.old + length text.now ≤ LINE_ROOM }
        ensures { self.new ≡ self.old ++ text.now }
    {
        let end = self.laid + text.len();
        self.bytes[self.laid..end].copy_from_slice(text);
        self.laid = end;
    }

    fn put_digit(&mut self, digit: u8)
        requires room { length self.old < LINE_ROOM }
        requires digit_bound { digit < 10 }
        ensures { self.new ≡ self.old ++ code digit }
    {
        self.put(&[b'0' + digit]);
    }

    // By hand: `write!` says what it wrote only where it answers `Ok`, and no contract says that it does so where there is room (tried).
    #[tactic(auto, unfolding(crate::specs::Line::decimal))]
    fn put_number(&mut self, n: u8)
        requires { length self.old + 3 ≤ LINE_ROOM }
        ensures value { self.new ≡ self.old ++ decimal n }
        ensures upper_bound { length self.new ≤ length self.old + 3 }
    {
        if n >= 100 {
            self.put_digit(n / 100);
        }
        if n >= 10 {
            self.put_digit(n / 10 % 10);
        }
        self.put_digit(n % 10);
    }

    // A space, and a number behind it: one copy where the number has one digit, as most have.
    #[tactic(auto, unfolding(crate::specs::Line::decimal, crate::specs::Line::code))]
    fn put_column(&mut self, n: u8)
        requires { length self.old + 4 ≤ LINE_ROOM }
        ensures value { self.new ≡ self.old ++ 32 ∷ decimal n }
        ensures upper_bound { length self.new ≤ length self.old + 4 }
    {
        if n < 10 {
            self.put(&[b' ', b'0' + n]);
        } else {
            self.put(b" ");
            self.put_number(n);
        }
    }

    // Not `Display`, which would go through `write!` (see `put_number`). A copy in each arm, whose length is then known: one for all calls `memcpy`.
    fn put_name(&mut self, state: State)
        requires { length self.old + 15 ≤ LINE_ROOM }
        ensures value { self.new ≡ self.old ++ name_of state }
        ensures upper_bound { length self.new ≤ length self.old + 15 }
    {
        match state {
            State::Idle => self.put(b"IDLE"),
            State::MoCallSetup => self.put(b"MO-CALL-SETUP"),
            State::MtCallSetup => self.put(b"MT-CALL-SETUP"),
            State::CallActive => self.put(b"CALL-ACTIVE"),
            State::Wait => self.put(b"WAIT"),
            State::CallDisconnect => self.put(b"CALL-DISCONNECT"),
        }
    }
}
