// The records of a block of input: where each ends, the lines of those that are there whole, and the rest that more input completes.
ghost use Rattle.std.specs.Prelude.{◌≡◌, ℕ, ◌+◌, ◌-◌, ◌<◌, ◌≤◌, ◌++◌, List, [], length, take, drop, IfOk, OnErr, is_err};
ghost use Rattle.calltrace.specs.Counts.{count_of, count_told};
ghost use Rattle.calltrace.specs.Line.{line_most, line_for};
ghost use Rattle.calltrace.specs.Block.{ahead_in, as_ahead, AheadFits, outcome_of, PauseIn, Traced};

use crate::line::{LINE_ROOM, Line, LineBlock};
use callcontrol::call::Call;
use callcontrol::step::step;
use std::io;
use std::io::{Read, Stdin};
use std::marker::Model;

// Room for the longest record and for a read of as many bytes, so that few reads are needed.
const INPUT_ROOM: usize = 131072;

// A length under 4, which no record has.
#[derive(Clone, Copy, Debug, PartialEq, Eq)]
pub struct TooShort;

// Why the lines of a block stop where no length is too short.
#[derive(Clone, Copy, Debug, PartialEq, Eq)]
pub enum Pause {
    // There is no room for another line.
    Full,
    // What is left is no whole record.
    Cut,
}

// The bytes that were read and are not yet passed.
#[derive(Drop)]
pub struct InputBlock {
    bytes: [u8; INPUT_ROOM],
    at: usize,
    held: usize,
}

impl Model for InputBlock {
    ghost use Rattle.std.specs.Prelude.{ℕ, ◌≤◌, List, take, drop};
    ghost use Rattle.calltrace.specs.declared.block.TheConstants.{INPUT_ROOM};

    ghost Value = { List ℕ };

    ghost view = { λ b. drop b.at (take b.held b.bytes) };

    ghost invariant = { λ b. (b.at ≤ b.held) × (b.held ≤ INPUT_ROOM) };
}

impl InputBlock {
    pub fn new() -> InputBlock
        ensures { result ≡ [] }
    {
        InputBlock {
            bytes: [0; INPUT_ROOM],
            at: 0,
            held: 0,
        }
    }

    pub fn left(&self) -> &[u8]
        ensures value { result.now ≡ self.now }
        ensures upper_bound { length self.now ≤ INPUT_ROOM }
    {
        &self.bytes[self.at..self.held]
    }

    fn pass(&mut self, count: usize)
        requires { count ≤ length self.old }
        ensures { self.new ≡ drop count self.old }
    {
        self.at += count;
    }

    // Reads once behind the bytes that are left: how many came, 0 at the end of the input. The room that is asked for tells the end of
    // the input from a block that is full.
    pub fn read_on(&mut self, input: Stdin) -> io::Result<usize>
        requires { length self.old < INPUT_ROOM }
        ensures left_unchanged { take (length self.old) self.new ≡ self.old }
        ensures length_value { length self.new ≡ length self.old + count_told result }
        ensures upper_bound { length self.new ≤ INPUT_ROOM }
    {
        let rest = keep_rest(&mut self.bytes, self.at, self.held);
        self.at = 0;
        self.held = rest;
        let count = read_behind(input, &mut self.bytes, rest)?;
        self.held = rest + count;
        Ok(count)
    }
}

// Moves the bytes from `at` to `held` to the front, and answers how many they are. Not a method: what it promises is of the bytes,
// and a method's contract tells a block by its value alone, the bytes that are left.
#[tactic(auto, using(crate::proofs::Moved::moved))]
fn keep_rest(bytes: &mut [u8], at: usize, held: usize) -> usize
    requires at_le_held { at ≤ held }
    requires held_in_bounds { held ≤ length bytes.old }
    ensures at_value { result + at ≡ held }
    ensures bytes_after { take result bytes.new ≡ drop at (take held bytes.old) }
{
    bytes.copy_within(at..held, 0);
    held - at
}

// What the answer of a read comes to: an error is a read that failed, by which no byte came; any other says how many came.
fn came_by(got: io::Result<usize>, room: &[u8]) -> io::Result<usize>
    ensures count_value { count_told result ≡ count_of got (length room.now) }
    ensures count_in_bounds { count_told result ≤ length room.now }
    ensures failed_value { is_err result ≡ is_err got }
{
    Ok(got?.min(room.len()))
}

// Reads once behind the bytes that are held: how many came, 0 at the end of the input.
fn read_behind(mut input: Stdin, bytes: &mut [u8], held: usize) -> io::Result<usize>
    requires { held < length bytes.old }
    ensures count_in_bounds { held + count_told result ≤ length bytes.old }
    ensures bytes_unchanged { take held bytes.new ≡ take held bytes.old }
{
    let room = &mut bytes[held..];
    let got = input.read(room);
    came_by(got, room)
}

// The length of the record at the front, where it is there whole. Its first two bytes say the length.
#[tactic(auto, unfolding(crate::specs::Block::ahead_in, records::specs::Bytes::number))]
fn record_ahead(s: &[u8]) -> Result<Option<usize>, TooShort>
    ensures value { as_ahead result ≡ ahead_in s.now }
    ensures ahead_fits { AheadFits (length s.now) (as_ahead result) }
{
    let &[low, high, ..] = s else {
        return Ok(None);
    };
    let size = u16::from_le_bytes([low, high]) as usize;
    if size < 4 {
        return Err(TooShort);
    }
    if s.len() < size {
        return Ok(None);
    }
    Ok(Some(size))
}

// One record through the step, which is lent 64 bytes for messages, and its line.
fn turn(call: Call, event: &[u8], lines: &mut LineBlock) -> Call
    requires { length lines.old + line_most ≤ LINE_ROOM }
    ensures call_value { result ≡ (outcome_of call event.now).call }
    ensures laid { lines.new ≡ lines.old ++ line_for (outcome_of call event.now) }
{
    let mut messages = [0; 64];
    let (answer, next, count, place) = match step(call, event, &mut messages) {
        Ok(stepped) => (0, stepped.call, stepped.count as u8, 0),
        Err(refusal) => (refusal.number(), call, 0, refusal.place()),
    };
    lines.put_line(Line {
        answer,
        state: next.state,
        plane: next.plane,
        count,
        place,
    });
    next
}

// The lines of the whole records that are left, for as long as there is room for a line.
#[tactic(auto, using(crate::proofs::Traces::traced_none, crate::proofs::Traces::traced_more))]
pub fn drain(
    block: &mut InputBlock,
    call: &mut Call,
    lines: &mut LineBlock,
) -> Result<Pause, TooShort>
    ensures pause_in { PauseIn block.new (LINE_ROOM - length lines.new) result }
    ensures upper_bound { length lines.new ≤ LINE_ROOM }
    ensures traced { Traced block.old call.old lines.old block.new call.new lines.new }
{
    while lines.has_room() {
        let Some(size) = record_ahead(block.left())? else {
            return Ok(Pause::Cut);
        };
        *call = turn(*call, &block.left()[..size], lines);
        block.pass(size);
    }
    Ok(Pause::Full)
}
