// Reads event records from standard input and prints a line for what the step answers to each.
#![tactic(auto)]

ghost use Rattle.std.specs.Prelude.{◌≡◌, ◌+◌, ◌<◌, ◌≤◌, [], cond, ◌||◌, ltb, length};
ghost use Rattle.calltrace.specs.Counts.{count_told};
ghost use Rattle.calltrace.specs.Trace.{DueIf, InHandIf};
ghost use Rattle.calltrace.specs.End.{completes, tells_unread, tells_unwritten};

use crate::block::{InputBlock, Pause, TooShort, drain};
use crate::line::{Line, LineBlock};
use callcontrol::call::Call;
use std::io;
use std::io::{Stderr, Stdin, Stdout, Write};

mod block;
mod line;

// A proved loop has to end, and nothing says that the input does. So a trace has a number of turns that no run uses up, since each turn
// reads or writes a byte at least, and that keeps the counts in range.
const TURNS: usize = 1 << 46;

// Why a trace ends.
#[derive(Clone, Copy, Debug, PartialEq, Eq)]
enum End {
    // The input has ended, and its last line is laid.
    Complete,
    // A read that failed has ended the input, and its last line is laid.
    Unread,
    // A write has failed.
    Unwritten,
    // No run has as many turns.
    Spent,
}

impl End {
    // Whether the lines in hand are the last.
    fn is_complete(self) -> bool
        ensures { result ≡ completes self }
    {
        matches!(self, End::Complete | End::Unread)
    }
}

// How many bytes were read, and how many bytes of lines were written. They are there for the promise, which speaks of all of these.
#[derive(Clone, Copy)]
struct Counts {
    read: usize,
    written: usize,
}

// What a trace comes to, beside the lines in hand.
#[derive(Clone, Copy)]
struct Ended {
    counts: Counts,
    end: End,
}

// What writing the last lines came to: how many bytes of them were due, and how many of these the system took.
#[derive(Clone, Copy)]
struct LastLines {
    due: usize,
    done: usize,
}

// How many bytes were handed on of the complaint about the input, and of the one about the output.
#[derive(Clone, Copy)]
struct Complaints {
    input: usize,
    output: usize,
}

// Writes once, and answers how many bytes the system took. Every line goes out here. Whether the trace is
// complete and the counts are there for the promise: the bytes that are handed on come next in the trace of what was read, behind those
// that were written and done.
fn write_part(
    mut output: Stdout,
    part: &[u8],
    complete: bool,
    counts: Counts,
    done: usize,
) -> io::Result<usize>
    requires { DueIf complete counts.read (counts.written + done) part.now }
    ensures { count_told result ≤ length part.now }
{
    output.write(part)
}

// Writes lines that are due, and answers how many of their bytes the system took: fewer than all where a write failed.
#[tactic(auto, using(crate::proofs::Traces::left_due))]
fn write_lines(output: Stdout, lines: &[u8], complete: bool, counts: Counts) -> usize
    requires { DueIf complete counts.read counts.written lines.now }
    ensures { result ≤ length lines.now }
{
    let mut left = lines;
    while !left.is_empty() {
        let done = lines.len() - left.len();
        match write_part(output, left, complete, counts, done) {
            Ok(0) | Err(_) => return done,
            Ok(put) => left = &left[put..],
        }
    }
    lines.len()
}

// What is to be written of some bytes: all of them, or none.
fn due_if(when: bool, text: &[u8]) -> &[u8]
    ensures { result.now ≡ cond when text.now [] }
{
    if when { text } else { &[] }
}

// Hands a complaint on, and answers how many bytes it has. Every complaint goes out here.
fn hand_on(mut errors: Stderr, text: &[u8]) -> usize
    ensures { result ≡ length text.now }
{
    let _ = errors.write_all(text);
    text.len()
}

// Complains where something failed, and answers how many bytes it handed on: all of the text, or none.
fn complain_if(errors: Stderr, failed: bool, text: &[u8]) -> usize
    ensures { result ≡ cond failed (length text.now) 0 }
{
    hand_on(errors, due_if(failed, text))
}

// Writes every line but those in hand at the end.
fn trace(input: Stdin, output: Stdout, lines: &mut LineBlock) -> Ended
    ensures { InHandIf (completes result.end) (tells_unwritten result.end) result.counts.read result.counts.written lines.new }
{
    let mut block = InputBlock::new();
    let mut call = Call::fresh();
    let mut counts = Counts {
        read: 0,
        written: 0,
    };
    lines.begin();
    for _turn in 0..TURNS {
        match drain(&mut block, &mut call, lines) {
            Ok(Pause::Full) => {
                let laid = lines.laid();
                let done = write_lines(output, laid, false, counts);
                if done < laid.len() {
                    return Ended {
                        counts,
                        end: End::Unwritten,
                    };
                }
                counts.written += done;
                lines.clear();
            }
            Ok(Pause::Cut) => {
                let rest = block.left().len();
                let end = match block.read_on(input) {
                    Ok(count) => {
                        counts.read += count;
                        if count > 0 {
                            continue;
                        }
                        End::Complete
                    }
                    Err(_) => End::Unread,
                };
                lines.put_end(call, rest);
                return Ended { counts, end };
            }
            Err(TooShort) => {
                lines.put_line(Line::last(call));
                return Ended {
                    counts,
                    end: End::Complete,
                };
            }
        }
    }
    Ended {
        counts,
        end: End::Spent,
    }
}

// Writes the lines in hand exactly where they are complete.
#[tactic(auto, using(crate::proofs::Traces::due_at_end))]
fn write_last(output: Stdout, lines: &LineBlock, last: Ended) -> LastLines
    requires { InHandIf (completes last.end) (tells_unwritten last.end) last.counts.read last.counts.written lines.now }
    ensures due_value { result.due ≡ cond (completes last.end) (length lines.now) 0 }
    ensures done_le_due { result.done ≤ result.due }
{
    let complete = last.end.is_complete();
    let due = due_if(complete, lines.laid());
    LastLines {
        due: due.len(),
        done: write_lines(output, due, complete, last.counts),
    }
}

// Complains of the input where a read has failed, and of the output where a write has. The texts have 41 and 45 bytes.
fn complain(errors: Stderr, last: Ended, end: LastLines) -> Complaints
    ensures input_value { result.input ≡ cond (tells_unread last.end) 41 0 }
    ensures output_value { result.output ≡ cond (tells_unwritten last.end || ltb end.done end.due) 45 0 }
{
    let unread = last.end == End::Unread;
    let unwritten = last.end == End::Unwritten;
    Complaints {
        input: complain_if(
            errors,
            unread,
            b"calltrace: standard input cannot be read\n",
        ),
        output: complain_if(
            errors,
            unwritten | (end.done < end.due),
            b"calltrace: standard output cannot be written\n",
        ),
    }
}

fn main(rt: HostRuntime) {
    let mut lines = LineBlock::new();
    let last = trace(rt.stdin(), rt.stdout(), &mut lines);
    let end = write_last(rt.stdout(), &lines, last);
    complain(rt.stderr(), last, end);
}
