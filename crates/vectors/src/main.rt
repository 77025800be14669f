// Answers a stream of questions, one line of text for each, as the second program of tests/ does.
//
// A record of standard input is its kind, the length of its body in two bytes, and its body. A record of no known kind, with a body
// that is no question of its kind, or with more numbers than a fixed place holds (`vectors_text`, places.rt) is answered `malformed`. A stream that
// ends inside a record ends the answers.
#![tactic(auto)]

#[cfg(test)]
mod tests; // tests.rt: the questions into a lent slice

use vectors_files::{answer_read, answer_write};
use vectors_plans::curves::{answer_corners, answer_raw};
use vectors_plans::plans::{answer_placement, answer_span};
use vectors_text::line::{Line, empty_line, put_malformed};

// Standard input, read by its number: the programs take no handle.
const STDIN: i32 = 0;

// Standard output.
const STDOUT: i32 = 1;

// Room for the longest body.
const BODY: usize = 65_535;

// Every loop ends: so many records are answered at most.
const MOST_RECORDS: u32 = 4_000_000_000;

// Puts the answer to one record into the line. The kinds are numbers that are matched here alone: an enum of them would list each twice.
fn answer(kind: u8, body: &[u8], line: &mut Line) {
    match kind {
        1 => answer_raw(body, line),
        2 => answer_corners(body, line),
        3 => answer_placement(body, line),
        4 => answer_span(body, line),
        5 => answer_read(body, line),
        6 => answer_write(body, line),
        _ => put_malformed(line),
    }
}

// Reads the next record and writes its answer; whether there was a whole record, and its answer was written.
fn answer_next(body: &mut [u8; BODY], line: &mut Line) -> bool {
    let mut head = [0; 3];
    if io::read_full(STDIN, &mut head) < 3 {
        return false;
    }
    let [kind, low, high] = head;
    let size = usize::from(u16::from_le_bytes([low, high]));
    let body = &mut body[..size];
    if io::read_full(STDIN, body) < size {
        return false;
    }
    line.clear();
    answer(kind, body, line);
    if line.try_push('\n').is_err() {
        return false;
    }
    io::write_all(STDOUT, line.as_bytes())
}

// Answers record after record.
fn main() {
    let mut body = [0; BODY];
    let mut line = empty_line();
    for _ in 0..MOST_RECORDS {
        if !answer_next(&mut body, &mut line) {
            return;
        }
    }
}
