// Questions on one interval's curve: raw stall and corners.
ghost use Rattle.std.specs.Prelude.{◌≤◌, length};

use crate::answers::put_answer;
use std::fmt::Write;
use units::Requests;
use vectors_text::body::{ends_in_twos, head_at, number_at, numbers_from};
use vectors_text::filling::in_slice;
use vectors_text::line::{put_malformed, put_place};
use vectors_text::places::{ROOM, unwritten};

// Cores, core, Q, the mark, r, and the budgets to the body's end.
pub fn answer_raw<W: Write>(body: &[u8], line: &mut W) {
    if !ends_in_twos(body, 11) {
        return put_malformed(line);
    }
    let budgets = numbers_from(body, 11, ROOM);
    let rate = Requests(number_at(body, 7));
    let answer = interval::raw_stall(head_at(body, 2), &budgets, number_at(body, 1), rate);
    put_answer(line, "raw", answer.map(|stall| [stall.0 as usize]))
}

// Cores, core, Q, the mark, the room of the place, and the budgets to the body's end.
pub fn answer_corners<W: Write>(body: &[u8], line: &mut W) {
    if !ends_in_twos(body, 8) {
        return put_malformed(line);
    }
    let budgets = numbers_from(body, 8, ROOM);
    let room = usize::from(number_at::<u8>(body, 7));
    let mut place = unwritten();
    let place = &mut place[..room];
    let answer = interval::corners(head_at(body, 2), &budgets, number_at(body, 1), place);
    put_answer(line, "corners", answer.map(|count| [usize::from(count)]));
    put_place(line, place)
}

// `answer_raw` into a slice, from its front on; the answer's length, or the slice's where there is no room for all of it.
pub fn raw_question(body: &[u8], line: &mut [u8]) -> usize
    ensures { result ≤ length line.new }
{
    in_slice(line, |line| answer_raw(body, line))
}

// `answer_corners` into a slice, from its front on; the answer's length, or the slice's where there is no room for all of it.
pub fn corners_question(body: &[u8], line: &mut [u8]) -> usize
    ensures { result ≤ length line.new }
{
    in_slice(line, |line| answer_corners(body, line))
}
