// The text of an answer. `write_start` and the like put it behind what a line holds, any writer of text, and say whether the line took it;
// `put_place` and `put_malformed` do so and say nothing. `put_start`, `put_refused` and `malformed` put it into a lent slice, from its front on.
ghost use Rattle.std.specs.Prelude.{◌≡◌, ◌≤◌, ℕ, List, [], ◌∷◌, ◌++◌, length, codes, OnOk};
ghost use Rattle.std.specs.Fmt.{decimal};
ghost use Rattle.units.specs.Refusals.{number_of};
ghost use Rattle.vectors_text.specs.SliceLines.{Filled, FillsFront};
ghost use Rattle.vectors_text.specs.Text.{Holds, Prints, spaced};

use crate::slice_line::SliceLine;
use arrayvec::ArrayString;
use itoa::Buffer;
use std::fmt;
use std::fmt::{Display, Write};
use units::Refusal;

// A line of text, with room for the longest: six places of 8,192 numbers of at most 44 characters together.
pub type Line = ArrayString<400_000>;

// An empty line with all that room.
pub fn empty_line() -> Line
    ensures none { result.bytes ≡ [] }
    ensures room { length result.spare ≡ 400_000 }
{
    Line::new()
}

// Numbers, each after one space.
fn write_numbers<T: Display, W: Write>(line: &mut W, numbers: &[T]) -> fmt::Result
    ensures { (text : T → List ℕ) → Prints T.output text
        → (held : W → List ℕ) → Holds W.write_str_gives held
        → OnOk result (held line.new ≡ held line.old ++ spaced text numbers.now) }
{
    for number in numbers {
        write!(line, " {number}")?;
    }
    Ok(())
}

// The start of an answer: its word, the refusal's number or 0, and the results. It is a number, since 0 is no refusal's.
pub fn write_start<W: Write>(
    line: &mut W,
    word: &str,
    refusal: u8,
    results: &[usize],
) -> fmt::Result
    ensures { (held : W → List ℕ) → Holds W.write_str_gives held
        → OnOk result (held line.new ≡ held line.old ++ word.now ++ spaced decimal (refusal ∷ results.now)) }
{
    write!(line, "{word} {refusal}")?;
    write_numbers(line, results)
}

// The start of a refused answer, with what stands in the place of the results.
pub fn write_refused<W: Write>(
    line: &mut W,
    word: &str,
    refusal: Refusal,
    results: &[usize],
) -> fmt::Result
    ensures { (held : W → List ℕ) → Holds W.write_str_gives held
        → OnOk result (held line.new ≡ held line.old ++ word.now ++ spaced decimal (number_of refusal ∷ results.now)) }
{
    write_start(line, word, refusal.number(), results)
}

// A lent place of numbers, all of it.
pub fn write_place<T: Display, W: Write>(line: &mut W, place: &[T]) -> fmt::Result
    ensures { (text : T → List ℕ) → Prints T.output text
        → (held : W → List ℕ) → Holds W.write_str_gives held
        → OnOk result (held line.new ≡ held line.old ++ codes " :" ++ spaced text place.now) }
{
    line.write_str(" :")?;
    write_numbers(line, place)
}

// The answer to a record that is no question.
pub fn write_malformed<W: Write>(line: &mut W) -> fmt::Result
    ensures { (held : W → List ℕ) → Holds W.write_str_gives held
        → OnOk result (held line.new ≡ held line.old ++ codes "malformed") }
{
    line.write_str("malformed")
}

// A lent place of numbers, as far as the line has room.
pub fn put_place<T: Display, W: Write>(line: &mut W, place: &[T]) {
    let _ = write_place(line, place);
}

// The answer to a record that is no question, as far as the line has room.
pub fn put_malformed<W: Write>(line: &mut W) {
    let _ = write_malformed(line);
}

// Numbers into a slice, each after one space.
fn put_numbers(line: &mut SliceLine, numbers: &[usize])
    ensures { Filled line.old (spaced decimal numbers.now) line.new }
{
    let mut digits = Buffer::new();
    for number in numbers {
        line.put(b" ");
        line.put(digits.format(*number).as_bytes());
    }
}

// The start of an answer in a slice, as `write_start` has it with a word of any bytes, as far as there is room; its length.
pub fn put_start(line: &mut [u8], word: &[u8], refusal: u8, results: &[usize]) -> usize
    ensures within { result ≤ length line.new }
    ensures text { FillsFront (word.now ++ spaced decimal (refusal ∷ results.now)) line.old result line.new }
{
    let mut front = SliceLine::new(line);
    front.put(word);
    put_numbers(&mut front, &[usize::from(refusal)]);
    put_numbers(&mut front, results);
    front.len()
}

// The start of a refused answer in a slice, with what stands in the place of the results.
pub fn put_refused(line: &mut [u8], word: &[u8], refusal: Refusal, results: &[usize]) -> usize
    ensures within { result ≤ length line.new }
    ensures text { FillsFront (word.now ++ spaced decimal (number_of refusal ∷ results.now)) line.old result line.new }
{
    put_start(line, word, refusal.number(), results)
}

// The answer to a record that is no question, in a slice.
pub fn malformed(line: &mut [u8]) -> usize
    ensures within { result ≤ length line.new }
    ensures text { FillsFront (codes "malformed") line.old result line.new }
{
    let mut front = SliceLine::new(line);
    front.put(b"malformed");
    front.len()
}
