// The start of an answer to a question on a plan.
use std::fmt::Write;
use units::Refusal;
use vectors_text::line::{write_refused, write_start};

// The start of an answer, as far as the line has room: its results, or the refusal with a 0 for each of them. Results of four bytes come by
// `as`: no `usize::from` takes one.
pub fn put_answer<const RESULTS: usize, W: Write>(
    line: &mut W,
    word: &str,
    answer: Result<[usize; RESULTS], Refusal>,
) {
    let _ = match answer {
        Ok(results) => write_start(line, word, 0, &results),
        Err(refusal) => write_refused(line, word, refusal, &[0; RESULTS]),
    };
}
