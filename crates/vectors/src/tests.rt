// The questions into a lent slice, by which no program goes: each holds the line that the second program prints, cut where the slice ends.
use vectors_files::{read_question, write_question};
use vectors_plans::curves::{corners_question, raw_question};
use vectors_plans::plans::{placement_question, span_question};

// Whether slices of several rooms hold the text as far as they have room, and behind it the 7 of before.
fn holds<Question: Fn(&[u8], &mut [u8]) -> usize>(
    question: Question,
    body: &[u8],
    text: &[u8],
) -> bool
    requires { Question.IsAlwaysCallable question }
{
    for room in [0, 1, 6, 12, 17, text.len(), 64] {
        let mut line = [7; 64];
        let line = &mut line[..room.min(64)];
        let length = question(body, line);
        let front = line.get(..length) == text.get(..length);
        let rest = line.iter().skip(length).all(|byte| *byte == 7);
        if length != text.len().min(line.len()) || !front || !rest {
            return false;
        }
    }
    true
}

#[test]
fn a_question_into_a_slice(rt: HostRuntime) {
    let raw = [4, 3, 16, 0, 0, 0, 0, 5, 0, 0, 0, 4, 0, 4, 0, 5, 0, 3, 0];
    assert!(rt; holds(raw_question, &raw, b"raw 0 11"));
    let corners = [1, 1, 8, 0, 0, 0, 0, 2, 8, 0];
    assert!(rt; holds(corners_question, &corners, b"corners 0 2 : 0 8"));
    let placement = [
        1, 1, 2, 0, 0, 0, 0, 2, 0, 0, 0, 1, 0, 0, 0, 1, 1, 1, 0, 2, 0,
    ];
    assert!(rt; holds(placement_question, &placement, b"placement 0 0 : 2"));
    let span = [
        2, 1, 12, 0, 0, 0, 1, 0, 48, 0, 0, 253, 243, 2, 0, 255, 255, 0, 0, 0, 0,
    ];
    assert!(rt; holds(span_question, &span, b"span 3 0 0 0 :"));
    let read = [2, 0, 4, 0, 0, 0, 0, 0, 0, 0, 0, 0, 10, 0, 3, 0];
    assert!(rt;
        holds(
            read_question,
            &read,
            b"read 21 0 0 0 0 0 0 : 7 7 : 7 7 7 7 : : : :"
        )
    );
    let write = [
        1, 2, 0, 0, 0, 255, 10, 0, 1, 1, 0, 0, 0, 0, 0, 0, 0, 0, 0, 126, 57, 2, 0,
    ];
    assert!(rt; holds(write_question, &write, b"write 23 0 : 7 7 7 7 7 7 7 7 7 7"));
    assert!(rt; holds(raw_question, &[], b"malformed"));
}
