// Text put into a lent place from an index on: words, and numbers in decimal. The rest of the place is kept.
// Place and index stay two arguments: a struct of both would have to promise at each step that its reference is still the same one.
#![tactic(auto)]

ghost use Rattle.std.specs.Prelude.{◌≡◌, [], ◌∷◌, ◌+◌, ◌*◌, ◌≤◌, length};
ghost use Rattle.meaning.specs.Listing.{decimal, spaced};
ghost use Rattle.text.specs.Put.{Put};
ghost use Rattle.text.specs.Number.{FiguresPut};

// A word, from an index on; the index after it.
fn put_word(line: &mut [u8], at: usize, word: &[u8]) -> usize
    requires { at + length word.now ≤ length line.old }
    ensures { Put word.now at line.old result line.new }
{
    let next = at + word.len();
    line[at..next].copy_from_slice(word);
    next
}

// How many digits a number has in decimal: 0 has as many as 1.
#[tactic(auto, using(crate::specs::Decimals::digit_count))]
fn digits(number: u32) -> usize
    ensures { (result ≡ length (decimal number)) × (result ≤ 10) }
{
    // `as`: usize has no From<u32>.
    number.max(1).ilog10() as usize + 1
}

// A number in decimal, from an index on; the index after it. The last digit is written first; by hand, since `write!` wants a writer and what
// is lent is a place of bytes, of which the rest is kept.
pub fn put_number(line: &mut [u8], at: usize, number: u32) -> usize
    requires { at + 10 ≤ length line.old }
    ensures { Put (decimal number) at line.old result line.new × (result ≤ at + 10) }
{
    let count = digits(number);
    let mut rest = number;
    for place in (0..count).rev() {
        // `as`: u8::try_from would give a Result for what is always a digit.
        line[at + place] = b'0' + (rest % 10) as u8;
        rest /= 10;
    }
    at + count
}

// A number after one space, from an index on; the index after it.
fn put_spaced(line: &mut [u8], at: usize, number: u32) -> usize
    requires { at + 11 ≤ length line.old }
    ensures { Put (spaced (number ∷ [])) at line.old result line.new × (result ≤ at + 11) }
{
    line[at] = b' ';
    put_number(line, at + 1, number)
}

// A word and its number after one space, from an index on; the index after it.
pub fn put_figure(line: &mut [u8], at: usize, word: &[u8], number: u32) -> usize
    requires { at + length word.now + 11 ≤ length line.old }
    ensures { FiguresPut word.now (number ∷ []) at line.old result line.new }
{
    put_figures(line, at, word, &[number])
}

// Each number after one space, from an index on; the index after the last.
fn put_numbers(line: &mut [u8], at: usize, numbers: &[u32]) -> usize
    requires { at + 11 * length numbers.now ≤ length line.old }
    ensures { Put (spaced numbers.now) at line.old result line.new × (result ≤ at + 11 * length numbers.now) }
{
    let mut after = at;
    for number in numbers {
        after = put_spaced(line, after, *number);
    }
    after
}

// A word and its numbers, each after one space, from an index on; the index after them.
pub fn put_figures(line: &mut [u8], at: usize, word: &[u8], numbers: &[u32]) -> usize
    requires { at + length word.now + 11 * length numbers.now ≤ length line.old }
    ensures { FiguresPut word.now numbers.now at line.old result line.new }
{
    let after = put_word(line, at, word);
    put_numbers(line, after, numbers)
}
