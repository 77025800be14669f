// The program `spans`: one plan file from standard input, and its listing on standard output, each line in one call.
#![tactic(auto)]

ghost use Rattle.std.specs.Prelude.{◌≤◌, ◌≡◌, length, MatchOption};
ghost use Rattle.io.specs.Counts.{IsPrefixLen};
ghost use Rattle.listing.specs.Promise.{room};
ghost use Rattle.reader.specs.Reading.{places_in};
ghost use Rattle.lines.specs.Held.{ReadInto};

use reader::{Contents, FileRefusal, Places};
use units::Workloads;

// The most bytes of a file that are read: no longer file is accepted, and every longer one answers the same.
const MOST_BYTES: usize = 8_192;

// Standard input.
const STDIN: i32 = 0;

// Standard output.
const STDOUT: i32 = 1;

// A line as it was built, written in one call; whether it was written.
fn print(line: &[u8], built: Option<usize>) -> bool
    requires { MatchOption built ⊥ (λ n. n ≤ length line.now) }
{
    let Some(length) = built else {
        return false;
    };
    io::write_all(STDOUT, &line[..length])
}

// Standard input to its end, but no more than there is room for; how many bytes there were.
fn read_input(file: &mut [u8]) -> usize
    requires { length file.old ≡ 8_192 }
    ensures { IsPrefixLen result file.new }
{
    io::read_full(STDIN, file)
}

// The lines of a file's listing, one after the other. A line that cannot be written ends it.
fn print_lines(file: &[u8], answer: Result<Contents, FileRefusal>, places: Places, line: &mut [u8])
    requires read_into { ReadInto file.now answer (places_in places) }
    requires file_len_bound { (length file.now ≤ 8_192) × (room ≤ length line.old) }
{
    let count = lines::lines_in(file, answer);
    for n in 0..count {
        let built = lines::line_of(file, n, answer, places, line);
        if !print(line, built) {
            return;
        }
    }
}

// One file's listing. The places are fixed: there is no heap.
fn main() {
    let mut file = [0u8; MOST_BYTES];
    let mut lengths = [0u16; 64];
    let mut budgets = [0u16; 512];
    let mut analysed = [0u8; 256];
    let mut computing = [0u32; 256];
    let mut requests = [0u32; 256];
    let mut horizons = [0u16; 256];
    let mut line = [0u8; listing::ROOM];
    let length = read_input(&mut file);
    let answer = reader::read(
        &file[..length],
        &mut lengths,
        &mut budgets,
        &mut analysed,
        &mut computing,
        &mut requests,
        &mut horizons,
    );
    let places = Places {
        lengths: &lengths,
        budgets: &budgets,
        workloads: Workloads {
            analysed: &analysed,
            computing: &computing,
            requests: &requests,
            horizons: &horizons,
        },
    };
    print_lines(&file[..length], answer, places, &mut line);
}
