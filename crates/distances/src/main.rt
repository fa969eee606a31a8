// `distances`: reads a sheet, runs over it, and prints the distances. Here bytes are only moved. Which bytes the system gave and took no contract can say;
// specs/Answered says what the text is of the bytes that stand in the buffer, and how much was read and printed.
#![tactic(auto)]

ghost use Rattle.std.specs.Prelude.{◌+◌, ◌*◌, ◌≤◌, ◌<◌, ◌≡◌, length};
ghost use Rattle.answers.specs.Answers.{longest_text};
ghost use Rattle.report.specs.Report.{longest_sheet};
ghost use Rattle.distances.specs.Answered.{distance_words, image_words, Answered};

use std::io::{Stdin, Stdout};
use streams::Printed;

// One byte more than the longest sheet has, so that a longer one shows.
const BUFFER: usize = 65537;
// "with 1,024 distance words and an image of 6,182".
const DISTANCES: usize = 1024;

const IMAGE: usize = 6182;
// The bytes of the longest text: a first line, and a line for each vertex.
const TEXT: usize = 68675;

// The bytes that came, and the receipt for what was printed.
#[derive(Clone, Copy)]
struct Moved {
    came: usize,
    printed: Printed,
}

fn main(rt: HostRuntime) {
    let mut input = rt.stdin();
    let mut output = rt.stdout();
    let mut buffer = [0u8; BUFFER];
    let mut distances = [0u64; DISTANCES];
    let mut image = [0u64; IMAGE];
    let mut out = [0u8; TEXT];
    answer_all(
        &mut input,
        &mut output,
        &mut buffer,
        &mut distances,
        &mut image,
        &mut out,
    );
}

// Reads the sheet, and prints what is reported of it.
fn answer_all(
    input: &mut Stdin,
    output: &mut Stdout,
    buffer: &mut [u8],
    distances: &mut [u64; DISTANCES],
    image: &mut [u64; IMAGE],
    out: &mut [u8],
) -> Moved
    requires { (longest_sheet < length buffer.old) × (length distances.old ≡ distance_words) × (length image.old ≡ image_words) × (longest_text * (distance_words + 1) ≤ length out.old) }
    ensures { Answered buffer.new distances.old image.old out.old result distances.new image.new out.new }
{
    let came = streams::read_all(input, buffer);
    let end = report::answer(&buffer[..came], distances, image, out);
    Moved {
        came,
        printed: streams::print(output, &out[..end]),
    }
}
