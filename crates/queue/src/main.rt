// `queue`: reads lines of commands, and prints what specs/Session of queue_lines says. Here bytes are only moved: in by chunks, out as the texts come. Which bytes the
// system gave and took no contract can say; specs/Answered says what the texts are of the bytes that stand in the chunk, and how much was read and printed.
#![tactic(auto)]

ghost use Rattle.std.specs.Prelude.{ℕ, ◌*◌, ◌≤◌, ◌<◌, ◌≡◌, List, length};
ghost use Rattle.answers.specs.Answers.{longest_text};
ghost use Rattle.lines.specs.Lines.{room, Holds};
ghost use Rattle.queue_lines.specs.Session.{Finishes};
ghost use Rattle.queue.specs.Reads.{ended};
ghost use Rattle.queue.specs.Answered.{cleared, Turned, Answered};

use lines::ROOM;
use std::io::{Stdin, Stdout};
use streams::Printed;

// The words of the image, for 1,024 ids.
const IMAGE: usize = 6182;
// The bytes of a chunk, and of the longest text that its lines can have.
const CHUNK: usize = 512;

const TEXT: usize = 34304;
// How often is read at most: 2^48, a number that no run uses up.
const READS: usize = 1 << 48;

// One read: the bytes that came, how many are held of the last line, and the receipt for the text.
#[derive(Clone, Copy)]
struct Turn {
    came: usize,
    held: usize,
    printed: Printed,
}

// The whole run: the bytes that came, those of the last read, and the receipt for what was printed.
#[derive(Clone, Copy)]
struct Moved {
    came: usize,
    last: usize,
    printed: Printed,
}

fn main(rt: HostRuntime) {
    let mut input = rt.stdin();
    let mut output = rt.stdout();
    let mut chunk = [0u8; CHUNK];
    let mut line = [0u8; ROOM];
    let mut image = [0u64; IMAGE];
    let mut out = [0u8; TEXT];
    answer_all(
        &mut input,
        &mut output,
        &mut chunk,
        &mut line,
        &mut image,
        &mut out,
    );
}

// Answers the input to its end.
fn answer_all(
    input: &mut Stdin,
    output: &mut Stdout,
    chunk: &mut [u8; CHUNK],
    line: &mut [u8; ROOM],
    image: &mut [u64; IMAGE],
    out: &mut [u8; TEXT],
) -> Moved
    requires { image.old ≡ cleared }
    ensures { Answered result image.new }
{
    let mut came = 0;
    let mut last = 0;
    let mut held = 0;
    let mut printed = streams::nothing();
    for _ in 0..READS {
        let t = answer_some(input, output, chunk, line, held, image, out);
        last = t.came;
        held = t.held;
        came += last;
        printed = streams::both(printed, t.printed);
        if ended(last, printed) {
            break;
        }
    }
    let p = answer_last(output, line, held, image, out);
    Moved {
        came,
        last,
        printed: streams::both(printed, p),
    }
}

// Reads once, answers the lines that came, and prints the text.
fn answer_some(
    input: &mut Stdin,
    output: &mut Stdout,
    chunk: &mut [u8],
    line: &mut [u8; ROOM],
    held: usize,
    image: &mut [u64; IMAGE],
    out: &mut [u8],
) -> Turn
    requires { (held ≤ room) × (longest_text * length chunk.old ≤ length out.old) }
    ensures { Turned chunk.new line.old held image.old out.old result line.new image.new out.new }
{
    let came = streams::read_some(input, chunk);
    let s = queue_lines::serve(&chunk[..came], line, held, image, out);
    Turn {
        came,
        held: s.held,
        printed: streams::print(output, &out[..s.end]),
    }
}

// The input has ended, or a text was not taken.
fn ended(came: usize, printed: Printed) -> bool
    ensures { result ≡ ended came printed.whole }
{
    came == 0 || !streams::is_whole(printed)
}

// "The last line may lack its newline": answers what is held at the end.
fn answer_last(
    output: &mut Stdout,
    line: &[u8; ROOM],
    held: usize,
    image: &mut [u64; IMAGE],
    out: &mut [u8],
) -> Printed
    requires { (held ≤ room) × (longest_text ≤ length out.old) }
    ensures { ((l : List ℕ) → Holds line.now l held → Finishes l image.old out.old image.new out.new result.bytes) × (result.bytes ≤ longest_text) }
{
    let end = queue_lines::finish(line, held, image, out);
    streams::print(output, &out[..end])
}
