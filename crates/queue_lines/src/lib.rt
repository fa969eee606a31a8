// The queue program but for its reading and writing: input in chunks of any length is cut into lines, and each line is answered on the lent image, its text in lent
// bytes. What it does is specs/Session, on the lines of the whole input.
#![tactic(auto)]

ghost use Rattle.std.specs.Prelude.{ℕ, ◌+◌, ◌*◌, ◌≤◌, ◌<◌, List, length};
ghost use Rattle.lines.specs.Lines.{room, Holds};
ghost use Rattle.answers.specs.Answers.{longest_text};
ghost use Rattle.queue_lines.specs.Session.{Goes, Turns, Finishes};

use lines::gather;
use pieces::Text;
use replies::respond;

// Where the next byte of a chunk stands, how many bytes of the line are held, and where the text ends.
#[derive(Clone, Copy)]
pub struct Served {
    pub next: usize,
    pub held: usize,
    pub end: usize,
}

// Answers a chunk of the input: every line whose newline is in it. The text goes to the start of `out`, and what is left of the last line stays in the buffer.
pub fn serve(
    chunk: &[u8],
    line: &mut [u8],
    held: usize,
    image: &mut [u64],
    out: &mut [u8],
) -> Served
    requires { (held ≤ room) × (room ≤ length line.old) × (longest_text * length chunk.now ≤ length out.old) }
    ensures { Goes line.old held chunk.now image.old out.old 0 line.new result.held image.new out.new result.end × (result.held ≤ room) × (result.end ≤ length out.old) }
{
    let mut s = Served {
        next: 0,
        held,
        end: 0,
    };
    // Kept: the step is a line, which `serve_line` finds as it copies it; `split` would look for each newline twice.
    while s.next < chunk.len() {
        s = serve_line(chunk, s, line, image, out);
    }
    s
}

// Takes one line on, and answers it where its newline came.
fn serve_line(chunk: &[u8], s: Served, line: &mut [u8], image: &mut [u64], out: &mut [u8]) -> Served
    requires { (s.next < length chunk.now) × (s.held ≤ room) × (room ≤ length line.old) × (s.end + longest_text ≤ length out.old) }
    ensures { Turns chunk.now s.next line.old s.held image.old out.old s.end result line.new image.new out.new }
{
    let g = gather(chunk, s.next, line, s.held);
    if g.ended {
        let mut text = Text {
            bytes: out,
            end: s.end,
        };
        respond(&line[..g.held], image, &mut text);
        Served {
            next: g.next,
            held: 0,
            end: text.end,
        }
    } else {
        Served {
            next: g.next,
            held: g.held,
            end: s.end,
        }
    }
}

// "The last line may lack its newline": answers what is held at the end of the input.
pub fn finish(line: &[u8], held: usize, image: &mut [u64], out: &mut [u8]) -> usize
    requires { (held ≤ room) × (room ≤ length line.now) × (longest_text ≤ length out.old) }
    ensures { ((l : List ℕ) → Holds line.now l held → Finishes l image.old out.old image.new out.new result) × (result ≤ longest_text) }
{
    let last = &line[..held];
    if last.is_empty() {
        return 0;
    }
    let mut text = Text::new(out);
    respond(last, image, &mut text);
    text.end
}
