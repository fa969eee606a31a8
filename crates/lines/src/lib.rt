// Input in chunks of any length, cut into lines of any length: the line that is being read is held in a small buffer. What it holds is specs/Lines.
#![tactic(auto)]

ghost use Rattle.std.specs.Prelude.{◌≤◌, length};
ghost use Rattle.text.specs.Stored.{Stored};
ghost use Rattle.lines.specs.Lines.{room, kept, Gathers};

// The bytes held of a line: one more than the longest command has.
pub const ROOM: usize = 36;

const NEWLINE: u8 = b'\n';

// Where the next byte of a chunk stands, how many bytes of the line are held, and whether its newline came.
// Kept: `ended` is no sign that the others are absent, and the clause Gathers, which theorems of queue_lines cite, names all three.
#[derive(Clone, Copy)]
pub struct Gathered {
    pub next: usize,
    pub held: usize,
    pub ended: bool,
}

// Takes the bytes of a line from `from` on into the buffer, up to its newline or the chunk's end.
pub fn gather(chunk: &[u8], from: usize, line: &mut [u8], held: usize) -> Gathered
    requires { (from ≤ length chunk.now) × (held ≤ room) × (room ≤ length line.old) }
    ensures { Gathers chunk.now from line.old held result line.new }
{
    let rest = &chunk[from..];
    match rest.iter().position(|b| *b == NEWLINE) {
        Some(along) => Gathered {
            next: from + along + 1,
            held: keep(line, held, &rest[..along]),
            ended: true,
        },
        None => Gathered {
            next: chunk.len(),
            held: keep(line, held, rest),
            ended: false,
        },
    }
}

// The bytes of a piece behind those held, as far as there is room.
fn keep(line: &mut [u8], held: usize, piece: &[u8]) -> usize
    requires { (held ≤ room) × (room ≤ length line.old) }
    ensures { Stored line.old held (kept held piece.now) result line.new × (result ≤ room) }
{
    let n = piece.len().min(ROOM - held);
    line[held..held + n].copy_from_slice(&piece[..n]);
    held + n
}
