// Answers as text, each added to a text in lent bytes. What is written is specs/Answers; a line with its newline fits LONGEST bytes.
#![tactic(auto)]

ghost use Rattle.std.specs.Prelude.{◌+◌, ◌≤◌, length};
ghost use Rattle.pieces.specs.Texts.{Adds};
ghost use Rattle.answers.specs.Answers.{min_text, empty_text, refused_text, reached_text, distance_text, unreached_text, longest_text};

use pieces::Text;

// The bytes that the longest line takes: `min` with three numbers of 64 bits.
pub const LONGEST: usize = 67;

const SPACE: u8 = b' ';

const NEWLINE: u8 = b'\n';

// `min ID KEY REACH`.
pub fn min(text: &mut Text, id: u64, key: u64, reach: u64)
    requires { text.old.end + longest_text ≤ length text.old.bytes.now }
    ensures { Adds text.old (min_text id key reach) text.new × (text.new.end ≤ text.old.end + longest_text) }
{
    text.word(b"min ");
    text.field(id, SPACE);
    text.field(key, SPACE);
    text.field(reach, NEWLINE);
}

// `empty REACH`.
pub fn empty(text: &mut Text, empty_reach: u64)
    requires { text.old.end + longest_text ≤ length text.old.bytes.now }
    ensures { Adds text.old (empty_text empty_reach) text.new × (text.new.end ≤ text.old.end + longest_text) }
{
    text.word(b"empty ");
    text.field(empty_reach, NEWLINE);
}

// `refused NO`.
pub fn refused(text: &mut Text, number: u64)
    requires { text.old.end + longest_text ≤ length text.old.bytes.now }
    ensures { Adds text.old (refused_text number) text.new × (text.new.end ≤ text.old.end + longest_text) }
{
    text.word(b"refused ");
    text.field(number, NEWLINE);
}

// `reached R of N`.
pub fn reached(text: &mut Text, reached: u64, n: u64)
    requires { text.old.end + longest_text ≤ length text.old.bytes.now }
    ensures { Adds text.old (reached_text reached n) text.new × (text.new.end ≤ text.old.end + longest_text) }
{
    text.word(b"reached ");
    text.field(reached, SPACE);
    text.word(b"of ");
    text.field(n, NEWLINE);
}

// `V D`.
pub fn distance(text: &mut Text, vertex: u64, distance: u64)
    requires { text.old.end + longest_text ≤ length text.old.bytes.now }
    ensures { Adds text.old (distance_text vertex distance) text.new × (text.new.end ≤ text.old.end + longest_text) }
{
    text.field(vertex, SPACE);
    text.field(distance, NEWLINE);
}

// `V -`: "`-` for unreached".
pub fn unreached(text: &mut Text, vertex: u64)
    requires { text.old.end + longest_text ≤ length text.old.bytes.now }
    ensures { Adds text.old (unreached_text vertex) text.new × (text.new.end ≤ text.old.end + longest_text) }
{
    text.field(vertex, SPACE);
    text.word(b"-\n");
}
