// The lines of the vertices with their distances, added to a text. What is written is specs/Rows.
#![tactic(auto)]

ghost use Rattle.std.specs.Prelude.{◌+◌, ◌*◌, ◌≤◌, length};
ghost use Rattle.pieces.specs.Texts.{Adds};
ghost use Rattle.answers.specs.Answers.{longest_text};
ghost use Rattle.vertex_lines.specs.Rows.{row_text, rows_text};

use pair::Pair;
use pieces::Text;

// "a line `V D` for each vertex ascending".
pub fn put_rows(text: &mut Text, distances: &[u64], n: usize)
    requires { (n ≤ length distances.now) × (text.old.end + longest_text * n ≤ length text.old.bytes.now) }
    ensures { Adds text.old (rows_text distances.now n) text.new × (text.new.end ≤ text.old.end + longest_text * n) }
{
    for v in 0..n {
        put_row(text, v as u64, distances[v]);
    }
}

// "`-` for unreached".
#[tactic(auto, unfolding(crate::specs::Rows::row_text))]
fn put_row(text: &mut Text, vertex: u64, distance: u64)
    requires { text.old.end + longest_text ≤ length text.old.bytes.now }
    ensures { Adds text.old (row_text vertex distance) text.new × (text.new.end ≤ text.old.end + longest_text) }
{
    if distance == Pair::KEY_LIMIT {
        answers::unreached(text, vertex);
    } else {
        answers::distance(text, vertex, distance);
    }
}
