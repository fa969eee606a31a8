// Test 17 of a sheet, in one pass over all rows. The vertices u ascend, and each row has a cursor that only moves on: v's stands at the first target that
// is not below u, so that v's row names u exactly where u stands there. All cursors together pass each half-edge once.
#![tactic(auto)]

ghost use Rattle.std.specs.Prelude.{◌≡◌, ℕ, ◌+◌, ◌*◌, ◌<◌, ◌≤◌};
ghost use Rattle.sheet_format.specs.Numbers.{most_vertices, word};
ghost use Rattle.sheet_format.specs.Rows.{names};
ghost use Rattle.sheet_format.specs.Sheet.{row, row_one_sided, one_sided};
ghost use Rattle.sheet_words.specs.Places.{half_words, Ranked};
ghost use Rattle.sheet_sides.specs.Cursors.{Cursors, Sought};

use sheet_words::{MOST_VERTICES, Row};

// The places of the two smaller tables of cursors.
const SMALL: usize = 1024;

const MIDDLE: usize = 16384;

// The first half-edge of a row, from `from` on, whose target is not below u; the row's length where there is none.
fn seek(row: Row<'_>, from: usize, u: usize) -> usize
    requires { (from ≤ row.count) × ((i : ℕ) → i < from → word row.bytes.now (row.first + half_words * i) < u) }
    ensures { Sought (word row.entry.bytes.now) row.entry.first row.entry.count u result }
{
    for j in from..row.count {
        if u <= row.target(j) {
            return j;
        }
    }
    row.count
}

// Whether v's row names u. The cursor of v moves past the targets below u.
fn answered(s: &[u8], n: usize, u: usize, v: usize, passed: &mut [u32]) -> bool
    requires { (Ranked s.now n) × (v < n) × (Cursors s.now n u passed.old) }
    ensures { (result ≡ names (row s.now v) u) × (Cursors s.now n u passed.new) }
{
    let row = sheet_words::row_at(s, n, v);
    let r = seek(row, passed[v] as usize, u);
    passed[v] = r as u32;
    r < row.count && row.target(r) == u
}

// Some half-edge of u's row is not answered.
#[tactic(auto, using(crate::proofs::Cursor::unanswered_turn))]
fn row_one_sided(s: &[u8], n: usize, u: usize, passed: &mut [u32]) -> bool
    requires { (Ranked s.now n) × (u < n) × (Cursors s.now n u passed.old) }
    ensures { (result ≡ row_one_sided s.now u) × (Cursors s.now n u passed.new) }
{
    let row = sheet_words::row_at(s, n, u);
    for j in 0..row.count {
        if !answered(s, n, u, row.target(j), passed) {
            return true;
        }
    }
    false
}

// Some row is one-sided, with a table of cursors that all stand at their row's first half-edge.
#[tactic(auto, unfolding(sheet_format::specs::Sheet::one_sided))]
fn one_sided_with(s: &[u8], n: usize, passed: &mut [u32]) -> bool
    requires { (Ranked s.now n) × (Cursors s.now n 0 passed.old) }
    ensures { result ≡ one_sided s.now }
{
    for u in 0..n {
        if row_one_sided(s, n, u, passed) {
            return true;
        }
    }
    false
}

// With a table of CURSORS cursors, at least one for each row, and none past those that a sheet may need.
fn one_sided_in<const CURSORS: usize>(s: &[u8], n: usize) -> bool
    requires { (Ranked s.now n) × (n ≤ CURSORS) × (CURSORS ≤ most_vertices) }
    ensures { result ≡ one_sided s.now }
{
    let mut passed = [0u32; CURSORS];
    one_sided_with(s, n, &mut passed)
}

// 17: "a one-sided edge": "If u's row names v, v's row must name u." The least table that has a cursor for each row is cleared and used.
pub fn one_sided(s: &[u8], n: usize) -> bool
    requires { Ranked s.now n }
    ensures { result ≡ one_sided s.now }
{
    if n <= SMALL {
        one_sided_in::<SMALL>(s, n)
    } else if n <= MIDDLE {
        one_sided_in::<MIDDLE>(s, n)
    } else {
        one_sided_in::<MOST_VERTICES>(s, n)
    }
}
