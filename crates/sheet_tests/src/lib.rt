// The tests 12 to 16 of a sheet, and 11 after 12: a function for each, over the whole sheet. Each says what the test of Rattle.sheet_format.specs.Sheet
// says, and relies on no more than what the tests before it have left (Rattle.sheet_words.specs.Places).
#![tactic(auto)]

ghost use Rattle.std.specs.Prelude.{◌≡◌, ℕ, ◌<◌, ◌≤◌, Bool, length};
ghost use Rattle.sheet_format.specs.Numbers.{head_bytes};
ghost use Rattle.sheet_format.specs.Rows.{any, some};
ghost use Rattle.sheet_format.specs.Sheet.{out_of_range, misfit, wrong_starts, strays, wrong_targets, heavy, wrong_weights};
ghost use Rattle.sheet_words.specs.Places.{Laid, Rowed, RowAt};
ghost use Rattle.sheet_words.specs.Rows.{half_edges_of};
ghost use Rattle.sheet_words.specs.declared.Row.{Row};

use sheet_words::{
    HALF_EDGES_AT, HEAD_BYTES, MOST_HALF_EDGES, MOST_WEIGHT, ROWS_OFFSET_AT, Row, STARTS_AT,
    STARTS_OFFSET_AT, VERTICES_AT,
};

// 12: "n or h is out of range".
#[tactic(auto, unfolding(sheet_format::specs::Sheet::out_of_range))]
pub fn out_of_range(s: &[u8]) -> bool
    requires { head_bytes ≤ length s.now }
    ensures { result ≡ out_of_range s.now }
{
    let n = sheet_words::word_at(s, VERTICES_AT);
    let h = sheet_words::word_at(s, HALF_EDGES_AT);
    sheet_words::wrong_count(n) || MOST_HALF_EDGES < h
}

// 11: "an offset or the length wrong for its n and h (judged after 12)". Any n and h of 32 bits will do: no sum wraps.
#[tactic(auto, unfolding(sheet_format::specs::Sheet::misfit))]
pub fn misfits(s: &[u8]) -> bool
    requires { head_bytes ≤ length s.now }
    ensures { result ≡ misfit s.now }
{
    let n = sheet_words::word_at(s, VERTICES_AT);
    let h = sheet_words::word_at(s, HALF_EDGES_AT);
    sheet_words::word_at(s, STARTS_OFFSET_AT) != HEAD_BYTES
        || sheet_words::word_at(s, ROWS_OFFSET_AT) != sheet_words::rows_offset(n)
        || s.len() != sheet_words::length_of(n, h)
}

// 14: "row starts wrong": "Row starts begin at 0, never fall, end at h."
#[tactic(auto, using(crate::proofs::Turns::starts_turn))]
pub fn wrong_starts(s: &[u8], n: usize) -> bool
    requires { Laid s.now n }
    ensures { result ≡ wrong_starts s.now }
{
    let mut here = sheet_words::word_at(s, STARTS_AT);
    if here != 0 {
        return true;
    }
    for u in 0..n {
        let next = sheet_words::word_at(s, STARTS_AT + u + 1);
        if next < here {
            return true;
        }
        here = next;
    }
    let h = sheet_words::word_at(s, HALF_EDGES_AT);
    here != h
}

// Some target of a row is no vertex, u itself, or not above the one before.
#[tactic(auto, using(crate::proofs::Turns::strays_turn))]
fn row_strays(row: Row<'_>, n: usize, u: usize) -> bool
    ensures { result ≡ strays n u 0 (half_edges_of row.entry) }
{
    let mut floor = 0;
    for j in 0..row.count {
        let v = row.target(j);
        if n <= v || v == u || v < floor {
            return true;
        }
        floor = v + 1;
    }
    false
}

// Some weight of a row is above 65,535.
fn row_heavy(row: Row<'_>) -> bool
    ensures { result ≡ any heavy (half_edges_of row.entry) }
{
    (0..row.count).any(|j| MOST_WEIGHT < row.weight(j))
}

// Some vertex and its row pass a test.
#[tactic(auto, using(crate::proofs::Turns::rows_turn))]
fn any_row<'a, F: Fn(usize, Row<'a>) -> bool>(s: &'a [u8], n: usize, test: F) -> bool
    requires rowed { Rowed s.now n }
    requires callable { (u : ℕ) (row : Row) → F.pre test u row }
    ensures { (t : ℕ → Bool) → ((u : ℕ) (row : Row) (r : Bool) → u < n → row.bytes.now ≡ s.now → RowAt s.now u row.first row.count → F.post test u row r → r ≡ t u) → result ≡ some n t }
{
    // Kept: tried as `(0..n).any(|u| ..)`; that `row_at` and `test` may be called stayed open in the inner closure (`any-requires-clause-callable`).
    for u in 0..n {
        if test(u, sheet_words::row_at(s, n, u)) {
            return true;
        }
    }
    false
}

// 15: "a target >= n, own vertex, or not ascending".
pub fn wrong_targets(s: &[u8], n: usize) -> bool
    requires { Rowed s.now n }
    ensures { result ≡ wrong_targets s.now }
{
    any_row(s, n, |u, row| row_strays(row, n, u))
}

// 16: "weight above 65,535".
pub fn wrong_weights(s: &[u8], n: usize) -> bool
    requires { Rowed s.now n }
    ensures { result ≡ wrong_weights s.now }
{
    any_row(s, n, |_, row| row_heavy(row))
}
