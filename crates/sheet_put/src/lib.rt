// A sheet written from its half-edges as words in order: the header, the row starts, and each word as its target and weight. The sheet that the
// words make is `sheet_of`; that it is the sheet of edge records, where the words are theirs in order, is the law `sheet_written`.
#![tactic(auto)]

ghost use Rattle.std.specs.Prelude.{◌≡◌, [], ◌∷◌, ℕ, ◌+◌, ◌*◌, ◌<◌, ◌≤◌, length, get_or};
ghost use Rattle.std.proofs.lemmas.List.Edits.{sets};
ghost use Rattle.sheet_format.specs.Numbers.{most_vertices, head_bytes, word_bytes, bytes_of};
ghost use Rattle.sheet_format.specs.Sheet.{rows_at, sheet_length};
ghost use Rattle.sheet_format.specs.Writer.{pairs, starts};
ghost use Rattle.sheet_order.specs.Words.{row_of, row_in, halves_of, Rises};
ghost use Rattle.sheet_put.specs.Sheet.{head_of, row_ends, sheet_of, RowEnd};

use sheet_words::{
    HALF_EDGES_AT, HEAD_BYTES, ROWS_OFFSET_AT, SOURCE_AT, STARTS_AT, STARTS_OFFSET_AT, VERTICES_AT,
    WORD_BYTES,
};

// A target or a weight is below this.
pub const BASE: u64 = 65536;

// The row starts stand behind the header; the row u ends where the next start, u behind this one, says.
const ENDS_AT: usize = STARTS_AT + 1;

// The k-th number of the target becomes v, its lowest byte first.
fn put_word(t: &mut [u8], k: usize, v: usize)
    requires { word_bytes * k + word_bytes ≤ length t.old }
    ensures { t.new ≡ sets t.old (word_bytes * k) (bytes_of (v ∷ [])) }
{
    let at = WORD_BYTES * k;
    let bytes = v.to_le_bytes();
    // Kept: four stores; with copy_from_slice the loop of put_halves is not vectorized, and a whole call on 400 records took 1.14 times as long.
    t[at] = bytes[0];
    t[at + 1] = bytes[1];
    t[at + 2] = bytes[2];
    t[at + 3] = bytes[3];
}

// The half-edges of the words, each as its target and weight, from the k-th number on.
fn put_halves(t: &mut [u8], k: usize, words: &[u64])
    requires { word_bytes * (k + 2 * length words.now) ≤ length t.old }
    ensures { t.new ≡ sets t.old (word_bytes * k) (bytes_of (pairs (halves_of words.now))) }
{
    for (j, x) in words.iter().enumerate() {
        put_word(t, k + 2 * j, (*x / BASE % BASE) as usize);
        put_word(t, k + 2 * j + 1, (*x % BASE) as usize);
    }
}

// The end of the row u among words in order: the first from j on that is of a later row.
fn row_end(words: &[u64], j: usize, u: usize) -> usize
    requires { (j ≤ length words.now) × ((i : ℕ) → i < j → row_of (get_or words.now i 0) < u + 1) }
    ensures { RowEnd words.now u result }
{
    for r in j..words.len() {
        if (u as u64) < words[r] / BASE / BASE {
            return r;
        }
    }
    words.len()
}

// The row starts 1 to n of words in order: each is the end of the row before.
fn put_ends(t: &mut [u8], n: usize, words: &[u64])
    requires { (rows_at n ≤ length t.old) × (Rises 0 words.now) }
    ensures { t.new ≡ sets t.old (head_bytes + word_bytes) (bytes_of (row_ends words.now n)) }
{
    let mut j = 0;
    for u in 0..n {
        j = row_end(words, j, u);
        put_word(t, ENDS_AT + u, j);
    }
}

// The row starts 0 to n of words in order.
fn put_starts(t: &mut [u8], n: usize, words: &[u64])
    requires { (rows_at n ≤ length t.old) × (Rises 0 words.now) }
    ensures { t.new ≡ sets t.old head_bytes (bytes_of (starts (row_in words.now) n)) }
{
    put_word(t, STARTS_AT, 0);
    put_ends(t, n, words);
}

// "n, h, offset 20, offset 20+4(n+1), source"
fn put_header(t: &mut [u8], n: usize, h: usize, v: usize)
    requires { (head_bytes ≤ length t.old) × (n ≤ most_vertices) }
    ensures { t.new ≡ sets t.old 0 (bytes_of (head_of n h v)) }
{
    put_word(t, VERTICES_AT, n);
    put_word(t, HALF_EDGES_AT, h);
    put_word(t, STARTS_OFFSET_AT, HEAD_BYTES);
    put_word(t, ROWS_OFFSET_AT, sheet_words::rows_offset(n));
    put_word(t, SOURCE_AT, v);
}

// The whole sheet from words in order.
pub fn put_sheet(t: &mut [u8], n: usize, v: usize, words: &[u64])
    requires { (sheet_length n (length words.now) ≤ length t.old) × (n ≤ most_vertices) × (Rises 0 words.now) }
    ensures { t.new ≡ sets t.old 0 (bytes_of (sheet_of n v words.now)) }
{
    put_header(t, n, words.len(), v);
    put_starts(t, n, words);
    put_halves(t, ENDS_AT + n, words);
}
