// A sheet's fixed numbers by name, its 32-bit numbers, what its counts and its source stand for, and where a vertex's row and its half-edges stand.
// The meanings are Rattle.sheet_format.specs; every other crate of code that reads or writes a sheet cites these names.
#![tactic(auto)]

ghost use Rattle.std.specs.Prelude.{◌≡◌, ◌+◌, ◌*◌, ◌<◌, ◌≤◌, length};
ghost use Rattle.sheet_format.specs.Numbers.{most_vertices, most_half_edges, most_records, most_weight, no_choice, head_bytes, word_bytes, half_bytes, word_limit, word};
ghost use Rattle.sheet_format.specs.Sheet.{vertices, half_edges, source, start, rows_at, sheet_length, wrong_count, wrong_source, chosen_source};
ghost use Rattle.sheet_words.specs.Places.{half_words, Rowed, RowAt, TargetAt, WeightAt};

// "n from 1 to 65,536"; "h (half-edges, at most 524,288)"; "more than 262,144 records"; "Weights are 0 to 65,535."
pub const MOST_VERTICES: usize = 65536;

pub const MOST_HALF_EDGES: usize = 524288;

pub const MOST_RECORDS: usize = 262144;

pub const MOST_WEIGHT: usize = 65535;

// "Source 4,294,967,295 means no choice was made"
pub const NO_CHOICE: usize = 4294967295;

// "Exact length 20 + 4(n+1) + 8h.": the bytes of the header, of a number, of a half-edge.
pub const HEAD_BYTES: usize = 20;

pub const WORD_BYTES: usize = 4;

pub const HALF_BYTES: usize = 8;

// "n, h, offset 20, offset 20+4(n+1), source; then n+1 row starts; then h rows of target and weight": which number is which.
pub const VERTICES_AT: usize = 0;

pub const HALF_EDGES_AT: usize = 1;

pub const STARTS_OFFSET_AT: usize = 2;

pub const ROWS_OFFSET_AT: usize = 3;

pub const SOURCE_AT: usize = 4;

pub const STARTS_AT: usize = 5;

// The numbers of a half-edge: its target, then its weight.
pub const HALF_WORDS: usize = 2;

pub const WEIGHT: usize = 1;

// The fixed numbers of the code are those of the meanings.
fn numbers_agree()
    ensures { (MOST_VERTICES ≡ most_vertices) × (MOST_HALF_EDGES ≡ most_half_edges) × (MOST_RECORDS ≡ most_records) × (MOST_WEIGHT ≡ most_weight) }
{}

// Those of the layout, and the source of no choice.
fn layout_agrees()
    ensures { (HEAD_BYTES ≡ head_bytes) × (WORD_BYTES ≡ word_bytes) × (HALF_BYTES ≡ half_bytes) × (NO_CHOICE ≡ no_choice) }
{}

// The places of the code are those of the meanings, whatever the bytes and the vertex.
fn places_agree(s: &[u8], u: usize)
    ensures { (vertices s.now ≡ word s.now VERTICES_AT) × (half_edges s.now ≡ word s.now HALF_EDGES_AT) × (source s.now ≡ word s.now SOURCE_AT) × (start s.now u ≡ word s.now (STARTS_AT + u)) }
{}

// ---- numbers

// "Little-endian 32-bit numbers": the k-th.
#[tactic(auto, unfolding(sheet_format::specs::Numbers::number))]
pub fn word_at(s: &[u8], k: usize) -> usize
    requires { word_bytes * (k + 1) ≤ length s.now }
    ensures { (result ≡ word s.now k) × (result < word_limit) }
{
    let at = WORD_BYTES * k;
    u32::from_le_bytes([s[at], s[at + 1], s[at + 2], s[at + 3]]) as usize
}

// "offset 20+4(n+1)"
pub fn rows_offset(n: usize) -> usize
    requires { n < word_limit }
    ensures { result ≡ rows_at n }
{
    HEAD_BYTES + WORD_BYTES * (n + 1)
}

// "Exact length 20 + 4(n+1) + 8h."
pub fn length_of(n: usize, h: usize) -> usize
    requires { (n < word_limit) × (h < word_limit) }
    ensures { result ≡ sheet_length n h }
{
    rows_offset(n) + HALF_BYTES * h
}

// ---- n and the source, of a sheet that is read or to be written

// "n from 1 to 65,536" is broken.
pub fn wrong_count(n: usize) -> bool
    ensures { result ≡ wrong_count n }
{
    n == 0 || MOST_VERTICES < n
}

// 13: "source >= n and not the no-choice value".
#[tactic(auto, unfolding(sheet_format::specs::Sheet::wrong_source))]
pub fn wrong_source(n: usize, v: usize) -> bool
    ensures { result ≡ wrong_source n v }
{
    n <= v && v != NO_CHOICE
}

// The vertex that a stored source stands for: "Source 4,294,967,295 means no choice was made and stands for vertex 0."
#[tactic(auto, unfolding(sheet_format::specs::Sheet::chosen_source))]
pub fn chosen_source(n: usize, v: usize) -> usize
    ensures { result ≡ chosen_source n v }
{
    if v == NO_CHOICE { 0 } else { v }
}

// ---- rows

// A row where it stands: `count` half-edges, two numbers each, from the number `first` of the bytes on.
#[derive(Clone, Copy)]
pub struct Row<'a> {
    pub bytes: &'a [u8],
    pub first: usize,
    pub count: usize,
    pub ghost inside: { word_bytes * (first + half_words * count) ≤ length bytes.now },
}

impl<'a> Row<'a> {
    // The target of its j-th half-edge.
    pub fn target(&self, j: usize) -> usize
        requires { j < self.now.count }
        ensures { TargetAt self.now.bytes.now self.now.first j result }
    {
        target_at(self.bytes, self.first, j)
    }

    // Its weight.
    pub fn weight(&self, j: usize) -> usize
        requires { j < self.now.count }
        ensures { WeightAt self.now.bytes.now self.now.first j result }
    {
        weight_at(self.bytes, self.first, j)
    }
}

// u's row, behind 5 + (n+1) numbers.
pub fn row_at(s: &[u8], n: usize, u: usize) -> Row<'_>
    requires { (Rowed s.now n) × (u < n) }
    ensures { (result.bytes.now ≡ s.now) × RowAt s.now u result.first result.count }
{
    let here = word_at(s, STARTS_AT + u);
    let next = word_at(s, STARTS_AT + u + 1);
    Row {
        bytes: s,
        first: STARTS_AT + (n + 1) + HALF_WORDS * here,
        count: next - here,
    }
}

// The target of the j-th half-edge of a row that stands from the number `first` on.
#[tactic(auto, using(crate::proofs::Halves::half_nth))]
pub fn target_at(s: &[u8], first: usize, j: usize) -> usize
    requires { word_bytes * (first + half_words * (j + 1)) ≤ length s.now }
    ensures { TargetAt s.now first j result }
{
    word_at(s, first + HALF_WORDS * j)
}

// Its weight.
#[tactic(auto, using(crate::proofs::Halves::half_nth))]
pub fn weight_at(s: &[u8], first: usize, j: usize) -> usize
    requires { word_bytes * (first + half_words * (j + 1)) ≤ length s.now }
    ensures { WeightAt s.now first j result }
{
    word_at(s, first + HALF_WORDS * j + WEIGHT)
}
