// Edge records as judged words, and the sheet written from them, or the first refusal of 22, 23, 24, 13 and 25. A record is two words, one for each
// of its rows; a record that 22 or 23 refuses is two marks instead, so that the words hold all that the refusals ask of the records.
// What the words bring and leave is `Put`; that it is what the records bring and leave is the law `words_call`.
#![tactic(auto)]

ghost use Rattle.std.specs.Prelude.{[], ◌∷◌, ◌≡◌, ◌+◌, ◌*◌, ◌≤◌, min, length};
ghost use Rattle.std.proofs.lemmas.List.Edits.{sets};
ghost use Rattle.sheet_format.specs.Numbers.{most_vertices, most_half_edges};
ghost use Rattle.sheet_format.specs.Sheet.{sheet_length};
ghost use Rattle.sheet_order.specs.Words.{doubled as doubled_in};
ghost use Rattle.sheet_records.specs.Judged.{HEAVY as heavy_mark, STRAY as stray_mark, joining, half_word, judged_words, edges_of, holds as holds_in, Put};

use refusals::Refusal;
use sheet_put::BASE;
use sheet_words::MOST_WEIGHT;

// The marks of a record that 23, and that 22, refuses. No half-edge's word is as large.
// Kept: a mark is a word among the words that are sorted; a Result for each word would need a second local array (no heap, fixed memory).
const HEAVY: u64 = 1 << 48;

const STRAY: u64 = 1 << 49;

// The names of the code are those of the meanings.
fn marks_agree()
    ensures { (HEAVY ≡ heavy_mark) × (STRAY ≡ stray_mark) }
{}

// The word of the half-edge from u to t of weight w, or its mark.
#[tactic(auto, unfolding(crate::specs::Judged::half_word))]
pub fn half_word(n: u64, u: u64, t: u64, w: u64) -> u64
    requires { n ≤ most_vertices }
    ensures { result ≡ half_word n u t w }
{
    if n <= u || n <= t || u == t {
        return STRAY;
    }
    if (MOST_WEIGHT as u64) < w {
        return HEAVY;
    }
    (u * BASE + t) * BASE + w
}

// The two words of the i-th record.
pub fn put_record(words: &mut [u64], i: usize, n: u64, one: u64, other: u64, weight: u64)
    requires { (2 * i + 2 ≤ length words.old) × (n ≤ most_vertices) }
    ensures { words.new ≡ sets words.old (2 * i) (judged_words n (joining one other weight ∷ [])) }
{
    words[2 * i] = half_word(n, one, other, weight);
    words[2 * i + 1] = half_word(n, other, one, weight);
}

// The least of three lengths.
pub fn shortest(a: usize, b: usize, c: usize) -> usize
    ensures { result ≡ min a (min b c) }
{
    a.min(b).min(c)
}

// The words of the first m records of three slices.
// Kept: the page asks for "parallel number slices first"; all three are read at one index, which is the record's place among the words too.
#[tactic(auto, using(crate::proofs::Gathering::length_edges))]
pub fn gather_slices(
    words: &mut [u64],
    n: u64,
    ones: &[u64],
    others: &[u64],
    weights: &[u64],
    m: usize,
)
    requires { (2 * m ≤ length words.old) × (n ≤ most_vertices) × (m ≡ length (edges_of ones.now others.now weights.now)) }
    ensures { words.new ≡ sets words.old 0 (judged_words n (edges_of ones.now others.now weights.now)) }
{
    for i in 0..m {
        put_record(words, i, n, ones[i], others[i], weights[i]);
    }
}

// One of the words is the mark.
// Kept: a loop; with contains a whole call on 400 records took 1.03 times as long, and for an any the proof stopped at grind's limit of instances.
fn holds(words: &[u64], mark: u64) -> bool
    ensures { result ≡ holds_in mark words.now }
{
    for x in words {
        if *x == mark {
            return true;
        }
    }
    false
}

// Two words next to each other have the same row and target.
fn doubled(words: &[u64]) -> bool
    ensures { result ≡ doubled_in words.now }
{
    words.windows(2).any(|w| w[0] / BASE == w[1] / BASE)
}

// "Exact length 20 + 4(n+1) + 8h."
pub fn sheet_length(n: u64, h: usize) -> usize
    requires { (n ≤ most_vertices) × (h ≤ most_half_edges) }
    ensures { result ≡ sheet_length n h }
{
    sheet_words::length_of(n as usize, h)
}

// Writes the sheet of the words, whatever their order, or gives the first refusal. The words are sorted on the way;
// nothing of the target is written before the last refusal is judged.
#[tactic(auto, using(sheet_order::proofs::Sorted::rises_sort), unfolding(crate::specs::Judged::words_refusal, crate::specs::Judged::words_later))]
pub fn put_records(target: &mut [u8], n: u64, source: u64, words: &mut [u64]) -> Result<(), Refusal>
    requires { (n ≤ most_vertices) × (length words.old ≤ most_half_edges) }
    ensures { Put n source words.old target.old result target.new }
{
    if holds(words, STRAY) {
        return Err(Refusal::RecordEnds);
    }
    if holds(words, HEAVY) {
        return Err(Refusal::RecordWeight);
    }
    sorting::sort_words(words);
    if doubled(words) {
        return Err(Refusal::RecordTwice);
    }
    if sheet_words::wrong_source(n as usize, source as usize) {
        return Err(Refusal::Source);
    }
    if target.len() < sheet_length(n, words.len()) {
        return Err(Refusal::ShortTarget);
    }
    sheet_put::put_sheet(target, n as usize, source as usize, words);
    Ok(())
}
