// OUTWARD. The writer of sheets: n, a source and a lent list of edge records, in any order, and the target that takes the sheet. Any slices, any
// numbers. What each call answers and leaves is Rattle.runs.specs.Write `write_call`. The records become words in a local array, in one of three
// sizes; sorting them takes m log m steps for m records.
#![tactic(auto)]

ghost use Rattle.std.specs.Prelude.{◌≡◌, ◌*◌, ◌≤◌, false, List, length};
ghost use Rattle.std.proofs.lemmas.List.Edits.{sets};
ghost use Rattle.sheet_format.specs.Numbers.{most_vertices};
ghost use Rattle.sheet_format.specs.Writer.{Edge as Joined, too_many};
ghost use Rattle.runs.specs.Write.{write_call};
ghost use Rattle.sheet_records.specs.Judged.{judged_words, edges_of};
ghost use Rattle.sheet_writer.specs.Answers.{outcome, records_of};

use refusals::Refusal;
use sheet_words::MOST_RECORDS;

// The words of the three local arrays.
const SMALL: usize = 1024;

const MIDDLE: usize = 32768;

const LARGE: usize = 524288;

// Edge records that are lent, in either form: how many they are, and the words of all, put at the front of an array.
trait Records {
    ghost edges: { Self → List Joined };

    fn count(&self) -> usize
        ensures { result ≡ length (edges self.now) };

    fn gather(&self, words: &mut [u64], n: u64)
        requires { (2 * length (edges self.now) ≤ length words.old) × (n ≤ most_vertices) }
        ensures { words.new ≡ sets words.old 0 (judged_words n (edges self.now)) };
}

// Three slices, and as many records as the shortest has entries: the k-th record joins the k-th of `ones` and the k-th of `others`.
#[derive(Clone, Copy)]
struct Slices<'a> {
    ones: &'a [u64],
    others: &'a [u64],
    weights: &'a [u64],
}

impl Records for Slices<'_> {
    ghost edges = { λ s. edges_of s.ones.now s.others.now s.weights.now };

    #[tactic(auto, using(sheet_records::proofs::Gathering::length_edges))]
    fn count(&self) -> usize {
        sheet_records::shortest(self.ones.len(), self.others.len(), self.weights.len())
    }

    fn gather(&self, words: &mut [u64], n: u64) {
        sheet_records::gather_slices(words, n, self.ones, self.others, self.weights, self.count());
    }
}

// "edge records (two ends, one weight)"; laid out as C does, since the C face takes a slice of them
#[repr(C)]
#[derive(Clone, Copy)]
pub struct Edge {
    pub one: u64,
    pub other: u64,
    pub weight: u64,
}

impl Records for &[Edge] {
    ghost edges = { λ s. records_of s.now };

    fn count(&self) -> usize {
        self.len()
    }

    // The thin loop.
    fn gather(&self, words: &mut [u64], n: u64) {
        for (i, e) in self.iter().enumerate() {
            sheet_records::put_record(words, i, n, e.one, e.other, e.weight);
        }
    }
}

// The call after 21, with a local array of so many words: refusals 22, 23, 24, 13, 25, or the sheet.
fn write_in<const WORDS: usize, R: Records>(
    target: &mut [u8],
    n: u64,
    source: u64,
    records: &R,
) -> Result<u64, Refusal>
    requires { (too_many n (R.edges records.now) ≡ false) × (2 * length (R.edges records.now) ≤ WORDS) × (WORDS ≤ LARGE) }
    ensures { outcome result target.new ≡ write_call n source (R.edges records.now) target.old }
{
    let mut words = [0u64; WORDS];
    records.gather(&mut words, n);
    let h = 2 * records.count();
    sheet_records::put_records(target, n, source, &mut words[..h])?;
    Ok(sheet_records::sheet_length(n, h) as u64)
}

// "returns the length"; "A refusal returns its number alone.": the call, with the least array that is long enough.
#[tactic(auto, unfolding(runs::specs::Write::write_call, sheet_format::specs::Writer::write_refusal, sheet_format::specs::Writer::later_target))]
fn write_records<R: Records>(
    target: &mut [u8],
    n: u64,
    source: u64,
    records: &R,
) -> Result<u64, Refusal>
    ensures { outcome result target.new ≡ write_call n source (R.edges records.now) target.old }
{
    let m = records.count();
    if sheet_words::wrong_count(n as usize) || MOST_RECORDS < m {
        return Err(Refusal::RecordCount);
    }
    if 2 * m <= SMALL {
        return write_in::<SMALL, _>(target, n, source, records);
    }
    if 2 * m <= MIDDLE {
        return write_in::<MIDDLE, _>(target, n, source, records);
    }
    write_in::<LARGE, _>(target, n, source, records)
}

// Writes the sheet of the records of three slices, as many as the shortest has entries: the k-th record joins the k-th of `ones` and the k-th of
// `others` with the k-th of `weights`. Refusals 21, 22, 23, 24, 13, 25.
pub fn write_slices(
    target: &mut [u8],
    n: u64,
    source: u64,
    ones: &[u64],
    others: &[u64],
    weights: &[u64],
) -> Result<u64, Refusal>
    ensures { outcome result target.new ≡ write_call n source (edges_of ones.now others.now weights.now) target.old }
{
    let records = Slices {
        ones,
        others,
        weights,
    };
    write_records(target, n, source, &records)
}

// Writes the sheet of the records of a slice. Refusals 21, 22, 23, 24, 13, 25.
pub fn write(target: &mut [u8], n: u64, source: u64, edges: &[Edge]) -> Result<u64, Refusal>
    ensures { outcome result target.new ≡ write_call n source (records_of edges.now) target.old }
{
    write_records(target, n, source, &edges)
}
