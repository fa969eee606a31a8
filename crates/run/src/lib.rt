// OUTWARD. The run over a lent sheet: least distances into a lent slice, with a lent image for its queue. Any bytes, any slices. What it answers and leaves is
// `RunMeets` (Rattle.runs.specs.Run). The distance slice is the run's only mark: a word holds a vertex's distance or its tentative one, and since a settled
// vertex is never offered less than its distance, which of the two it is need not be told.
#![tactic(auto)]

ghost use Rattle.std.specs.Prelude.{◌≡◌, ℕ, ◌<◌, ◌≤◌, length};
ghost use Rattle.std.proofs.lemmas.List.Edits.{sets};
ghost use Rattle.rules.specs.Pair.{InRange};
ghost use Rattle.rules.specs.Update.{absent};
ghost use Rattle.layout.specs.Image.{need};
ghost use Rattle.walks.specs.Walks.{distance_words};
ghost use Rattle.sheet_format.specs.Sheet.{row};
ghost use Rattle.sheet_words.specs.Places.{Rowed};
ghost use Rattle.sheet_words.specs.Rows.{half_edges_of};
ghost use Rattle.runs.specs.Run.{RunMeets};
ghost use Rattle.run.specs.Answer.{ran_to};
ghost use Rattle.run.specs.Turns.{SomeOffer, Offers, SomeRow, Relaxes, SomeTurn, Turns, Started, Ready, Runs, SomeSheet};

use delete_min::Popped;
use pair::Pair;
use refusals::Refusal;
use sheet_words::Row;

// "The run writes n distances; unreached is 2^40. It .. returns the number reached, and leaves a fresh image for n." Refusals 11 to 17 of the sheet, 18, 2.
#[tactic(auto, using(crate::proofs::Answering::sheet_met))]
pub fn distances(sheet: &[u8], distances: &mut [u64], image: &mut [u64]) -> Result<u64, Refusal>
    ensures { RunMeets sheet.now distances.old image.old (ran_to result distances.new image.new) }
{
    let accepted = sheet::accept(sheet)?;
    run_on(sheet, accepted.n, accepted.source, distances, image)
}

// The run over an accepted sheet: "18: distance slice shorter than n (then 2 for the image)".
fn run_on(
    sheet: &[u8],
    n: usize,
    source: usize,
    distances: &mut [u64],
    image: &mut [u64],
) -> Result<u64, Refusal>
    requires { SomeSheet sheet.now n source }
    ensures { RunMeets sheet.now distances.old image.old (ran_to result distances.new image.new) }
{
    if distances.len() < n {
        return Err(Refusal::ShortDistances);
    }
    let need = fresh_image::need_of(n);
    if image.len() < need {
        return Err(Refusal::ShortImage);
    }
    begin(distances, image, n, source);
    Ok(settle_all(sheet, n, distances, image))
}

// The start: nothing is settled, and the source alone waits, at distance 0, in a fresh image.
fn begin(distances: &mut [u64], image: &mut [u64], n: usize, source: usize)
    requires { (InRange n) × (source < n) × (n ≤ length distances.old) × (need n ≤ length image.old) }
    ensures { Started n source distances.old image.old distances.new image.new }
{
    fill(distances, n);
    distances[source] = 0;
    fresh_image::make_fresh(image, n);
    level_queue::inner_decrease(image, source as u64, 0);
}

// Stores the unreached mark in the words 0 to n-1.
fn fill(distances: &mut [u64], n: usize)
    requires { n ≤ length distances.old }
    ensures { distances.new ≡ sets distances.old 0 (distance_words n (λ _. absent)) }
{
    distances[..n].fill(Pair::KEY_LIMIT);
}

// Settles again and again until nothing waits. The number reached.
fn settle_all(sheet: &[u8], n: usize, distances: &mut [u64], image: &mut [u64]) -> u64
    requires { Ready sheet.now n distances.old image.old }
    ensures { Runs sheet.now distances.old image.old result distances.new image.new }
{
    let mut reached = 0;
    // Kept: no range and no iterator; how often it settles is what the loop finds out.
    while settle(sheet, n, distances, image) {
        reached += 1;
    }
    reached
}

// "It settles, again and again, the smallest (tentative distance, id)": one of them, with its row offered. False where nothing waits.
fn settle(sheet: &[u8], n: usize, distances: &mut [u64], image: &mut [u64]) -> bool
    requires { (Rowed sheet.now n) × SomeTurn n (row sheet.now) distances.old image.old }
    ensures { Turns n (row sheet.now) result distances.old image.old distances.new image.new }
{
    let p = level_queue::inner_delete_min(image);
    match p {
        Popped::Empty { .. } => false,
        Popped::Min { id, key, .. } => {
            let row = sheet_words::row_at(sheet, n, id as usize);
            relax(row, distances, image, key);
            true
        }
    }
}

// Offers the half-edges of a row, from distance d on.
fn relax(row: Row<'_>, distances: &mut [u64], image: &mut [u64], d: u64)
    requires { (n : ℕ) × SomeRow n d (half_edges_of row) distances.old image.old }
    ensures { (n : ℕ) → Relaxes n d (half_edges_of row.entry) distances.old image.old distances.new image.new }
{
    for j in 0..row.count {
        let v = row.target(j);
        let w = row.weight(j);
        offer(distances, image, d, v, w as u64);
    }
}

// Offers v the distance d + w: only a lower tentative distance is stored and pushed.
fn offer(distances: &mut [u64], image: &mut [u64], d: u64, v: usize, w: u64)
    requires { SomeOffer d v w distances.old image.old }
    ensures { Offers d v w distances.old image.old distances.new image.new }
{
    let c = d + w;
    if c < distances[v] {
        distances[v] = c;
        level_queue::inner_decrease(image, v as u64, c);
    }
}
