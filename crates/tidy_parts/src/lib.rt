// Parts of tidy: entries read into the work area, the pairs that it then holds, a part of an image sorted, one level dealt.
// What each leaves is an equation on the whole slice.
#![tactic(auto)]

ghost use Rattle.std.specs.Prelude.{◌≡◌, ◌+◌, ◌<◌, ◌≤◌, length, take, drop};
ghost use Rattle.std.proofs.lemmas.List.Edits.{sets};
ghost use Rattle.plain.specs.Lists.{Every, sort};
ghost use Rattle.lists.specs.Put.{part};
ghost use Rattle.rules.specs.Pair.{OPEN};
ghost use Rattle.rules.specs.Update.{decrease, act, pair_in, id_in};
ghost use Rattle.rules.specs.Rebuild.{dealt_bound};
ghost use Rattle.pair.specs.Update.{update_of};
ghost use Rattle.tidy_parts.specs.Marks.{code, uncode, mark, marked, entries, Placed, Readable, ReadsLevel, Squeezes};
ghost use Rattle.tidy_parts.specs.Dealt.{DealsLevel};

use pair::{Pair, Update};

// The word of an id that held q, once a Decrease of the pair p is read.
// Kept: a word is 0 for "none" and p + 1 for the pair p (Marks, `code`), as the work area is words that the caller lends: no heap, fixed memory.
fn lowered(q: u64, p: u64) -> u64
    requires { p < OPEN }
    ensures { result ≡ code (act (uncode q) (decrease p)) }
{
    match q.checked_sub(1) {
        Some(held) => held.min(p) + 1,
        None => p + 1,
    }
}

// The word of an id that held q, once the update u is read.
fn word_after(q: u64, u: Update) -> u64
    requires { pair_in (update_of u) < OPEN }
    ensures { result ≡ code (act (uncode q) (update_of u)) }
{
    match u {
        Update::Decrease(p) => lowered(q, p.0),
        Update::Delete(_) => 0,
        Update::Sink(p) => p.0 + 1,
    }
}

// One update read into the words from `at` on.
#[tactic(auto, unfolding(crate::specs::Marks::mark))]
fn mark_one(img: &mut [u64], at: usize, u: Update)
    requires { (pair_in (update_of u) < OPEN) × (at + id_in (update_of u) < length img.old) }
    ensures { img.new ≡ mark img.old at (update_of u) }
{
    let (Update::Decrease(p) | Update::Delete(p) | Update::Sink(p)) = u;
    let k = at + p.id() as usize;
    img[k] = word_after(img[k], u);
}

// The n words from `from` on, each with the tag added, read into the words from `at` on.
// Kept: a tag and no closure that makes the Sink of a word, as `Readable` allows elements above the open bound (a promise that may not change).
fn mark_run(img: &mut [u64], at: usize, from: usize, n: usize, tag: u64)
    requires { (from + n ≤ at) × (at ≤ length img.old) × Every (Placed tag at (length img.old)) (part img.old from n) }
    ensures { img.new ≡ marked img.old at (entries tag (part img.old from n)) }
{
    for j in 0..n {
        let u = Update::from(tag + img[from + j]);
        mark_one(img, at, u);
    }
}

// The entries of one level read into the words from `work` on. The level's row is at `row`, its elements stand at `from` and its updates at
// `at`; the answer is where those of the next level up stand.
pub fn mark_level(img: &mut [u64], row: usize, from: usize, at: usize, work: usize) -> usize
    requires { Readable img.old row from at work }
    ensures { ReadsLevel result img.old img.new row from at work }
{
    let elements = img[row + 1] as usize;
    let updates = img[row + 2] as usize;
    mark_run(img, work, from, elements, Update::SINK_TAG);
    mark_run(img, work, at, updates, 0);
    at + updates
}

// The pairs that the n words from `from` on hold, stored from `to` on; the answer is how many.
pub fn squeeze(img: &mut [u64], from: usize, n: usize, to: usize) -> usize
    requires { (to + n ≤ from) × (from + n ≤ length img.old) }
    ensures { Squeezes result img.old img.new from n to }
{
    let mut k = 0;
    for j in 0..n {
        if let Some(p) = img[from + j].checked_sub(1) {
            img[to + k] = p;
            k += 1;
        }
    }
    k
}

// m words sorted in their place.
pub fn sort_part(img: &mut [u64], at: usize, m: usize)
    requires { at + m ≤ length img.old }
    ensures { img.new ≡ sets img.old at (sort (part img.old at m)) }
{
    sorting::sort_words(&mut img[at..at + m]);
}

// The bound of a level of `width` words that gets the first of the `left` ascending pairs from `from` on: its largest, or open where none is
// left for deeper levels.
fn bound_of(img: &[u64], from: usize, width: usize, left: usize) -> u64
    requires { (from + left ≤ length img.now) × (1 ≤ width) }
    ensures { result ≡ dealt_bound OPEN (take width (part img.now from left)) (drop width (part img.now from left)) }
{
    if left <= width {
        Pair::OPEN
    } else {
        img[from + (width - 1)]
    }
}

// One level gets the first of the `left` ascending pairs that stand from `from` on, where its elements are; the answer is how many.
pub fn deal_level(img: &mut [u64], row: usize, from: usize, width: usize, left: usize) -> usize
    requires { (row + 3 ≤ from) × (from + width ≤ length img.old) × (from + left ≤ length img.old) × (1 ≤ width) }
    ensures { DealsLevel result img.old img.new row from width left }
{
    let here = left.min(width);
    let bound = bound_of(img, from, width, left);
    sorting::sort_by_id(&mut img[from..from + here]);
    words_moved::clear(img, from + here, width - here);
    img[row] = bound;
    img[row + 1] = here as u64;
    img[row + 2] = 0;
    here
}
