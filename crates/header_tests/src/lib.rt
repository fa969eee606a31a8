// An image's header: its extent, what may lie at a level, and the clauses on the header's words and level rows.
// The meanings are Rattle.image_clauses.specs.Clauses.
#![tactic(auto)]

ghost use Rattle.std.specs.Prelude.{◌≡◌, ◌+◌, ◌<◌, ◌≤◌, ◌^◌, length, MatchOption};
ghost use Rattle.rules.specs.Pair.{IDS, OPEN, ROWS};
ghost use Rattle.layout.specs.Image.{HEAD, elements_from, stack_from, stack_words, work_from};
ghost use Rattle.image_clauses.specs.Clauses.{Says, HeaderOk, BoundsOk, floor_of, top_kind, updates_under};

use pair::{Pair, Update};
use places::{ELEMENTS_AT, HEAD, LEVELS_AT, ROW, STACK, STACK_AT, UPDATES, WORK_AT};

// The ids of an image, its levels and its size, 2^levels, which is one more than the element words of all levels: every place of the image
// is reckoned from these. It may have no level; that of an image has one or more (`fresh_image::depth_of`).
#[derive(Clone, Copy)]
pub struct Extent {
    pub n: u64,
    pub levels: usize,
    pub size: usize,
    pub ghost sized: { (n ≤ IDS) × (levels ≤ ROWS) × (size ≡ 2 ^ levels) × (1 ≤ size) × (size ≤ 2 ^ ROWS) },
}

impl Extent {
    pub fn elements_at(self) -> usize
        ensures { result ≡ elements_from self.levels }
    {
        HEAD + ROW * self.levels
    }

    pub fn stack_at(self) -> usize
        ensures { result ≡ stack_from self.levels }
    {
        self.elements_at() + (self.size - 1)
    }

    pub fn stack_words(self) -> usize
        ensures { result ≡ stack_words self.n }
    {
        STACK * self.n as usize
    }

    pub fn work_at(self) -> usize
        ensures { result ≡ work_from self.n self.levels }
    {
        self.stack_at() + self.stack_words()
    }

    // The words needed in all: the work area is the last, and has n.
    pub fn need(self) -> usize
        ensures { result ≡ work_from self.n self.levels + self.n }
    {
        self.work_at() + self.n as usize
    }
}

// The least pair that may lie at level i: past the bound of the level before.
#[tactic(auto, using(image_clauses::specs::Rows::floor_below))]
pub fn floor_of(img: &[u64], i: usize) -> u64
    requires { (i ≤ ROWS) × (elements_from i ≤ length img.now) × (floor_of img.now i ≤ OPEN + 1) }
    ensures { result ≡ floor_of img.now i }
{
    if i == 0 {
        0
    } else {
        img[HEAD + ROW * (i - 1)] + 1
    }
}

// The largest kind that may wait at level i: level 0 holds no Sink.
#[tactic(auto, using(image_clauses::specs::Rows::top_below))]
pub fn top_kind(i: usize) -> u64
    ensures { result ≡ top_kind i }
{
    // Kept: a number, for it is compared with the kinds of any words (`stretch_tests::update_ok`), and those of a lent image may be no update's.
    if i == 0 { Update::DELETE } else { Update::SINK }
}

// Whether words 1, 3, 4 and 5 are those of n ids.
pub fn header_ok(img: &[u64], e: Extent) -> bool
    requires { HEAD ≤ length img.now }
    ensures { Says result (HeaderOk img.now e.n e.levels) }
{
    img[LEVELS_AT] == e.levels as u64
        && img[ELEMENTS_AT] == e.elements_at() as u64
        && img[STACK_AT] == e.stack_at() as u64
        && img[WORK_AT] == e.work_at() as u64
}

// Whether the bounds never fall and the last one is open.
pub fn bounds_ok(img: &[u64], e: Extent) -> bool
    requires { elements_from e.levels ≤ length img.now }
    ensures { Says result (BoundsOk img.now e.levels) }
{
    // Without a level, the clause's last bound is the word that the first row would begin with, if it is there.
    if e.levels == 0 {
        return img.len() > HEAD && img[HEAD] == Pair::OPEN;
    }
    for i in 1..e.levels {
        if img[HEAD + ROW * (i - 1)] > img[HEAD + ROW * i] {
            return false;
        }
    }
    img[HEAD + ROW * (e.levels - 1)] == Pair::OPEN
}

// How many updates the rows state in all, or none where that is more than the stack has words. No sum of stated counts passes those.
pub fn stack_used(img: &[u64], e: Extent) -> Option<usize>
    requires { elements_from e.levels ≤ length img.now }
    ensures { MatchOption result (stack_words e.n < updates_under img.now 0 e.levels) (λ used. (used ≡ updates_under img.now 0 e.levels) × (used ≤ stack_words e.n)) }
{
    let limit = e.stack_words();
    let mut used = 0;
    for i in (0..e.levels).rev() {
        let more = img[HEAD + ROW * i + UPDATES] as usize;
        if more > limit - used {
            return None;
        }
        used += more;
    }
    Some(used)
}

#[cfg(test)]
mod tests {
    use super::*;

    // "The open bound 2^56": without a level, the word behind the head of six is asked for it.
    #[test]
    fn bounds_of_no_levels() -> Result<(), &'static str> {
        let e = Extent {
            n: 0,
            levels: 0,
            size: 1,
        };
        let open = bounds_ok(&[9, 9, 9, 9, 9, 9, 1 << 56], e);
        let less = bounds_ok(&[9, 9, 9, 9, 9, 9, (1 << 56) - 1], e);
        let none = bounds_ok(&[9, 9, 9, 9, 9, 9], e);
        if (open, less, none) == (true, false, false) {
            Ok(())
        } else {
            Err("the open bound")
        }
    }
}
