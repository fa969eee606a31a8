// One level of an image, and all its levels from the deepest up: their words and the order of their entries, each used word read once.
// The meanings are Rattle.image_clauses.specs.Clauses and Passes.
#![tactic(auto)]

ghost use Rattle.std.specs.Prelude.{◌≡◌, ◌+◌, ◌<◌, ◌≤◌, ◌^◌, length};
ghost use Rattle.rules.specs.Pair.{OPEN, ROWS};
ghost use Rattle.rules.specs.Heap.{reading};
ghost use Rattle.image_clauses.specs.Clauses.{Says, update_count, floor_of, area_from, LevelWords, LevelsOk, levels_of};
ghost use Rattle.image_clauses.specs.Marks.{Marked, Read};
ghost use Rattle.image_clauses.specs.Passes.{level_entries};
ghost use Rattle.level_tests.specs.Ready.{Ready};

use header_tests::Extent;
use places::{ELEMENTS, HEAD, ROW, UPDATES};

// Whether level i is as it must be and its entries come in order. `size` is 2^i, and its updates stand from word `at` on.
// Kept: n and levels as numbers and no `Extent`, which has at most 65,536 ids: this promises its answer for any n.
pub fn level_ok(
    img: &[u64],
    n: u64,
    levels: usize,
    i: usize,
    size: usize,
    at: usize,
    last: &mut [u8],
) -> bool
    requires { (i < levels) × (levels ≤ ROWS) × (size ≡ 2 ^ i) × (1 ≤ size) × (area_from levels i + size ≤ length img.now) × (at + update_count img.now i ≤ length img.now) × (floor_of img.now i ≤ OPEN + 1) × (n ≤ length last.old) }
    ensures { Read (LevelWords img.now n levels i at) result last.old last.new (level_entries img.now levels i at) }
{
    let row = HEAD + ROW * i;
    let high = img[row];
    let count = img[row + ELEMENTS] as usize;
    let updates = img[row + UPDATES] as usize;
    let area = HEAD + ROW * levels + (size - 1);
    if count > size || !stretch_tests::zeros(img, area + count, size - count) {
        return false;
    }
    let low = header_tests::floor_of(img, i);
    let top = header_tests::top_kind(i);
    order_tests::read_pairs(img, area, count, n, low, high, last)
        && order_tests::read_updates(img, at, updates, n, low, top, last)
}

// Whether all levels are so, read from the deepest up.
pub fn levels_ok(img: &[u64], e: Extent, last: &mut [u8]) -> bool
    requires { Ready img.now e × (e.n ≤ length last.old) }
    ensures { Says result (LevelsOk img.now e.n e.levels 0 e.levels × Marked last.old (reading (levels_of img.now e.levels 0 e.levels))) }
{
    let mut half = e.size;
    let mut at = e.stack_at();
    for i in (0..e.levels).rev() {
        half /= 2;
        if !level_ok(img, e.n, e.levels, i, half, at, last) {
            return false;
        }
        at += img[HEAD + ROW * i + UPDATES] as usize;
    }
    true
}
