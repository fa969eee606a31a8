// How deep n ids are, how many words their image needs, and the fresh image, whatever words stood there.
#![tactic(auto)]

ghost use Rattle.std.specs.Prelude.{◌≡◌, ◌++◌, ◌+◌, ◌*◌, ◌^◌, ◌≤◌, length, drop};
ghost use Rattle.rules.specs.Pair.{IDS, levels, ROWS};
ghost use Rattle.rules.specs.Queue.{fresh};
ghost use Rattle.layout.specs.Image.{elements_from, need, lay_out};
ghost use Rattle.fresh_image.specs.Bounds.{opened};

use pair::Pair;
use places::{ELEMENTS_AT, HEAD, LEVELS_AT, N_AT, ROW, STACK, STACK_AT, WORK_AT};

// n ids have L levels, and their size, 2^L, is one more than the element words of all levels.
#[derive(Clone, Copy)]
pub struct Depth {
    pub levels: usize,
    pub size: usize,
}

// Half the size is the first power of two that reaches n: L is one more than its exponent.
pub fn depth_of(n: usize) -> Depth
    requires { n ≤ IDS }
    ensures { (result.levels ≡ levels n) × (result.size ≡ 2 ^ levels n) × (1 ≤ result.levels) × (result.levels ≤ ROWS) × (result.size ≤ 2 ^ ROWS) × (1 ≤ result.size) }
{
    let half = n.next_power_of_two();
    Depth {
        levels: half.ilog2() as usize + 1,
        size: half + half,
    }
}

// The words that the image of n ids needs.
pub fn need_of(n: usize) -> usize
    requires { n ≤ IDS }
    ensures { result ≡ need n }
{
    let d = depth_of(n);
    HEAD + ROW * d.levels + (d.size - 1) + STACK * n + n
}

// Opens the bounds of the levels 0 to levels-1.
pub fn open_bounds(img: &mut [u64], levels: usize)
    requires { elements_from levels ≤ length img.old }
    ensures { img.new ≡ opened img.old levels }
{
    for level in 0..levels {
        img[HEAD + ROW * level] = Pair::OPEN;
    }
}

// Makes the image of n ids fresh: its old words do not matter, and the words behind it stay.
pub fn make_fresh(img: &mut [u64], n: usize)
    requires { (n ≤ IDS) × (need n ≤ length img.old) }
    ensures { img.new ≡ lay_out n (fresh (levels n)) ++ drop (need n) img.old }
{
    let d = depth_of(n);
    let levels = d.levels;
    let elements = HEAD + ROW * levels;
    let stack = elements + (d.size - 1);
    let work = stack + STACK * n;
    words_moved::clear(img, 0, work + n);
    img[N_AT] = n as u64;
    img[LEVELS_AT] = levels as u64;
    img[ELEMENTS_AT] = elements as u64;
    img[STACK_AT] = stack as u64;
    img[WORK_AT] = work as u64;
    open_bounds(img, levels);
}
