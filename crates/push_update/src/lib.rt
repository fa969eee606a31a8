// One update pushed at level 0 of a sound image that has room for it: three words change.
#![tactic(auto)]

ghost use Rattle.std.specs.Prelude.{◌≡◌, ◌+◌, ◌≤◌, length, drop};
ghost use Rattle.rules.specs.Queue.{push as pushed};
ghost use Rattle.layout.specs.Words.{unword};
ghost use Rattle.layout.specs.Image.{HEAD, elements_from, updates_below};
ghost use Rattle.layout.specs.SoundImage.{heap_of, laid_back};
ghost use Rattle.push_update.specs.Pushable.{Pushable};

use places::{HEAD, LEVELS_AT, ROW, STACK_AT, UPDATES, WAITING_AT};

// The end of the stack that starts at `start`: the update counts of the levels 0 to levels-1 behind it.
pub fn stack_top(img: &[u64], levels: usize, start: usize) -> usize
    requires { (elements_from levels ≤ length img.now) × (start + updates_below levels (drop HEAD img.now) ≤ length img.now) }
    ensures { result ≡ start + updates_below levels (drop HEAD img.now) }
{
    let mut top = start;
    for i in 0..levels {
        top += img[HEAD + ROW * i + UPDATES] as usize;
    }
    top
}

// Pushes the update word w at level 0: it counts in word 2 and in level 0's row, and stands behind the stack.
pub fn push(img: &mut [u64], w: u64)
    requires { Pushable img.old w }
    ensures { img.new ≡ laid_back img.old (pushed (unword w) (heap_of img.old)) }
{
    let levels = img[LEVELS_AT] as usize;
    let start = img[STACK_AT] as usize;
    let top = stack_top(img, levels, start);
    img[WAITING_AT] += 1;
    img[HEAD + UPDATES] += 1;
    img[top] = w;
}
