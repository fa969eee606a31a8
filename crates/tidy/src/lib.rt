// Tidy, in place: the live pairs ascending fill level 0, 1 and on; no updates remain.
// The reading, oldest to newest, goes into the work area, one word for each id; the pairs that are then held go to the front of the elements and
// are sorted there. As level i starts 2^i - 1 words in and is filled before level i + 1, each level's pairs then stand in its place, and only
// their order by id and the rows are left to make. n log n steps, no array, no word outside the image.
#![tactic(auto)]

ghost use Rattle.std.specs.Prelude.{◌≡◌};
ghost use Rattle.std.proofs.lemmas.List.Edits.{sets};
ghost use Rattle.lists.specs.Put.{part};
ghost use Rattle.rules.specs.Pair.{OPEN};
ghost use Rattle.rules.specs.Heap.{live};
ghost use Rattle.rules.specs.Rebuild.{deal, tidy};
ghost use Rattle.layout.specs.SoundImage.{n_of, heap_of, laid_back, SoundImage};
ghost use Rattle.tidy_parts.specs.Marks.{codes};
ghost use Rattle.tidy.specs.Places.{Offsets, levels_stored, Dealable};

use places::{ELEMENTS_AT, HEAD, LEVELS_AT, N_AT, ROW, STACK_AT, WAITING_AT, WORK_AT};

// The whole reading into the work area: the deepest level first.
fn mark_levels(img: &mut [u64], depth: usize, first: usize, stack: usize, work: usize)
    requires { Offsets img.old depth first stack work }
    ensures { img.new ≡ sets img.old work (codes (n_of img.old) (live (heap_of img.old))) }
{
    let mut width = stack - first + 1;
    let mut at = stack;
    for i in (0..depth).rev() {
        width /= 2;
        at = tidy_parts::mark_level(img, HEAD + ROW * i, first + (width - 1), at, work);
    }
}

// The m ascending pairs from `first` on dealt to the levels, level 0 first.
fn deal_levels(img: &mut [u64], depth: usize, first: usize, m: usize)
    requires { Dealable img.old depth first m }
    ensures { img.new ≡ levels_stored img.old first (deal OPEN 0 (part img.old first m) depth) }
{
    let mut width = 1;
    let mut left = m;
    for i in 0..depth {
        left -= tidy_parts::deal_level(img, HEAD + ROW * i, first + (width - 1), width, left);
        width *= 2;
    }
}

// "Take the live pairs ascending; level 0 gets the first, level 1 the next two, level i the next 2^i. A filled level's bound is its largest
// pair, but the last filled level and all deeper ones are open. With no live pair all bounds are open. No updates remain."
// The stack's 3n words and the work area's n are cleared at once.
pub fn tidy(img: &mut [u64])
    requires { SoundImage img.old }
    ensures { img.new ≡ laid_back img.old (tidy (n_of img.old) (heap_of img.old)) }
{
    let n = img[N_AT] as usize;
    let depth = img[LEVELS_AT] as usize;
    let first = img[ELEMENTS_AT] as usize;
    let stack = img[STACK_AT] as usize;
    let work = img[WORK_AT] as usize;
    mark_levels(img, depth, first, stack, work);
    let m = tidy_parts::squeeze(img, work, n, first);
    words_moved::clear(img, stack, 4 * n);
    tidy_parts::sort_part(img, first, m);
    deal_levels(img, depth, first, m);
    img[WAITING_AT] = 0;
}
