// Delete-Min's way down: from level 0 each level takes its updates in order, until one still holds an element.
// What the words are while it goes is Rattle.at_work.specs.AtWork; where it ends is specs/Landed.antt, by the rule `descend`.
#![tactic(auto)]

ghost use Rattle.std.specs.Prelude.{◌≡◌, [], ◌+◌, length};
ghost use Rattle.rules.specs.Pair.{levels};
ghost use Rattle.rules.specs.Step.{descend};
ghost use Rattle.layout.specs.Image.{stack_from, stack};
ghost use Rattle.layout.specs.SoundImage.{n_of, heap_of, SoundImage};
ghost use Rattle.descent.specs.Landed.{landed_from};
ghost use Rattle.descent.specs.Visit.{Visitable, Visited};

use level::Counts;

// Where the way down ends: the level and its room, its elements (none past the last level), where the deeper levels' updates end, how many
// updates it passed on, and how many waiting ones came to an end.
#[derive(Clone, Copy)]
pub struct Halt {
    pub level: usize,
    pub width: usize,
    pub elements: usize,
    pub at: usize,
    pub passed: usize,
    pub ended: usize,
}

// One level takes its `count` updates, which stand at `at`. Its m elements are at `from`, and then in the work area. `floor` is the least pair
// that may come: one past the bound of the level above. An empty level whose bound is that bound takes nothing, since all its updates are above
// it or Deletes. They lie where the next level's end, so that they are handed on by the header alone.
// Kept: nine numbers of one visit and no struct of them, since the loop of `go_down` has each by itself and calls this once.
// Kept: `floor` is 0 at level 0 and not a None: 0 is the least pair itself, and `Visitable`, `AllClear` and `Chain` all count from it.
fn visit(
    img: &mut [u64],
    from: usize,
    m: usize,
    work: usize,
    n: usize,
    at: usize,
    count: usize,
    bound: u64,
    floor: u64,
) -> Counts
    requires { Visitable img.old from m work n at count bound floor }
    ensures { Visited result img.old img.new from m work n at count bound }
{
    if m == 0 && bound + 1 == floor {
        return Counts {
            elements: 0,
            passed: count,
            ended: 0,
        };
    }
    split::lift(img, from, work, m);
    level_table::take_updates(img, work, m, n, at, count, bound)
}

// "From level 0 down, each level takes its updates in order, then stops at the first level that still holds an element." `end` is where the
// stack ends.
pub fn go_down(img: &mut [u64], end: usize) -> Halt
    requires { SoundImage img.old × (end ≡ stack_from (levels (n_of img.old)) + length (stack (heap_of img.old))) }
    ensures { landed_from img.old result img.new (descend 0 [] (heap_of img.old)) }
{
    let n = img[places::N_AT] as usize;
    let levels = img[places::LEVELS_AT] as usize;
    let first = img[places::ELEMENTS_AT] as usize;
    let work = img[places::WORK_AT] as usize;
    let mut at = end;
    let mut elements = 0;
    let mut passed = 0;
    let mut ended = 0;
    let mut width = 1;
    let mut floor = 0;
    let mut i = 0;
    // Kept: no `for`, since the page asks for it by name: "A loop down the levels yields the stopping level by break".
    let level = loop {
        if i >= levels {
            break i;
        }
        let row = header::row_at(img, i);
        let own = row.updates as usize;
        at -= own;
        let from = first + (width - 1);
        let t = visit(
            img,
            from,
            row.elements as usize,
            work,
            n,
            at,
            own + passed,
            row.bound,
            floor,
        );
        elements = t.elements;
        passed = t.passed;
        ended += t.ended;
        if elements > 0 {
            break i;
        }
        floor = row.bound + 1;
        width *= 2;
        i += 1;
    };
    Halt {
        level,
        width,
        elements,
        at,
        passed,
        ended,
    }
}
