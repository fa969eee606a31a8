// Delete-Min on a sound image, in place: the way down, the split, the answer, the refill, the header stored back; fresh again with nothing left.
// The meaning is the rule `delete_min` (Rattle.rules.specs.Queue) of the image's heap; specs/Takes.antt says so.
#![tactic(auto)]

ghost use Rattle.layout.specs.SoundImage.{SoundImage};
ghost use Rattle.delete_min.specs.Takes.{Takes};

use pair::Pair;

// "The smallest is the answer." "The answer also holds the reach: the reach is the number of levels visited". "If no level holds one, the
// answer is empty".
#[derive(Clone, Copy)]
pub enum Popped {
    Min { id: u64, key: u64, reach: u64 },
    Empty { reach: u64 },
}

pub fn delete_min(img: &mut [u64]) -> Popped
    requires { SoundImage img.old }
    ensures { Takes result img.old img.new }
{
    let levels = img[places::LEVELS_AT];
    let stack = img[places::STACK_AT] as usize;
    let end = push_update::stack_top(img, levels as usize, stack);
    let r = descent::go_down(img, end);
    if r.elements == 0 {
        closing::wipe(img, r);
        return Popped::Empty { reach: levels };
    }
    let q = refill::refill(img, r);
    closing::seal(img, r, q);
    let p = Pair(q.cuts[0]);
    Popped::Min {
        id: p.id(),
        key: p.key(),
        reach: r.level as u64 + 1,
    }
}
