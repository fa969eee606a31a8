// The test that every outward call makes of its image: too short (refusal 2), not sound (refusal 3), or good. The verdict is
// Rattle.layout.specs.SoundImage `Judged`.
#![tactic(auto)]

ghost use Rattle.std.specs.Prelude.{◌≡◌, ◌+◌, ◌≤◌, length};
ghost use Rattle.rules.specs.Pair.{IDS, levels};
ghost use Rattle.layout.specs.Image.{work_from};
ghost use Rattle.layout.specs.SoundImage.{Judged};
ghost use Rattle.image_clauses.specs.Clauses.{Says, Sized};
ghost use Rattle.image_clauses.specs.All.{InOrder, Shape, Contents};
ghost use Rattle.level_tests.specs.Ready.{Ready};
ghost use Rattle.sound.specs.Answer.{verdict_of, refusal_of};

use header_tests::Extent;
use pair::Pair;
use places::{N_AT, SMALLEST, WAITING_AT};
use refusals::Refusal;

// The places of the three tables of last entries.
const SMALL: usize = 256;

const MIDDLE: usize = 4096;

const ALL: usize = 65536;

// The levels and their order, with a table of as many places.
pub fn levels_in<const PLACES: usize>(img: &[u64], e: Extent) -> bool
    requires { (PLACES ≤ IDS) × (e.n ≤ PLACES) × Ready img.now e }
    ensures { Says result (InOrder img.now e.n e.levels) }
{
    let mut last = [0u8; PLACES];
    level_tests::levels_ok(img, e, &mut last)
}

// The levels and their order, with the least table that holds all ids.
pub fn levels_in_order(img: &[u64], e: Extent) -> bool
    requires { Ready img.now e }
    ensures { Says result (InOrder img.now e.n e.levels) }
{
    if e.n <= SMALL as u64 {
        levels_in::<SMALL>(img, e)
    } else if e.n <= MIDDLE as u64 {
        levels_in::<MIDDLE>(img, e)
    } else {
        levels_in::<ALL>(img, e)
    }
}

// What the header states: its words, the bounds, and that the updates have room.
pub fn shape_ok(img: &[u64], e: Extent) -> bool
    requires { work_from e.n e.levels + e.n ≤ length img.now }
    ensures { Says result (Shape img.now e.n e.levels) }
{
    header_tests::header_ok(img, e)
        && header_tests::bounds_ok(img, e)
        && header_tests::stack_used(img, e).is_some()
}

// What it states is there: the waiting count, zeros behind the updates, the levels, and the order.
// Never inlined: the stack of its tables would be taken, and touched, by the test of a slice that is refused for its length alone.
#[inline(never)]
pub fn contents_ok(img: &[u64], e: Extent) -> bool
    requires { (work_from e.n e.levels + e.n ≤ length img.now) × Shape img.now e.n e.levels }
    ensures { Says result (Contents img.now e.n e.levels) }
{
    let stack = e.stack_at();
    let used = header_tests::stack_used(img, e).unwrap();
    let stated = img[WAITING_AT];
    stated <= e.n
        && stretch_tests::waiting(img, stack, used) as u64 == stated
        && stretch_tests::zeros(img, stack + used, e.stack_words() + e.n as usize - used)
        && levels_in_order(img, e)
}

// Why a lent slice is no image that can be used.
#[derive(Clone, Copy, Debug, PartialEq, Eq)]
pub enum Unfit {
    TooShort,
    NotSound,
}

// "2: image slice too short"; "3: image not sound".
impl From<Unfit> for Refusal {
    ghost from_gives = { λ u r. r ≡ refusal_of u };

    fn from(u: Unfit) -> Refusal {
        match u {
            Unfit::TooShort => Refusal::ShortImage,
            Unfit::NotSound => Refusal::UnsoundImage,
        }
    }
}

// The extent of the image of n ids, which has a level.
pub fn extent_of(n: u64) -> Extent
    requires { n ≤ IDS }
    ensures { (result.n ≡ n) × (result.levels ≡ levels n) × Sized result.n result.levels result.size }
{
    let depth = fresh_image::depth_of(n as usize);
    Extent {
        n,
        levels: depth.levels,
        size: depth.size,
    }
}

// The test: refusal 2, then refusal 3, or a sound image.
pub fn judge(img: &[u64]) -> Result<(), Unfit>
    ensures { Judged img.now (verdict_of result) }
{
    if img.len() < SMALLEST {
        return Err(Unfit::TooShort);
    }
    let n = img[N_AT];
    if n < 1 || n > Pair::IDS {
        return Err(Unfit::NotSound);
    }
    let e = extent_of(n);
    if img.len() < e.need() {
        return Err(Unfit::TooShort);
    }
    if !shape_ok(img, e) || !contents_ok(img, e) {
        return Err(Unfit::NotSound);
    }
    Ok(())
}

#[cfg(test)]
mod tests {
    use super::*;

    // Without an id or a level, all places are behind the head of six, and the word there is the last bound.
    #[test]
    fn no_levels() -> Result<(), &'static str> {
        let e = Extent {
            n: 0,
            levels: 0,
            size: 1,
        };
        let whole = [0, 0, 0, 6, 6, 6, 1 << 56];
        let bound = [0, 0, 0, 6, 6, 6, 0];
        let waits = [0, 0, 1, 6, 6, 6, 1 << 56];
        let shapes = (shape_ok(&whole, e), shape_ok(&bound, e));
        let contents = (
            shape_ok(&whole, e) && contents_ok(&whole, e),
            shape_ok(&waits, e) && !contents_ok(&waits, e),
        );
        if shapes == (true, false) && contents == (true, true) {
            Ok(())
        } else {
            Err("no levels")
        }
    }

    // "L is the least number, at least 1, with 2^(L-1) >= n."
    #[test]
    fn extents() -> Result<(), &'static str> {
        for (n, levels, size) in [(1, 1, 2), (2, 2, 4), (3, 3, 8), (65536, 17, 131072)] {
            let e = extent_of(n);
            if (e.n, e.levels, e.size) != (n, levels, size) {
                return Err("extents");
            }
        }
        Ok(())
    }
}
