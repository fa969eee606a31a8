// Delete-Min once it has stopped: the split at the stopping level, the rest made Sinks behind what was passed on, and the levels above filled
// again. The header's words wait (Rattle.rows_after).
#![tactic(auto)]

ghost use Rattle.std.specs.Prelude.{◌≡◌, ◌<◌};
ghost use Rattle.rules.specs.Pair.{ROWS};
ghost use Rattle.refill.specs.Deck.{SomeDeck, Deals};
ghost use Rattle.refill.specs.Site.{last_cut, SomeSite, RefillsAny};

use descent::Halt;
use header::Header;
use pair::Update;

// The cuts, level k's new bound, the element counts of the levels below it (what stands behind them says nothing), and how many pairs became Sinks.
#[derive(Clone, Copy)]
pub struct Refilled {
    pub cuts: [u64; Header::ROWS],
    pub counts: [u64; Header::ROWS],
    pub bound: u64,
    pub sunk: usize,
}

// "The others, ascending, fill level 0, 1 and on, up to 2^i each": the kept elements, m of them at `work`, but for the smallest, fill the
// levels from k-1 up. What is above a level's cut is that level's, so what is left halves from turn to turn. Their counts are the answer.
fn deal(
    img: &mut [u64],
    first: usize,
    work: usize,
    m: usize,
    k: usize,
    width: usize,
    p: [u64; Header::ROWS],
) -> [u64; Header::ROWS]
    requires { (k < ROWS) × SomeDeck img.old first work m k width p }
    ensures { Deals img.old img.new first work m k width p result }
{
    let mut c = [0u64; Header::ROWS];
    let mut e = m;
    let mut w = width;
    for j in (0..k).rev() {
        w /= 2;
        let t = split::split(img, work, e, first + (w - 1), 0, p[j]);
        c[j] = (e - t) as u64;
        e = t;
    }
    img[work] = 0;
    c
}

// The bound that level k keeps, pk being the cut at 2^k, or the smallest for k = 0.
fn last_cut(pk: u64, k: usize, m: usize, b: u64) -> u64
    ensures { result ≡ last_cut pk k m b }
{
    if k == 0 && m <= 1 { b } else { pk }
}

// "if more than 2^k elements are there, keep the 2^k smallest; the rest become Sinks at the end of level k+1's updates, in ascending id"; the
// smallest goes, and the others fill the levels below k.
pub fn refill(img: &mut [u64], r: Halt) -> Refilled
    requires { SomeSite img.old r }
    ensures { RefillsAny img.old img.new r result }
{
    let first = img[places::ELEMENTS_AT] as usize;
    let work = img[places::WORK_AT] as usize;
    let end = r.at + r.passed;
    let b = header::row_at(img, r.level).bound;
    let cuts = cuts::cuts(img, work, r.elements, end, r.level, b);
    let bound = last_cut(cuts[r.level], r.level, r.elements, b);
    let kept = split::split(img, work, r.elements, end, Update::SINK_TAG, bound);
    let counts = deal(img, first, work, kept, r.level, r.width, cuts);
    Refilled {
        cuts,
        counts,
        bound,
        sunk: r.elements - kept,
    }
}
