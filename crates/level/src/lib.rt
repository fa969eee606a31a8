// One level takes its updates, in order, in place. The level's elements stand in a work area, its updates below it; what it passes on is written
// over the updates from their first word on, since one update passes on at most one word.
#![tactic(auto)]

ghost use Rattle.std.specs.Prelude.{◌≡◌, ◌+◌, ◌<◌, ◌≤◌, length, IfSome};
ghost use Rattle.lists.specs.Put.{part};
ghost use Rattle.rules.specs.Pair.{IDS};
ghost use Rattle.rules.specs.Update.{decrease, delete, sink, pair_in};
ghost use Rattle.rules.specs.Sound.{Asc};
ghost use Rattle.rules.specs.Step.{find};
ghost use Rattle.pair.specs.Update.{update_of};
ghost use Rattle.level.specs.Place.{place, StepsOver, held_in};
ghost use Rattle.level.specs.Step.{Ready, Took};
ghost use Rattle.level.specs.Run.{Desk, TookAll};

use pair::{Pair, Update};

// Elements held now, words passed on, and Decreases and Deletes that came to an end.
#[derive(Clone, Copy)]
pub struct Counts {
    pub elements: usize,
    pub passed: usize,
    pub ended: usize,
}

// `half` where x is below y, and else 0: by numbers alone, so that a search has no branch to foresee.
// Kept: the compiler makes a branch of `half * usize::from(x < y)`; with it the calls of a grid run took 1.32 of the independent queue's time, so 1.16.
fn step_over(x: u64, y: u64, half: usize) -> usize
    requires { (x < IDS) × (y < IDS) }
    ensures { StepsOver result x y half }
{
    let one = (Pair::IDS - 1 + y - x) / Pair::IDS;
    half * one as usize
}

// The place of the id y among the m elements from `area` on: how many stand before it. It is no less than `low` and at most `left` more, and
// what is left halves from turn to turn.
// Kept: the page asks for the form by name, "entries inside a level are searched by a loop left by label".
#[tactic(auto, using(crate::proofs::Place::area_place_le, crate::proofs::Place::search_turn))]
fn find_place(img: &[u64], area: usize, m: usize, y: u64) -> usize
    requires { (y < IDS) × (area + m ≤ length img.now) × Asc 0 (part img.now area m) }
    ensures { (result ≡ place y (part img.now area m)) × (result ≤ m) }
{
    let mut low = 0;
    let mut left = m;
    'search: loop {
        if left == 0 {
            break 'search;
        }
        let half = left.div_ceil(2);
        let x = Pair(img[area + low + half - 1]).id();
        low += step_over(x, y, half);
        left /= 2;
    }
    low
}

// The element of the id y, whose place is k, if there is one.
#[tactic(auto, using(crate::proofs::Place::area_end, crate::proofs::Place::area_miss, crate::proofs::Place::area_found))]
fn pair_at(img: &[u64], area: usize, m: usize, k: usize, y: u64) -> Option<u64>
    requires { (area + m ≤ length img.now) × Asc 0 (part img.now area m) × (k ≡ place y (part img.now area m)) }
    ensures { (held_in result ≡ find y (part img.now area m)) × IfSome result (λ q. k < m) }
{
    if k < m && Pair(img[area + k]).id() == y {
        Some(img[area + k])
    } else {
        None
    }
}

// "Delete: drop the id here if present; pass the Delete" on. It goes on as it came, whatever its key.
fn take_delete(img: &mut [u64], area: usize, m: usize, to: usize, p: Pair) -> Counts
    requires { Ready img.old area m to p.0 }
    ensures { Took result img.old img.new area m to 0 (delete p.0) }
{
    let y = p.id();
    let k = find_place(img, area, m, y);
    let elements = match pair_at(img, area, m, k, y) {
        Some(_) => {
            words_moved::close_gap(img, area + k, area + m);
            m - 1
        }
        None => m,
    };
    img[to] = Update::Delete(p).word();
    Counts {
        elements,
        passed: 1,
        ended: 0,
    }
}

// "Decrease: if the id is here, keep the smaller cost and end it. If not here and the pair is at most the bound, enter it and pass on a Delete of
// that id. Else pass the Decrease on."
fn take_decrease(img: &mut [u64], area: usize, m: usize, to: usize, p: Pair, bound: u64) -> Counts
    requires { Ready img.old area m to p.0 }
    ensures { Took result img.old img.new area m to bound (decrease p.0) }
{
    let y = p.id();
    let k = find_place(img, area, m, y);
    match pair_at(img, area, m, k, y) {
        Some(q) => {
            img[area + k] = q.min(p.0);
            Counts {
                elements: m,
                passed: 0,
                ended: 1,
            }
        }
        None if p.0 <= bound => {
            words_moved::open_gap(img, area + k, area + m, p.0);
            img[to] = Update::Delete(Pair(y)).word();
            Counts {
                elements: m + 1,
                passed: 1,
                ended: 0,
            }
        }
        None => {
            img[to] = Update::Decrease(p).word();
            Counts {
                elements: m,
                passed: 1,
                ended: 0,
            }
        }
    }
}

// "Sink: if at most the bound, enter it; else pass it on."
fn take_sink(img: &mut [u64], area: usize, m: usize, to: usize, p: Pair, bound: u64) -> Counts
    requires { Ready img.old area m to p.0 }
    ensures { Took result img.old img.new area m to bound (sink p.0) }
{
    if bound < p.0 {
        img[to] = Update::Sink(p).word();
        return Counts {
            elements: m,
            passed: 1,
            ended: 0,
        };
    }
    let y = p.id();
    let k = find_place(img, area, m, y);
    let elements = match pair_at(img, area, m, k, y) {
        Some(_) => {
            img[area + k] = p.0;
            m
        }
        None => {
            words_moved::open_gap(img, area + k, area + m, p.0);
            m + 1
        }
    };
    Counts {
        elements,
        passed: 0,
        ended: 0,
    }
}

// One update: "kind 1 Decrease, 2 Delete (key 0), 3 Sink".
// Kept: no trait over this and `level_table`: between updates the words are elements by place here, a word for each id there (`Took`, `TookWord`).
fn take_one(img: &mut [u64], area: usize, m: usize, to: usize, u: Update, bound: u64) -> Counts
    requires { Ready img.old area m to (pair_in (update_of u)) }
    ensures { Took result img.old img.new area m to bound (update_of u) }
{
    match u {
        Update::Decrease(p) => take_decrease(img, area, m, to, p, bound),
        Update::Delete(p) => take_delete(img, area, m, to, p),
        Update::Sink(p) => take_sink(img, area, m, to, p, bound),
    }
}

// "each level takes its updates in order": the `count` update words at `at`. Those that it passes on are written back there from the front, and
// the words that they free are zero. Its m elements stand at `area`, where there is room for n.
// Kept: seven numbers of one visit and no struct; their one source, `descent::visit`, would fill it field by field, and `Desk` and `TookAll` take each by itself.
pub fn take_updates(
    img: &mut [u64],
    area: usize,
    m: usize,
    n: usize,
    at: usize,
    count: usize,
    bound: u64,
) -> Counts
    requires { Desk img.old area m n at count }
    ensures { TookAll result img.old img.new area m n at count bound }
{
    let mut elements = m;
    let mut passed = 0;
    let mut ended = 0;
    for j in 0..count {
        let u = Update::from(img[at + j]);
        let took = take_one(img, area, elements, at + passed, u, bound);
        elements = took.elements;
        passed += took.passed;
        ended += took.ended;
    }
    words_moved::clear(img, at + passed, count - passed);
    Counts {
        elements,
        passed,
        ended,
    }
}
