// One level takes many updates by a table: a word for each id in the work area, so that no update looks anything up. The elements become the
// table in place, each update is taken at the word of its id, and the table becomes the elements again. Few updates are taken as in `level`.
#![tactic(auto)]

ghost use Rattle.std.specs.Prelude.{◌≡◌, ◌+◌, ◌%◌, ◌<◌, ◌≤◌, length};
ghost use Rattle.std.proofs.lemmas.List.Edits.{sets};
ghost use Rattle.lists.specs.Put.{part};
ghost use Rattle.rules.specs.Pair.{OPEN, id_of};
ghost use Rattle.rules.specs.Update.{decrease, delete, sink};
ghost use Rattle.layout.specs.Words.{unword};
ghost use Rattle.level.specs.Run.{Desk, TookAll};
ghost use Rattle.level_table.specs.Table.{Laid, table, Writable, TookWord, Gathers};

use level::Counts;
use pair::{Pair, Update};

// A level of n ids that takes more than n / FEW updates takes them by the table: then a word of it costs less than a look.
const FEW: usize = 16;

// Words passed on, and Decreases and Deletes that came to an end.
#[derive(Clone, Copy)]
struct Moved {
    passed: usize,
    ended: usize,
}

// The m elements at `area` become the table of the n ids, from the last on: an element's id is not below its place, so that its word is free.
fn scatter(img: &mut [u64], area: usize, m: usize, n: usize)
    requires { Laid img.old area m n }
    ensures { img.new ≡ sets img.old area (table n (part img.old area m)) }
{
    for j in (0..m).rev() {
        let p = Pair(img[area + j]);
        img[area + j] = 0;
        img[area + p.id() as usize] = p.0 + 1;
    }
}

// "Delete: drop the id here if present; pass the Delete" on. It goes on as it came, whatever its key.
fn take_delete(img: &mut [u64], place: usize, to: usize, p: Pair) -> Moved
    requires { Writable img.old place to p.0 }
    ensures { TookWord result img.old img.new place to 0 (delete p.0) }
{
    img[to] = Update::Delete(p).word();
    img[place] = 0;
    Moved {
        passed: 1,
        ended: 0,
    }
}

// "Decrease: if the id is here, keep the smaller cost and end it. If not here and the pair is at most the bound, enter it and pass on a Delete of
// that id. Else pass the Decrease on."
// Kept: in a word of the table 0 says none, and no Option stands there, since it is a word of the lent work area (`table`, `codes`).
fn take_decrease(img: &mut [u64], place: usize, to: usize, p: Pair, bound: u64) -> Moved
    requires { Writable img.old place to p.0 }
    ensures { TookWord result img.old img.new place to bound (decrease p.0) }
{
    let q = img[place];
    if 0 < q {
        img[place] = q.min(p.0 + 1);
        Moved {
            passed: 0,
            ended: 1,
        }
    } else if p.0 <= bound {
        img[to] = Update::Delete(Pair(p.id())).word();
        img[place] = p.0 + 1;
        Moved {
            passed: 1,
            ended: 0,
        }
    } else {
        img[to] = Update::Decrease(p).word();
        Moved {
            passed: 1,
            ended: 0,
        }
    }
}

// "Sink: if at most the bound, enter it; else pass it on."
fn take_sink(img: &mut [u64], place: usize, to: usize, p: Pair, bound: u64) -> Moved
    requires { Writable img.old place to p.0 }
    ensures { TookWord result img.old img.new place to bound (sink p.0) }
{
    if bound < p.0 {
        img[to] = Update::Sink(p).word();
        Moved {
            passed: 1,
            ended: 0,
        }
    } else {
        img[place] = p.0 + 1;
        Moved {
            passed: 0,
            ended: 0,
        }
    }
}

// One update word w, at the word of its id: "kind 1 Decrease, 2 Delete (key 0), 3 Sink".
// Kept: no trait over this and `level`: between updates the words are a word for each id here, elements by place there (`TookWord`, `Took`).
fn take_one(img: &mut [u64], area: usize, to: usize, w: u64, bound: u64) -> Moved
    requires { (to < area) × (area + id_of (w % OPEN) < length img.old) }
    ensures { TookWord result img.old img.new (area + id_of (w % OPEN)) to bound (unword w) }
{
    match Update::from(w) {
        Update::Decrease(p) => take_decrease(img, area + p.id() as usize, to, p, bound),
        Update::Delete(p) => take_delete(img, area + p.id() as usize, to, p),
        Update::Sink(p) => take_sink(img, area + p.id() as usize, to, p, bound),
    }
}

// The pairs that the n words at `area` hold come to stand there from the front, with zeros behind them; the answer is their number.
#[tactic(auto, using(crate::proofs::Gathering::gather_past, crate::proofs::Gathering::gather_on))]
fn gather(img: &mut [u64], area: usize, n: usize) -> usize
    requires { area + n ≤ length img.old }
    ensures { Gathers result img.old img.new area n }
{
    let mut k = 0;
    for i in 0..n {
        let w = img[area + i];
        if 0 < w {
            img[area + i] = 0;
            img[area + k] = w - 1;
            k += 1;
        }
    }
    k
}

// `level::take_updates` by the table.
fn take_by_table(
    img: &mut [u64],
    area: usize,
    m: usize,
    n: usize,
    at: usize,
    count: usize,
    bound: u64,
) -> Counts
    requires { Desk img.old area m n at count }
    ensures { TookAll result img.old img.new area m n at count bound }
{
    scatter(img, area, m, n);
    let mut passed = 0;
    let mut ended = 0;
    for j in 0..count {
        let w = img[at + j];
        let took = take_one(img, area, at + passed, w, bound);
        passed += took.passed;
        ended += took.ended;
    }
    let elements = gather(img, area, n);
    words_moved::clear(img, at + passed, count - passed);
    Counts {
        elements,
        passed,
        ended,
    }
}

// "each level takes its updates in order": many of them by the table, few by looking each up. What is left in the words is the same.
// Kept: seven numbers of one visit and no struct; the one caller, `descent::visit`, would fill it field by field, and `Desk` and `TookAll` take each by itself.
pub fn take_updates(
    img: &mut [u64],
    area: usize,
    m: usize,
    n: usize,
    at: usize,
    count: usize,
    bound: u64,
) -> Counts
    requires { Desk img.old area m n at count }
    ensures { TookAll result img.old img.new area m n at count bound }
{
    if n / FEW < count {
        take_by_table(img, area, m, n, at, count, bound)
    } else {
        level::take_updates(img, area, m, n, at, count, bound)
    }
}
