// The clauses of a sound image on single words and on stretches of words: zeros, element words, update words, and how many wait.
// The meanings are Rattle.image_clauses.specs.Clauses.
#![tactic(auto)]

ghost use Rattle.std.specs.Prelude.{◌≡◌, ◌+◌, ◌≤◌, length};
ghost use Rattle.plain.specs.Lists.{tally};
ghost use Rattle.lists.specs.Put.{part};
ghost use Rattle.rules.specs.Update.{waits};
ghost use Rattle.layout.specs.Words.{unword, unwords};
ghost use Rattle.image_clauses.specs.Clauses.{Says, AllZero, PairOk, UpdateOk};

use pair::{Pair, Update};

// Whether `count` words from `at` on are all zero. No word is told apart on the way: a loop that ends early cannot take several words at a time, and
// most of an image is such words.
pub fn zeros(img: &[u64], at: usize, count: usize) -> bool
    requires { at + count ≤ length img.now }
    ensures { Says result (AllZero (part img.now at count)) }
{
    let mut all = 0;
    for w in &img[at..at + count] {
        all |= *w;
    }
    all == 0
}

// Whether p is a pair of an id below n, at least `low`, at most `high` and below the open bound.
pub fn pair_ok(p: u64, n: u64, low: u64, high: u64) -> bool
    ensures { Says result (PairOk n low high p) }
{
    Pair(p).id() < n && p < Pair::OPEN && p <= high && low <= p
}

// Whether w is an update of an id below n, of a kind from 1 to `top`, that may wait at a level with the floor `low`.
pub fn update_ok(w: u64, n: u64, low: u64, top: u64) -> bool
    ensures { Says result (UpdateOk n low top w) }
{
    // Kept: the kind as a number, for any word may stand in a lent image, and one of a kind above 3 reads as a Sink.
    let kind = Update::kind(w);
    let pair = w % Pair::OPEN;
    if kind < 1 || kind > top || Pair(w).id() >= n {
        return false;
    }
    // A return and no `else`: of one value for both the compiler made a choice without a branch, which took the program `queue` a sixth more instructions.
    if kind == Update::DELETE {
        return pair < Pair::IDS;
    }
    low <= pair
}

// Whether the word w is a Decrease or a Delete.
pub fn waits(w: u64) -> bool
    ensures { result ≡ waits (unword w) }
{
    // Kept: the kind as a number, as in `update_ok`.
    matches!(Update::kind(w), Update::DECREASE | Update::DELETE)
}

// How many of `count` words from `at` on are Decreases and Deletes.
pub fn waiting(img: &[u64], at: usize, count: usize) -> usize
    requires { at + count ≤ length img.now }
    ensures { result ≡ tally waits (unwords (part img.now at count)) }
{
    // Kept: a sum over a loop, for `iter().filter().count()` branches at each word: 0.80 s and not 0.52 s for 20,000 times 65,000 words.
    let mut found = 0;
    for u in &img[at..at + count] {
        found += usize::from(waits(*u));
    }
    found
}
