// One reading of a level's element words and of its update words: each word is tested, and noted in a table that holds for each id what its
// last entry was (0 nothing yet, 1 a Delete, 2 any other). The meanings are Rattle.image_clauses.specs.Marks.
#![tactic(auto)]

ghost use Rattle.std.specs.Prelude.{[], ◌∷◌, ◌+◌, ◌<◌, ◌≤◌, length};
ghost use Rattle.plain.specs.Lists.{Every};
ghost use Rattle.lists.specs.Put.{part};
ghost use Rattle.rules.specs.Pair.{id_of};
ghost use Rattle.rules.specs.Heap.{stores};
ghost use Rattle.layout.specs.Words.{unwords};
ghost use Rattle.image_clauses.specs.Clauses.{Pairs, UpdateOk};
ghost use Rattle.image_clauses.specs.Marks.{Noted, Read};

use pair::{Pair, Update};

// The marks of a last entry.
// Kept: bytes and no enum, for `note_pair`, `note_update` and `level_tests::level_ok` promise their answers on a table of any bytes.
const DELETED: u8 = 1;

const SET: u8 = 2;

// A stored pair: false where its id's last entry is there and is no Delete.
pub fn note_pair(last: &mut [u8], p: u64) -> bool
    requires { id_of p < length last.old }
    ensures { Noted result last.old last.new (stores (p ∷ [])) }
{
    let id = Pair(p).id() as usize;
    if last[id] >= SET {
        return false;
    }
    last[id] = SET;
    true
}

// An update word.
pub fn note_update(last: &mut [u8], w: u64) -> bool
    requires { id_of w < length last.old }
    ensures { Noted result last.old last.new (unwords (w ∷ [])) }
{
    // Kept: the kind as a number, as in `stretch_tests::update_ok`; read as an `Update` the words took the program `queue` an eighth more instructions.
    let id = Pair(w).id() as usize;
    match Update::kind(w) {
        Update::DECREASE => {
            last[id] = SET;
            true
        }
        Update::DELETE => {
            last[id] = DELETED;
            true
        }
        _ => note_pair(last, w),
    }
}

// Whether `count` words from `at` on are pairs as a level with the floor `low` and the bound `high` has them, ids strictly ascending, that come
// in order.
pub fn read_pairs(
    img: &[u64],
    at: usize,
    count: usize,
    n: u64,
    low: u64,
    high: u64,
    last: &mut [u8],
) -> bool
    requires { (at + count ≤ length img.now) × (n ≤ length last.old) }
    ensures { Read (Pairs n low high 0 (part img.now at count)) result last.old last.new (stores (part img.now at count)) }
{
    let mut next = 0;
    for p in &img[at..at + count] {
        let id = Pair(*p).id();
        if id < next || !stretch_tests::pair_ok(*p, n, low, high) || !note_pair(last, *p) {
            return false;
        }
        next = id + 1;
    }
    true
}

// Whether `count` words from `at` on are updates of the kinds 1 to `top`, as a level with the floor `low` has them, that come in order.
pub fn read_updates(
    img: &[u64],
    at: usize,
    count: usize,
    n: u64,
    low: u64,
    top: u64,
    last: &mut [u8],
) -> bool
    requires { (at + count ≤ length img.now) × (n ≤ length last.old) }
    ensures { Read (Every (UpdateOk n low top) (part img.now at count)) result last.old last.new (unwords (part img.now at count)) }
{
    for w in &img[at..at + count] {
        if !stretch_tests::update_ok(*w, n, low, top) || !note_update(last, *w) {
            return false;
        }
    }
    true
}
