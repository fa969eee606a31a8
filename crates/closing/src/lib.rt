// The end of Delete-Min: what was passed past the last level is dropped, and the header is stored back; or, with nothing left, the image is
// fresh again.
#![tactic(auto)]

ghost use Rattle.std.specs.Prelude.{◌≡◌, ◌<◌, ◌≤◌};
ghost use Rattle.rules.specs.Pair.{ROWS};
ghost use Rattle.closing.specs.Seal.{onward_of, SomeFilled, Seals};
ghost use Rattle.closing.specs.Wipe.{fresh_header, SomeSpent, Wipes};

use descent::Halt;
use header::Header;
use pair::Pair;
use refill::Refilled;

// What a stop means for what comes behind it: the level whose row has more updates, how many of the words passed on are dropped, how many updates
// are added, and word 2.
#[derive(Clone, Copy)]
struct Onward {
    next: usize,
    dropped: usize,
    added: usize,
    waiting: u64,
}

// "Past the last level a passed Delete is dropped", and nothing then waits. Otherwise all `added` wait at level k+1.
fn behind_stop(levels: usize, r: Halt, added: usize, waiting: u64) -> Onward
    requires { (r.level < ROWS) × (r.ended ≤ waiting) }
    ensures { result ≡ onward_of levels r.level r.passed added waiting r.ended }
{
    if levels <= r.level + 1 {
        Onward {
            next: r.level,
            dropped: r.passed,
            added: 0,
            waiting: 0,
        }
    } else {
        Onward {
            next: r.level + 1,
            dropped: 0,
            added,
            waiting: waiting - r.ended as u64,
        }
    }
}

// The levels stand filled again; the header follows. Only the rows of the levels visited, and of the one behind them, are touched.
pub fn seal(img: &mut [u64], r: Halt, q: Refilled)
    requires { SomeFilled img.old r q }
    ensures { Seals img.old img.new r q }
{
    let levels = img[places::LEVELS_AT] as usize;
    let waiting = img[places::WAITING_AT];
    let o = behind_stop(levels, r, r.passed + q.sunk, waiting);
    words_moved::clear(img, r.at, o.dropped);
    let rows = o.next + 1;
    let h = header::load(img, rows);
    let g = rows_after::rows_after(
        h,
        q.cuts,
        q.counts,
        r.level,
        q.bound,
        o.next,
        o.added as u64,
        o.waiting,
    );
    header::store(img, g, rows);
}

// "A fresh image has no elements or updates and all bounds open."
fn fresh_rows(h: Header) -> Header
    ensures { result ≡ fresh_header h }
{
    Header {
        waiting: 0,
        bounds: [Pair::OPEN; Header::ROWS],
        element_counts: [0; Header::ROWS],
        update_counts: [0; Header::ROWS],
        ..h
    }
}

// "If no level holds one, .. the image is fresh again": what is left on the stack goes, and the header is that of a fresh image.
pub fn wipe(img: &mut [u64], r: Halt)
    requires { SomeSpent img.old r }
    ensures { Wipes img.old img.new r }
{
    words_moved::clear(img, r.at, r.passed);
    let h = header::load(img, 0);
    header::store(img, fresh_rows(h), h.levels as usize);
}
