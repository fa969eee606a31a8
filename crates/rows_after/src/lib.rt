// The header brought up to date after a stop, before it is stored back: the rows of the levels 0 to k, and of level k+1, which waits with more.
#![tactic(auto)]

ghost use Rattle.std.specs.Prelude.{◌<◌, ◌≤◌, suc};
ghost use Rattle.rules.specs.Pair.{ROWS};
ghost use Rattle.rows_after.specs.Rows.{MoreFits, Refreshed, RowsAfter};

use header::{Header, Row};

// The rows of the levels below k: the bounds are the cuts p, the element counts are given, no updates are left.
fn rows_below(
    h: Header,
    p: [u64; Header::ROWS],
    counts: [u64; Header::ROWS],
    k: usize,
    waiting: u64,
) -> Header
    requires { k < ROWS }
    ensures { Refreshed h result p counts k waiting }
{
    let mut g = h;
    g.waiting = waiting;
    for j in 0..k {
        g.bounds[j] = p[j + 1];
        g.element_counts[j] = counts[j];
        g.update_counts[j] = 0;
    }
    g
}

// "level k is left empty", with the bound v; level `next` waits with `added` more. It is level k+1; past the last level there is none, and then
// it is k itself and nothing is added. One path, whatever level it is, so that the compiler can change the record where it stands: with two, each copied it.
pub fn rows_after(
    h: Header,
    p: [u64; Header::ROWS],
    counts: [u64; Header::ROWS],
    k: usize,
    v: u64,
    next: usize,
    added: u64,
    waiting: u64,
) -> Header
    requires { (k ≤ next) × (next ≤ suc k) × (next < ROWS) × MoreFits h k next added }
    ensures { RowsAfter h result p counts k v next added waiting }
{
    let below = rows_below(h, p, counts, k, waiting);
    let emptied = Row {
        bound: v,
        elements: 0,
        updates: 0,
    };
    let g = header::row_changed(below, k, emptied);
    let fuller = Row {
        bound: g.bounds[next],
        elements: g.element_counts[next],
        updates: g.update_counts[next] + added,
    };
    header::row_changed(g, next, fuller)
}
