// The cuts of the stopping level's elements: the smallest, and the bounds under which the 2, 4, 8 and on smallest lie. Split and refill go by
// them, and no element leaves its place for it.
#![tactic(auto)]

ghost use Rattle.std.specs.Prelude.{◌≡◌, ◌+◌, ◌<◌, ◌≤◌, length, replicate};
ghost use Rattle.rules.specs.Pair.{ROWS};
ghost use Rattle.lists.specs.Put.{part};
ghost use Rattle.cuts.specs.Ladder.{cut_of, LadderOf, Ladder};

use header::Header;

// The r-th of the sorted pairs, or b where there are no more than r.
fn cut_at(sorted: &[u64], r: usize, b: u64) -> u64
    requires { 1 ≤ r }
    ensures { result ≡ cut_of b r sorted.now }
{
    if sorted.len() <= r { b } else { sorted[r - 1] }
}

// The smallest of the sorted pairs, and then the cuts at 2, 4, .. 2^k.
#[tactic(auto, using(crate::proofs::Ladders::ladder_turn))]
fn ladder(sorted: &[u64], k: usize, b: u64) -> [u64; Header::ROWS]
    requires { (1 ≤ length sorted.now) × (k < ROWS) }
    ensures { LadderOf b sorted.now k result }
{
    let mut p = [0u64; Header::ROWS];
    p[0] = sorted[0];
    for j in 1..=k {
        p[j] = cut_at(sorted, 1 << j, b);
    }
    p
}

// The cuts of the m pairs at `work`. A copy of them is sorted at `at`, among zeros, which are there again afterwards. One pair is in order
// where it stands.
pub fn cuts(
    img: &mut [u64],
    work: usize,
    m: usize,
    at: usize,
    k: usize,
    b: u64,
) -> [u64; Header::ROWS]
    requires { (work + m ≤ length img.old) × (at + m ≤ work) × (1 ≤ m) × (k < ROWS) × (part img.old at m ≡ replicate m 0) }
    ensures { (img.new ≡ img.old) × Ladder b (part img.old work m) k result }
{
    if m == 1 {
        return ladder(&img[work..work + m], k, b);
    }
    words_moved::copy(img, work, at, m);
    tidy_parts::sort_part(img, at, m);
    let p = ladder(&img[at..at + m], k, b);
    words_moved::clear(img, at, m);
    p
}
