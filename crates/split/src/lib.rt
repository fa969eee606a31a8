// Words of an image moved while Delete-Min works: a level's elements into the work area, and a part split by a bound.
#![tactic(auto)]

ghost use Rattle.std.specs.Prelude.{◌≡◌, ◌+◌, ◌*◌, ◌<◌, ◌≤◌, length, replicate};
ghost use Rattle.std.proofs.lemmas.List.Edits.{sets};
ghost use Rattle.plain.specs.Lists.{Every};
ghost use Rattle.lists.specs.Put.{part};
ghost use Rattle.rules.specs.Pair.{OPEN};
ghost use Rattle.split.specs.Split.{Parted};

// m words go up to `to`, and zeros stay in their place.
pub fn lift(img: &mut [u64], from: usize, to: usize, m: usize)
    requires { (from + m ≤ to) × (to + m ≤ length img.old) }
    ensures { img.new ≡ sets (sets img.old to (part img.old from m)) from (replicate m 0) }
{
    words_moved::copy(img, from, to, m);
    words_moved::clear(img, from, m);
}

// Of the m pairs at `area` those above v go to `to`, each with the tag added. The others close up, and zeros stand behind them; the answer is
// how many they are. Both parts keep their order.
pub fn split(img: &mut [u64], area: usize, m: usize, to: usize, tag: u64, v: u64) -> usize
    requires { (area + m ≤ length img.old) × (to + m ≤ area) × (tag ≤ 3 * OPEN) × Every (λ p. p < OPEN) (part img.old area m) }
    ensures { Parted result img.old img.new area m to tag v }
{
    let mut k = 0;
    for j in 0..m {
        let p = img[area + j];
        if v < p {
            img[to + (j - k)] = tag + p;
        } else {
            img[area + k] = p;
            k += 1;
        }
    }
    words_moved::clear(img, area + k, m - k);
    k
}
