// OUTWARD. The queue's calls on a lent image: any slice, any numbers. A call that is not taken gives the page's refusal and writes nothing. What each answers
// and leaves is Rattle.layout.specs.Calls; the demands are Rattle.demands.specs. Each call on an image has an inner twin for an image that is known to be sound.
#![tactic(auto)]

ghost use Rattle.std.specs.Prelude.{◌≡◌, ◌<◌, ◌↔◌, IsTrue, MatchResult};
ghost use Rattle.rules.specs.Pair.{InRange, KEYS, pair_of};
ghost use Rattle.rules.specs.Update.{decrease as decrease_of, delete as delete_of};
ghost use Rattle.rules.specs.Queue.{make_room, updated};
ghost use Rattle.layout.specs.Words.{unword};
ghost use Rattle.layout.specs.SoundImage.{n_of, heap_of, laid_back, SoundImage};
ghost use Rattle.layout.specs.Calls.{fresh_call, push_call, decrease_call, delete_call, ByVerdict};
ghost use Rattle.refusals.specs.Numbers.{code_of, number_of};
ghost use Rattle.delete_min.specs.Takes.{Takes};
ghost use Rattle.level_queue.specs.Answers.{outcome, Refusal as RefusalNumber, RefusesId};
ghost use Rattle.level_queue.specs.MinAnswers.{MinOutcome};
ghost use Rattle.level_queue.specs.Updatable.{Updatable};

use delete_min::Popped;
use pair::{Pair, Update};
use places::{N_AT, WAITING_AT};
use refusals::Refusal;

// Makes the slice a fresh image for n ids; its old words do not matter. "The making of a fresh image answers only" that it was taken. Refusals 1, 2.
pub fn fresh(image: &mut [u64], n: u64) -> Result<(), Refusal>
    ensures { outcome result image.new ≡ fresh_call n image.old }
{
    if !in_range(n) {
        return Err(Refusal::IdCount);
    }
    let ids = n as usize;
    if image.len() < fresh_image::need_of(ids) {
        return Err(Refusal::ShortImage);
    }
    fresh_image::make_fresh(image, ids);
    Ok(())
}

// "n is 0 or above 65,536" is not so.
fn in_range(n: u64) -> bool
    ensures { IsTrue result ↔ InRange n }
{
    1 <= n && n <= Pair::IDS
}

// Lowers the cost of an id, or enters it. Refusals 2, 3, 4, 5.
pub fn decrease(image: &mut [u64], id: u64, key: u64) -> Result<(), Refusal>
    ensures { ByVerdict image.old (λ v. decrease_call v image.old id key) (outcome result image.new) }
{
    judge_id(image, id)?;
    if Pair::KEY_LIMIT <= key {
        return Err(Refusal::HighKey);
    }
    inner_decrease(image, id, key);
    Ok(())
}

// Takes an id out. Refusals 2, 3, 4.
pub fn delete(image: &mut [u64], id: u64) -> Result<(), Refusal>
    ensures { ByVerdict image.old (λ v. delete_call v image.old id) (outcome result image.new) }
{
    judge_id(image, id)?;
    inner_delete(image, id);
    Ok(())
}

// Takes the smallest live pair out: its id and key, and how many levels were visited for it; "If no level holds one, the answer is empty". Refusals 2, 3.
#[tactic(auto, using(crate::proofs::Returns::good_number, crate::proofs::Returns::min_unsound, crate::proofs::Returns::min_given))]
pub fn delete_min(image: &mut [u64]) -> Result<Popped, Refusal>
    ensures { MinOutcome image.old result image.new }
{
    judge(image)?;
    Ok(inner_delete_min(image))
}

// Refusals 2 and 3 of a slice, or none where it holds a sound image.
pub fn judge(image: &[u64]) -> Result<(), Refusal>
    ensures { RefusalNumber image.now (code_of result) }
{
    Ok(sound::judge(image)?)
}

// Refusals 2, 3 and 4 of a call on an id.
fn judge_id(image: &[u64], id: u64) -> Result<(), Refusal>
    ensures { MatchResult result (λ _. SoundImage image.now × (id < n_of image.now)) (λ r. RefusesId image.now id (number_of r)) }
{
    judge(image)?; // 2, 3
    if image[N_AT] <= id {
        return Err(Refusal::NoSuchId);
    }
    Ok(())
}

// ---- the inner twins: "Inner calls may rely on a sound image"

pub fn inner_decrease(image: &mut [u64], id: u64, key: u64)
    requires { SoundImage image.old × (id < n_of image.old) × (key < KEYS) }
    ensures { image.new ≡ (push_call image.old (decrease_of (pair_of key id))).image }
{
    let p = Pair::make(key, id);
    let w = Update::Decrease(p).word();
    update(image, w);
}

pub fn inner_delete(image: &mut [u64], id: u64)
    requires { SoundImage image.old × (id < n_of image.old) }
    ensures { image.new ≡ (push_call image.old (delete_of id)).image }
{
    let w = Update::Delete(Pair(id)).word();
    update(image, w);
}

pub fn inner_delete_min(image: &mut [u64]) -> Popped
    requires { SoundImage image.old }
    ensures { Takes result image.old image.new }
{
    delete_min::delete_min(image)
}

// The word of a Decrease or Delete pushed at level 0, with room made for it first.
fn update(image: &mut [u64], w: u64)
    requires { Updatable image.old w }
    ensures { image.new ≡ laid_back image.old (updated (n_of image.old) (unword w) (heap_of image.old)) }
{
    make_room(image);
    push_update::push(image, w);
}

// What comes before a push: "If word 2 equals n, tidy first."
fn make_room(image: &mut [u64])
    requires { SoundImage image.old }
    ensures { image.new ≡ laid_back image.old (make_room (n_of image.old) (heap_of image.old)) }
{
    if image[WAITING_AT] == image[N_AT] {
        tidy::tidy(image);
    }
}
