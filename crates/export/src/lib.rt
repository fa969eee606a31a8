// What goes out to C, as a library (the crate `export_c` gives it the C names): the outward calls as functions on numbers and slices, a pointer and a count of words each. The answer is 0, or the page's refusal
// number; Delete-Min's is 1 where it says empty. The inner calls rely on a sound image, which their caller has tested or made.
#![tactic(auto)]

ghost use Rattle.std.specs.Prelude.{◌≡◌, ◌<◌};
ghost use Rattle.rules.specs.Pair.{KEYS, pair_of};
ghost use Rattle.rules.specs.Update.{decrease as decrease_of, delete as delete_of};
ghost use Rattle.layout.specs.SoundImage.{n_of, SoundImage};
ghost use Rattle.layout.specs.Calls.{fresh_call, push_call, decrease_call, delete_call, ByVerdict};
ghost use Rattle.level_queue.specs.Answers.{outcome, Refusal as RefusalNumber};
ghost use Rattle.refusals.specs.Numbers.{code_of, numbered};
ghost use Rattle.export.specs.Numbered.{Numbered, ValueGiven};
ghost use Rattle.sheet.specs.Answer.{accept_of};
ghost use Rattle.export.specs.RunNumbered.{RunAnswered};
ghost use Rattle.sheet_records.specs.Judged.{edges_of};
ghost use Rattle.sheet_writer.specs.Answers.{records_of};
ghost use Rattle.export.specs.WriteNumbered.{WriteAnswered};
ghost use Rattle.export.specs.SheetNumbered.{SheetGiven};
ghost use Rattle.export.specs.MinNumbered.{MinGiven, MinAnswered, InnerAnswered};

use delete_min::Popped;
use refusals::Refusal;
use sheet::Sheet;
use sheet_writer::Edge;

// The number that an answer goes out by.
fn number(a: Result<(), Refusal>) -> u64
    ensures { result ≡ code_of a }
{
    match a {
        Ok(()) => 0,
        Err(r) => u64::from(r),
    }
}

pub fn lq_fresh(image: &mut [u64], n: u64) -> u64
    ensures { Numbered result (λ a. outcome a image.new ≡ fresh_call n image.old) }
{
    number(level_queue::fresh(image, n))
}

pub fn lq_decrease(image: &mut [u64], id: u64, key: u64) -> u64
    ensures { Numbered result (λ a. ByVerdict image.old (λ v. decrease_call v image.old id key) (outcome a image.new)) }
{
    number(level_queue::decrease(image, id, key))
}

pub fn lq_delete(image: &mut [u64], id: u64) -> u64
    ensures { Numbered result (λ a. ByVerdict image.old (λ v. delete_call v image.old id) (outcome a image.new)) }
{
    number(level_queue::delete(image, id))
}

// 0 for a sound image, else 2 or 3.
pub fn lq_judge(image: &[u64]) -> u64
    ensures { RefusalNumber image.now result }
{
    number(level_queue::judge(image))
}

// Delete-Min's answer: 0 with its id, key and reach, 1 with the reach where it is empty, or the refusal, with nothing written.
fn give(a: Result<Popped, Refusal>, id: &mut u64, key: &mut u64, reach: &mut u64) -> u64
    ensures { MinGiven result a id.old key.old reach.old id.new key.new reach.new }
{
    match a {
        Ok(
            Popped::Min {
                id: i,
                key: k,
                reach: l,
            },
        ) => {
            *id = i;
            *key = k;
            *reach = l;
            0
        }
        Ok(Popped::Empty { reach: l }) => {
            *reach = l;
            1
        }
        Err(r) => u64::from(r),
    }
}

pub fn lq_delete_min(image: &mut [u64], id: &mut u64, key: &mut u64, reach: &mut u64) -> u64
    ensures { MinAnswered result image.old image.new id.old key.old reach.old id.new key.new reach.new }
{
    give(level_queue::delete_min(image), id, key, reach)
}

// ---- the inner calls

pub fn lq_inner_decrease(image: &mut [u64], id: u64, key: u64)
    requires { SoundImage image.old × (id < n_of image.old) × (key < KEYS) }
    ensures { image.new ≡ (push_call image.old (decrease_of (pair_of key id))).image }
{
    level_queue::inner_decrease(image, id, key);
}

pub fn lq_inner_delete(image: &mut [u64], id: u64)
    requires { SoundImage image.old × (id < n_of image.old) }
    ensures { image.new ≡ (push_call image.old (delete_of id)).image }
{
    level_queue::inner_delete(image, id);
}

pub fn lq_inner_delete_min(image: &mut [u64], id: &mut u64, key: &mut u64, reach: &mut u64) -> u64
    requires { SoundImage image.old }
    ensures { InnerAnswered result image.old image.new id.old key.old reach.old id.new key.new reach.new }
{
    give(Ok(level_queue::inner_delete_min(image)), id, key, reach)
}

// ---- sheets

// What a sheet's acceptance goes out as: 0 with its n, its h and the chosen source, or the refusal, with nothing written.
fn give_sheet(a: Result<Sheet, Refusal>, n: &mut u64, h: &mut u64, source: &mut u64) -> u64
    ensures { SheetGiven result (numbered a) n.old h.old source.old n.new h.new source.new }
{
    match a {
        Ok(sheet) => {
            *n = sheet.n as u64;
            *h = sheet.h as u64;
            *source = sheet.source as u64;
            0
        }
        Err(r) => u64::from(r),
    }
}

pub fn lq_accept(sheet: &[u8], n: &mut u64, h: &mut u64, source: &mut u64) -> u64
    ensures { SheetGiven result (accept_of sheet.now) n.old h.old source.old n.new h.new source.new }
{
    give_sheet(sheet::accept(sheet), n, h, source)
}

// ---- the run

// 0 with the number that a call gives, which is written, or the refusal, with nothing written.
fn give_value(a: Result<u64, Refusal>, value: &mut u64) -> u64
    ensures { ValueGiven result a value.old value.new }
{
    match a {
        Ok(k) => {
            *value = k;
            0
        }
        Err(r) => u64::from(r),
    }
}

// The number reached.
pub fn lq_distances(
    sheet: &[u8],
    distances: &mut [u64],
    image: &mut [u64],
    reached: &mut u64,
) -> u64
    ensures { RunAnswered result sheet.now distances.old image.old distances.new image.new reached.old reached.new }
{
    give_value(run::distances(sheet, distances, image), reached)
}

// ---- the writer

// The length written.
pub fn lq_write(
    target: &mut [u8],
    n: u64,
    source: u64,
    ones: &[u64],
    others: &[u64],
    weights: &[u64],
    length: &mut u64,
) -> u64
    ensures { WriteAnswered result n source (edges_of ones.now others.now weights.now) target.old target.new length.old length.new }
{
    give_value(
        sheet_writer::write_slices(target, n, source, ones, others, weights),
        length,
    )
}

// The same from a slice of records, three words each.
pub fn lq_write_edges(
    target: &mut [u8],
    n: u64,
    source: u64,
    edges: &[Edge],
    length: &mut u64,
) -> u64
    ensures { WriteAnswered result n source (records_of edges.now) target.old target.new length.old length.new }
{
    give_value(sheet_writer::write(target, n, source, edges), length)
}
