// The C face as a static library: each function of the crate `export` under its C name, with the same clauses. Nothing else is here.
#![tactic(auto)]

ghost use Rattle.std.specs.Prelude.{◌≡◌, ◌<◌};
ghost use Rattle.rules.specs.Pair.{KEYS, pair_of};
ghost use Rattle.rules.specs.Update.{decrease as decrease_of, delete as delete_of};
ghost use Rattle.layout.specs.SoundImage.{n_of, SoundImage};
ghost use Rattle.layout.specs.Calls.{fresh_call, push_call, decrease_call, delete_call, ByVerdict};
ghost use Rattle.level_queue.specs.Answers.{outcome, Refusal};
ghost use Rattle.export.specs.Numbered.{Numbered};
ghost use Rattle.sheet.specs.Answer.{accept_of};
ghost use Rattle.export.specs.RunNumbered.{RunAnswered};
ghost use Rattle.sheet_records.specs.Judged.{edges_of};
ghost use Rattle.sheet_writer.specs.Answers.{records_of};
ghost use Rattle.export.specs.WriteNumbered.{WriteAnswered};
ghost use Rattle.export.specs.SheetNumbered.{SheetGiven};
ghost use Rattle.export.specs.MinNumbered.{MinAnswered, InnerAnswered};

use sheet_writer::Edge;

#[unsafe(no_mangle)]
pub extern "C" fn lq_fresh(image: &mut [u64], n: u64) -> u64
    ensures { Numbered result (λ a. outcome a image.new ≡ fresh_call n image.old) }
{
    export::lq_fresh(image, n)
}

#[unsafe(no_mangle)]
pub extern "C" fn lq_decrease(image: &mut [u64], id: u64, key: u64) -> u64
    ensures { Numbered result (λ a. ByVerdict image.old (λ v. decrease_call v image.old id key) (outcome a image.new)) }
{
    export::lq_decrease(image, id, key)
}

#[unsafe(no_mangle)]
pub extern "C" fn lq_delete(image: &mut [u64], id: u64) -> u64
    ensures { Numbered result (λ a. ByVerdict image.old (λ v. delete_call v image.old id) (outcome a image.new)) }
{
    export::lq_delete(image, id)
}

// 0 for a sound image, else 2 or 3.
#[unsafe(no_mangle)]
pub extern "C" fn lq_judge(image: &[u64]) -> u64
    ensures { Refusal image.now result }
{
    export::lq_judge(image)
}

#[unsafe(no_mangle)]
pub extern "C" fn lq_delete_min(
    image: &mut [u64],
    id: &mut u64,
    key: &mut u64,
    reach: &mut u64,
) -> u64
    ensures { MinAnswered result image.old image.new id.old key.old reach.old id.new key.new reach.new }
{
    export::lq_delete_min(image, id, key, reach)
}

#[unsafe(no_mangle)]
pub extern "C" fn lq_inner_decrease(image: &mut [u64], id: u64, key: u64)
    requires { SoundImage image.old × (id < n_of image.old) × (key < KEYS) }
    ensures { image.new ≡ (push_call image.old (decrease_of (pair_of key id))).image }
{
    export::lq_inner_decrease(image, id, key);
}

#[unsafe(no_mangle)]
pub extern "C" fn lq_inner_delete(image: &mut [u64], id: u64)
    requires { SoundImage image.old × (id < n_of image.old) }
    ensures { image.new ≡ (push_call image.old (delete_of id)).image }
{
    export::lq_inner_delete(image, id);
}

#[unsafe(no_mangle)]
pub extern "C" fn lq_inner_delete_min(
    image: &mut [u64],
    id: &mut u64,
    key: &mut u64,
    reach: &mut u64,
) -> u64
    requires { SoundImage image.old }
    ensures { InnerAnswered result image.old image.new id.old key.old reach.old id.new key.new reach.new }
{
    export::lq_inner_delete_min(image, id, key, reach)
}

#[unsafe(no_mangle)]
pub extern "C" fn lq_accept(sheet: &[u8], n: &mut u64, h: &mut u64, source: &mut u64) -> u64
    ensures { SheetGiven result (accept_of sheet.now) n.old h.old source.old n.new h.new source.new }
{
    export::lq_accept(sheet, n, h, source)
}

#[unsafe(no_mangle)]
pub extern "C" fn lq_distances(
    sheet: &[u8],
    distances: &mut [u64],
    image: &mut [u64],
    reached: &mut u64,
) -> u64
    ensures { RunAnswered result sheet.now distances.old image.old distances.new image.new reached.old reached.new }
{
    export::lq_distances(sheet, distances, image, reached)
}

#[unsafe(no_mangle)]
pub extern "C" fn lq_write(
    target: &mut [u8],
    n: u64,
    source: u64,
    ones: &[u64],
    others: &[u64],
    weights: &[u64],
    length: &mut u64,
) -> u64
    ensures { WriteAnswered result n source (edges_of ones.now others.now weights.now) target.old target.new length.old length.new }
{
    export::lq_write(target, n, source, ones, others, weights, length)
}

// The same from a slice of records, three words each.
#[unsafe(no_mangle)]
pub extern "C" fn lq_write_edges(
    target: &mut [u8],
    n: u64,
    source: u64,
    edges: &[Edge],
    length: &mut u64,
) -> u64
    ensures { WriteAnswered result n source (records_of edges.now) target.old target.new length.old length.new }
{
    export::lq_write_edges(target, n, source, edges, length)
}
