// OUTWARD. The reading of a lent sheet: any bytes. `accept` judges the sheet whole and says what it holds, or gives the page's refusal. What it answers is
// `accept_of` (specs); what an accepted sheet gives to a caller is `Given`. A sheet's rows are then read by Rattle.sheet_words.
#![tactic(auto)]

ghost use Rattle.std.specs.Prelude.{◌≡◌};
ghost use Rattle.refusals.specs.Numbers.{numbered};
ghost use Rattle.sheet.specs.Answer.{accept_of};

use refusals::Refusal;
use sheet_words::{HALF_EDGES_AT, HEAD_BYTES, SOURCE_AT, VERTICES_AT};

// A sheet that is accepted: its n and h, and the vertex that its source stands for.
#[derive(Clone, Copy)]
pub struct Sheet {
    pub n: usize,
    pub h: usize,
    pub source: usize,
}

// Judges a sheet. Refusals 11 to 17, "in order of test"; "Each number is tested over the whole input before the next."
pub fn accept(s: &[u8]) -> Result<Sheet, Refusal>
    ensures { numbered result ≡ accept_of s.now }
{
    if s.len() < HEAD_BYTES {
        return Err(Refusal::SheetLength);
    }
    if sheet_tests::out_of_range(s) {
        return Err(Refusal::SheetCounts);
    }
    if sheet_tests::misfits(s) {
        return Err(Refusal::SheetLength); // "judged after 12"
    }
    let n = sheet_words::word_at(s, VERTICES_AT);
    let h = sheet_words::word_at(s, HALF_EDGES_AT);
    let v = sheet_words::word_at(s, SOURCE_AT);
    if sheet_words::wrong_source(n, v) {
        return Err(Refusal::Source);
    }
    if sheet_tests::wrong_starts(s, n) {
        return Err(Refusal::RowStarts);
    }
    if sheet_tests::wrong_targets(s, n) {
        return Err(Refusal::Targets);
    }
    if sheet_tests::wrong_weights(s, n) {
        return Err(Refusal::Weights);
    }
    if sheet_sides::one_sided(s, n) {
        return Err(Refusal::OneSided);
    }
    let source = sheet_words::chosen_source(n, v);
    Ok(Sheet { n, h, source })
}
