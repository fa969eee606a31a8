// The program `distances` but for its reading and writing: the text of a sheet's run in lent bytes. What it is is specs/Report.
#![tactic(auto)]

ghost use Rattle.std.specs.Prelude.{◌+◌, ◌*◌, ◌≤◌, length};
ghost use Rattle.answers.specs.Answers.{longest_text};
ghost use Rattle.report.specs.Report.{Reports, Answers};

use pieces::Text;
use refusals::Refusal;
use sheet_words::VERTICES_AT;

// "a sheet of at most 65,536 bytes (longer: `refused 11`, judged first)".
const SHEET: usize = 65536;

// Judges the length of a sheet, and reports its run.
pub fn answer(sheet: &[u8], distances: &mut [u64], image: &mut [u64], out: &mut [u8]) -> usize
    requires { longest_text * (length distances.old + 1) ≤ length out.old }
    ensures { Answers sheet.now distances.old image.old out.old result distances.new image.new out.new × (result ≤ length out.old) }
{
    if SHEET < sheet.len() {
        let mut text = Text::new(out);
        answers::refused(&mut text, u64::from(Refusal::SheetLength));
        return text.end;
    }
    report(sheet, distances, image, out)
}

// Runs over a sheet, and writes the text of its answer.
fn report(sheet: &[u8], distances: &mut [u64], image: &mut [u64], out: &mut [u8]) -> usize
    requires { longest_text * (length distances.old + 1) ≤ length out.old }
    ensures { Reports sheet.now distances.old image.old out.old result distances.new image.new out.new × (result ≤ length out.old) }
{
    let mut text = Text::new(out);
    match run::distances(sheet, distances, image) {
        Err(r) => answers::refused(&mut text, u64::from(r)),
        Ok(k) => {
            let n = sheet_words::word_at(sheet, VERTICES_AT);
            answers::reached(&mut text, k, n as u64);
            vertex_lines::put_rows(&mut text, distances, n);
        }
    }
    text.end
}
