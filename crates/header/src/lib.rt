// The image's header as one record with its level rows: read out of an image, stored back, and one row brought up to date, by value and in place.
// The meanings are specs/Record.antt.
#![tactic(auto)]

ghost use Rattle.std.specs.Prelude.{◌≡◌, [], ◌∷◌, ◌+◌, ◌*◌, ◌<◌, ◌≤◌, length};
ghost use Rattle.std.proofs.lemmas.List.Edits.{sets};
ghost use Rattle.rules.specs.Pair.{ROWS};
ghost use Rattle.layout.specs.Image.{HEAD, ROW};
ghost use Rattle.header.specs.Record.{row_of, header_upto, words_upto, with_row};

// "The header is held as one record with its level rows (at most seventeen)": three flat arrays beside n, L and the offsets. Each field is a
// word of the image.
#[derive(Clone, Copy)]
pub struct Header {
    pub n: u64,
    pub levels: u64,
    pub waiting: u64,
    pub elements_at: u64,
    pub stack_at: u64,
    pub work_at: u64,
    pub bounds: [u64; Header::ROWS],
    pub element_counts: [u64; Header::ROWS],
    pub update_counts: [u64; Header::ROWS],
}

impl Header {
    // the rows of a record
    pub const ROWS: usize = 17;
}

// "level i: upper bound, element count, update count"
#[derive(Clone, Copy)]
pub struct Row {
    pub bound: u64,
    pub elements: u64,
    pub updates: u64,
}

// One level's row, as the words say it.
pub fn row_at(img: &[u64], i: usize) -> Row
    requires { HEAD + ROW * i + ROW ≤ length img.now }
    ensures { result ≡ row_of img.now i }
{
    let at = places::HEAD + places::ROW * i;
    Row {
        bound: img[at + places::BOUND],
        elements: img[at + places::ELEMENTS],
        updates: img[at + places::UPDATES],
    }
}

// The header of any words, with the rows of the first levels, so many as are asked for. A Delete-Min that stops early has few to bring up to date.
pub fn load(img: &[u64], rows: usize) -> Header
    requires { (rows ≤ ROWS) × (HEAD + ROW * rows ≤ length img.now) }
    ensures { result ≡ header_upto img.now rows }
{
    let mut h = Header {
        n: img[places::N_AT],
        levels: img[places::LEVELS_AT],
        waiting: img[places::WAITING_AT],
        elements_at: img[places::ELEMENTS_AT],
        stack_at: img[places::STACK_AT],
        work_at: img[places::WORK_AT],
        bounds: [0u64; Header::ROWS],
        element_counts: [0u64; Header::ROWS],
        update_counts: [0u64; Header::ROWS],
    };
    for i in 0..rows {
        let row = row_at(img, i);
        h.bounds[i] = row.bound;
        h.element_counts[i] = row.elements;
        h.update_counts[i] = row.updates;
    }
    h
}

// The three words of one level's row.
pub fn store_row(img: &mut [u64], i: usize, row: Row)
    requires { HEAD + ROW * i + ROW ≤ length img.old }
    ensures { img.new ≡ sets img.old (HEAD + ROW * i) (row.bound ∷ row.elements ∷ row.updates ∷ []) }
{
    let at = places::HEAD + places::ROW * i;
    img[at + places::BOUND] = row.bound;
    img[at + places::ELEMENTS] = row.elements;
    img[at + places::UPDATES] = row.updates;
}

// The header stored back: its words and the rows of the first levels, and no other word.
pub fn store(img: &mut [u64], h: Header, rows: usize)
    requires { (rows ≤ ROWS) × (HEAD + ROW * rows ≤ length img.old) }
    ensures { img.new ≡ sets img.old 0 (words_upto h rows) }
{
    img[places::N_AT] = h.n;
    img[places::LEVELS_AT] = h.levels;
    img[places::WAITING_AT] = h.waiting;
    img[places::ELEMENTS_AT] = h.elements_at;
    img[places::STACK_AT] = h.stack_at;
    img[places::WORK_AT] = h.work_at;
    for i in 0..rows {
        let row = Row {
            bound: h.bounds[i],
            elements: h.element_counts[i],
            updates: h.update_counts[i],
        };
        store_row(img, i, row);
    }
}

// One level's row anew, by value.
pub fn with_row(h: Header, i: usize, row: Row) -> Header
    requires { i < ROWS }
    ensures { result ≡ with_row h i row.bound row.elements row.updates }
{
    let mut g = h;
    g.bounds[i] = row.bound;
    g.element_counts[i] = row.elements;
    g.update_counts[i] = row.updates;
    g
}

// "the header is brought up to date in place": the same row behind the reference.
pub fn set_row(h: &mut Header, i: usize, row: Row)
    requires { i < ROWS }
    ensures { h.new ≡ with_row h.old i row.bound row.elements row.updates }
{
    *h = with_row(*h, i, row);
}

// The record is lent to `set_row` for one row and handed back.
pub fn row_changed(h: Header, i: usize, row: Row) -> Header
    requires { i < ROWS }
    ensures { result ≡ with_row h i row.bound row.elements row.updates }
{
    let mut g = h;
    set_row(&mut g, i, row);
    g
}

// The fixed numbers of the code are those of the meanings.
fn numbers_agree()
    ensures { Header.ROWS ≡ ROWS }
{}
