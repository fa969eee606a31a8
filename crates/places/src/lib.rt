// Where the words of an image lie, by name: the header's words, the words before the rows and of a row, the stack's words for each id, the smallest
// slice. The meanings are Rattle.layout.specs.Image; every other crate of code cites these names.
#![tactic(auto)]

ghost use Rattle.std.specs.Prelude.{◌≡◌};
ghost use Rattle.layout.specs.Image.{HEAD as head_of, ROW as row_of, stack_words};
ghost use Rattle.layout.specs.SoundImage.{SMALLEST as smallest_of};

// "0, 1, 2: n; L; number of waiting Decreases and Deletes". "3, 4, 5: offset of elements, of the update stack, of the work area".
pub const N_AT: usize = 0;

pub const LEVELS_AT: usize = 1;

pub const WAITING_AT: usize = 2;

pub const ELEMENTS_AT: usize = 3;

pub const STACK_AT: usize = 4;

pub const WORK_AT: usize = 5;

// The words before the rows, and those of a row: "upper bound, element count, update count".
pub const HEAD: usize = 6;

pub const ROW: usize = 3;

pub const BOUND: usize = 0;

pub const ELEMENTS: usize = 1;

pub const UPDATES: usize = 2;

// "update stack: 3n words"
pub const STACK: usize = 3;

// "under 14 words"
pub const SMALLEST: usize = 14;

// The names of the code are those of the meanings.
fn places_agree()
    ensures { (HEAD ≡ head_of) × (ROW ≡ row_of) × (STACK ≡ stack_words 1) × (SMALLEST ≡ smallest_of) }
{}
