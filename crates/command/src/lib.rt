// A line of bytes as a command of the queue program. What each form means is specs/Commands.
#![tactic(auto)]

ghost use Rattle.std.specs.Prelude.{◌≡◌, [], ◌∷◌, MatchOption};
ghost use Rattle.text.specs.Cuts.{space, cut_at};
ghost use Rattle.command.specs.Commands.{number_of, keyword_of, asks_alone, asks_one, asks_two, command_of};

// "`new N`, `dec ID KEY`, `del ID`, `min`", or "a line of any other form".
// Kept: `Other` is no absence: "a line of any other form" is a case of the page, answered `refused 7` (replies::respond, theorems on `command_of`).
#[derive(Clone, Copy)]
pub enum Command {
    New(u64),
    Dec { id: u64, key: u64 },
    Del(u64),
    Min,
    Other,
}

// The first word of a command.
#[derive(Clone, Copy)]
pub enum Keyword {
    New,
    Dec,
    Del,
    Min,
}

// The byte between two words, and the most digits of a decimal.
const SPACE: u8 = b' ';

const MOST_DIGITS: usize = 15;

// What a line asks.
#[tactic(auto, using(crate::proofs::Reading::words), unfolding(crate::specs::Commands::command_of, crate::specs::Commands::words_ask))]
pub fn command_of(line: &[u8]) -> Command
    ensures { result ≡ command_of line.now }
{
    let (first, behind) = cut_once(line);
    let Some(word) = keyword_in(first) else {
        return Command::Other;
    };
    let Some(words) = behind else {
        return alone(word);
    };
    let (second, behind) = cut_once(words);
    let Some(a) = number_in(second) else {
        return Command::Other;
    };
    let Some(last) = behind else {
        return with_one(word, a);
    };
    let (third, None) = cut_once(last) else {
        return Command::Other;
    };
    let Some(b) = number_in(third) else {
        return Command::Other;
    };
    with_two(word, a, b)
}

// The first word of a line, and the words behind the space that ends it, where there is one.
fn cut_once(line: &[u8]) -> (&[u8], Option<&[u8]>)
    ensures { MatchOption result.1 (cut_at space line.now ≡ result.0.now ∷ []) (λ words. cut_at space line.now ≡ result.0.now ∷ cut_at space words.now) }
{
    match line.iter().position(|b| *b == SPACE) {
        Some(end) => (&line[..end], Some(&line[end + 1..])),
        None => (line, None),
    }
}

// "decimals of 1 to 15 digits": a word's value, where it is one.
#[tactic(auto, using(crate::proofs::Reading::numbers))]
fn number_in(word: &[u8]) -> Option<u64>
    ensures { result ≡ number_of word.now }
{
    if word.is_empty() || MOST_DIGITS < word.len() {
        return None;
    }
    let mut value = 0;
    for b in word {
        if !b.is_ascii_digit() {
            return None;
        }
        value = value * 10 + u64::from(*b - b'0');
    }
    Some(value)
}

#[tactic(auto, using(crate::proofs::Reading::keywords))]
fn keyword_in(word: &[u8]) -> Option<Keyword>
    ensures { result ≡ keyword_of word.now }
{
    match word {
        b"new" => Some(Keyword::New),
        b"dec" => Some(Keyword::Dec),
        b"del" => Some(Keyword::Del),
        b"min" => Some(Keyword::Min),
        _ => None,
    }
}

// `min`.
fn alone(word: Keyword) -> Command
    ensures { result ≡ asks_alone word }
{
    match word {
        Keyword::Min => Command::Min,
        _ => Command::Other,
    }
}

// `new N`, `del ID`.
fn with_one(word: Keyword, n: u64) -> Command
    ensures { result ≡ asks_one word n }
{
    match word {
        Keyword::New => Command::New(n),
        Keyword::Del => Command::Del(n),
        _ => Command::Other,
    }
}

// `dec ID KEY`.
fn with_two(word: Keyword, id: u64, key: u64) -> Command
    ensures { result ≡ asks_two word id key }
{
    match word {
        Keyword::Dec => Command::Dec { id, key },
        _ => Command::Other,
    }
}
