// A pair as one word, and an update as one word, with the fixed numbers of both. The meanings are Rattle.rules.specs.Pair and
// Rattle.layout.specs.Words; a caller's straight-line code needs no proof of its own.
#![tactic(auto)]

ghost use Rattle.std.specs.Prelude.{◌≡◌, ◌/◌, ◌<◌};
ghost use Rattle.rules.specs.Pair.{IDS, KEYS, OPEN, pair_of, key_of, id_of};
ghost use Rattle.rules.specs.Update.{decrease, delete, sink, pair_in};
ghost use Rattle.layout.specs.Words.{kind_in, word, SINK};
ghost use Rattle.pair.specs.Update.{update_of, IsReadFrom};

// "A pair is key x 65,536 + id, so whole numbers compare in the right order."
#[derive(Clone, Copy)]
pub struct Pair(pub u64);

impl Pair {
    // "The open bound 2^56 and the key limit 2^40 belong to the pair as its fixed numbers."
    pub const OPEN: u64 = 1 << 56;

    pub const KEY_LIMIT: u64 = 1 << 40;

    pub const IDS: u64 = 65536;

    pub fn make(key: u64, id: u64) -> Pair
        requires { (key < KEYS) × (id < IDS) }
        ensures { result.0 ≡ pair_of key id }
    {
        Pair(key * Pair::IDS + id)
    }

    pub fn key(self) -> u64
        ensures { result ≡ key_of self.0 }
    {
        self.0 / Pair::IDS
    }

    pub fn id(self) -> u64
        ensures { result ≡ id_of self.0 }
    {
        self.0 % Pair::IDS
    }
}

// "An update word is kind x 2^56 + pair; kind 1 Decrease, 2 Delete (key 0), 3 Sink." Each holds its pair; a Delete's pair has key 0, so it is the id.
#[derive(Clone, Copy)]
pub enum Update {
    Decrease(Pair),
    Delete(Pair),
    Sink(Pair),
}

impl Update {
    pub const DECREASE: u64 = 1;

    pub const DELETE: u64 = 2;

    pub const SINK: u64 = 3;

    // A pair with this added is the word of its Sink.
    pub const SINK_TAG: u64 = Update::SINK * Pair::OPEN;

    // The update as a word.
    pub fn word(self) -> u64
        requires { pair_in (update_of self) < OPEN }
        ensures { result ≡ word (update_of self) }
    {
        match self {
            Update::Decrease(p) => Update::DECREASE * Pair::OPEN + p.0,
            Update::Delete(p) => Update::DELETE * Pair::OPEN + p.0,
            Update::Sink(p) => Update::SINK_TAG + p.0,
        }
    }

    // The kind of a word that may be no update's.
    pub fn kind(w: u64) -> u64
        ensures { result ≡ w / OPEN }
    {
        w / Pair::OPEN
    }
}

// Any word read as an update: of another kind than 1 and 2 it is a Sink.
impl From<u64> for Update {
    ghost from_gives = { IsReadFrom };

    fn from(w: u64) -> Update {
        let p = Pair(w % Pair::OPEN);
        match Update::kind(w) {
            Update::DECREASE => Update::Decrease(p),
            Update::DELETE => Update::Delete(p),
            _ => Update::Sink(p),
        }
    }
}

// The fixed numbers of the code are those of the meanings.
fn numbers_agree()
    ensures { (Pair.OPEN ≡ OPEN) × (Pair.KEY_LIMIT ≡ KEYS) × (Pair.IDS ≡ IDS) × (Update.SINK_TAG ≡ SINK) }
{}

// The kinds of the code are those of the meanings, whatever the pair.
fn kinds_agree(p: u64)
    ensures { (Update.DECREASE ≡ kind_in (decrease p)) × (Update.DELETE ≡ kind_in (delete p)) × (Update.SINK ≡ kind_in (sink p)) }
{}
