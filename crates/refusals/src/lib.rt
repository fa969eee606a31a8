// The refusals of the page, each by name and with its number. A call that is not taken answers with one of them alone.
#![tactic(auto)]

ghost use Rattle.refusals.specs.Numbers.{IsNumberOf};

// In the order of their numbers.
#[derive(Clone, Copy, Debug, PartialEq, Eq)]
pub enum Refusal {
    // 1: "making a fresh image: n is 0 or above 65,536"
    IdCount,
    // 2: "image slice too short"
    ShortImage,
    // 3: "image not sound"
    UnsoundImage,
    // 4: "id >= n"
    NoSuchId,
    // 5: "key >= 2^40"
    HighKey,
    // 7: "a line of any other form"
    OtherForm,
    // 11: "sheet under 20 bytes, or an offset or the length wrong"
    SheetLength,
    // 12: "n or h is out of range"
    SheetCounts,
    // 13: "source >= n and not the no-choice value"
    Source,
    // 14: "row starts wrong"
    RowStarts,
    // 15: "a target >= n, own vertex, or not ascending"
    Targets,
    // 16: "weight above 65,535"
    Weights,
    // 17: "a one-sided edge"
    OneSided,
    // 18: "distance slice shorter than n"
    ShortDistances,
    // 21: "n out of range, or more than 262,144 records"
    RecordCount,
    // 22: "an end >= n or both ends equal"
    RecordEnds,
    // 23: "weight above 65,535"
    RecordWeight,
    // 24: "one pair of ends twice"
    RecordTwice,
    // 25: "target too short"
    ShortTarget,
}

// "A refusal returns its number alone"
impl From<Refusal> for u64 {
    ghost from_gives = { IsNumberOf };

    fn from(r: Refusal) -> u64 {
        match r {
            Refusal::IdCount => 1,
            Refusal::ShortImage => 2,
            Refusal::UnsoundImage => 3,
            Refusal::NoSuchId => 4,
            Refusal::HighKey => 5,
            Refusal::OtherForm => 7,
            Refusal::SheetLength => 11,
            Refusal::SheetCounts => 12,
            Refusal::Source => 13,
            Refusal::RowStarts => 14,
            Refusal::Targets => 15,
            Refusal::Weights => 16,
            Refusal::OneSided => 17,
            Refusal::ShortDistances => 18,
            Refusal::RecordCount => 21,
            Refusal::RecordEnds => 22,
            Refusal::RecordWeight => 23,
            Refusal::RecordTwice => 24,
            Refusal::ShortTarget => 25,
        }
    }
}
