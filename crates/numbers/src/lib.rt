// The reasons for no and their numbers (01 "Words for no"), by the paper's words.
#![tactic(auto)]

ghost use Rattle.std.specs.Prelude.{◌≡◌};
ghost use Rattle.numbers.specs.Facts.{no_of, number_of};

// Why a call refuses. The order of the table decides which is given, not the size of the number: 17 is tested after 13 and before 14, 18 after
// 5 and before 6, 19 and 20 after 9 and before 10, 21 after 12 and before 13.
#[derive(Clone, Copy, PartialEq, Eq)]
pub enum Refusal {
    Length = 1,
    Mark = 2,
    Chip = 3,
    Crowd = 4,
    Directory = 5,
    Channel = 6,
    Twice = 7,
    Joint = 8,
    Name = 9,
    Size = 10,
    Track = 11,
    Switch = 12,
    Clash = 13,
    Space = 14,
    Unroutable = 15,
    Spent = 16,
    Stranger = 17,
    Parameter = 18,
    List = 19,
    Repeat = 20,
    Broken = 21,
}

impl From<Refusal> for u32 {
    ghost from_gives = { λ e n. n ≡ no_of e };

    fn from(e: Refusal) -> u32 {
        e as u32
    }
}

// The number of a call that gives nothing else: 0, or that of the refusal.
pub fn number_of(outcome: Result<(), Refusal>) -> u32
    ensures { result ≡ number_of outcome }
{
    match outcome {
        Ok(()) => 0,
        Err(e) => u32::from(e),
    }
}
