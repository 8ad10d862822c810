// Why a call gives no answer. Each reason has a number, by which C and a frame say it.
#![tactic(auto)]

ghost use Rattle.std.specs.Prelude.{◌≡◌};
ghost use Rattle.refusals.specs.Numbers.{number_of, numbered};
ghost use Rattle.refusals.specs.Given.{refusal_given};

// In the order of their numbers, from 1.
#[derive(Clone, Copy, Debug, PartialEq, Eq)]
pub enum Refusal {
    NotFinite,
    Zero,
    Negative,
    Outside,
    PowerOutside,
    NoSuchOperation,
    Malformed,
    NoRoom,
    Small,
    Lengths,
    Full,
    WornOut,
    TooLong,
    TooDeep,
    NotARecipe,
}

// Its number, which is never 0.
impl From<Refusal> for u32 {
    ghost from_gives = { λ refusal n. n ≡ number_of refusal };

    fn from(refusal: Refusal) -> u32 {
        match refusal {
            Refusal::NotFinite => 1,
            Refusal::Zero => 2,
            Refusal::Negative => 3,
            Refusal::Outside => 4,
            Refusal::PowerOutside => 5,
            Refusal::NoSuchOperation => 6,
            Refusal::Malformed => 7,
            Refusal::NoRoom => 8,
            Refusal::Small => 9,
            Refusal::Lengths => 10,
            Refusal::Full => 11,
            Refusal::WornOut => 12,
            Refusal::TooLong => 13,
            Refusal::TooDeep => 14,
            Refusal::NotARecipe => 15,
        }
    }
}

// The refusal of a number. Any that is not from 1 to 15 has the last.
pub fn numbered(number: u32) -> Refusal
    ensures { result ≡ numbered number }
{
    match number {
        1 => Refusal::NotFinite,
        2 => Refusal::Zero,
        3 => Refusal::Negative,
        4 => Refusal::Outside,
        5 => Refusal::PowerOutside,
        6 => Refusal::NoSuchOperation,
        7 => Refusal::Malformed,
        8 => Refusal::NoRoom,
        9 => Refusal::Small,
        10 => Refusal::Lengths,
        11 => Refusal::Full,
        12 => Refusal::WornOut,
        13 => Refusal::TooLong,
        14 => Refusal::TooDeep,
        _ => Refusal::NotARecipe,
    }
}

// The number of a call's refusal, and 0 where it is answered.
pub fn number<T: Copy>(answer: Result<T, Refusal>) -> u32
    ensures { result ≡ refusal_given answer }
{
    match answer {
        Ok(_) => 0,
        Err(refusal) => refusal.into(),
    }
}
