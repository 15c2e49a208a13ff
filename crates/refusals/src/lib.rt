// The grounds on which a call is turned away (document 01, "What is turned away"; document 02, A3 and A9).
#![tactic(auto)]

ghost use Rattle.std.specs.Prelude.{◌≡◌};
ghost use Rattle.refusals.specs.Numbers.{number, number_of};

// Each has the number that the documents give it. 16 belongs to a request that has not landed.
#[derive(Clone, Copy, PartialEq, Eq, PartialOrd, Ord)]
pub enum Refusal {
    NotInForm = 1,
    OutOfRange = 2,
    NoPlace = 3,
    OtherBody = 4,
    Unknown = 5,
    NotAllowed = 6,
    Decision = 7,
    Unsound = 8,
    NotHideable = 9,
    NoPage = 10,
    NotKept = 11,
    NoRoom = 12,
    Misplaced = 13,
    FaultyRoll = 14,
    NoReason = 15,
    TooWide = 17,
}

impl Refusal {
    // Kept: no `From<Refusal> for u32`: of a conversion a relation is promised, and each clause about a number cites this equation.
    pub fn number(self) -> u32
        ensures { result ≡ number self }
    {
        self as u32
    }
}

// The number of an answer, 0 where nothing is refused: for whoever prints it. The crates here take an answer apart and print its refusal's number;
// their clauses speak of the definition of the same name.
pub fn number_of<T>(answer: &Result<T, Refusal>) -> u32
    ensures { result ≡ number_of answer.now }
{
    match answer {
        Ok(_) => 0,
        Err(refusal) => refusal.number(),
    }
}
