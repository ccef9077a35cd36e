// What is said of a table: accepted, or refused with its first fault, by the number and the place of document 01. Every refusal that a
// caller may get stands here once; it knows nothing of what is refused.
#![tactic(auto)]

ghost use Rattle.std.specs.Prelude.{◌≡◌, ℕ};
ghost use Rattle.refusals.specs.Answer.{refusal_number, plain_number, number_of, place_of, nothing_more, checked, option_case};

// Why an image, a table or a call is refused, by the documents' numbers.
#[derive(Clone, Copy, PartialEq, Eq)]
pub enum Refusal {
    EndsInside = 1,
    EditionUnknown = 2,
    FrameZero = 3,
    TransactionCount = 4,
    PeriodUnfit = 5,
    ModeCount = 6,
    TaskCount = 7,
    DeadlineZero = 8,
    NeverRuns = 9,
    PaddingSet = 10,
    BytesFollow = 11,
    NoRoom = 12,
    NoTask = 13,
    DeadlineShort = 14,
    TooLarge = 29,
    BufferShort = 30,
}

impl Refusal {
    // A method, and no From: the promises and the README name it.
    pub fn number(self) -> u32
        ensures { result ≡ refusal_number self }
    {
        self as u32
    }
}

// And why the plain analysis is, where the table is not.
#[derive(Clone, Copy, PartialEq, Eq)]
pub enum PlainRefusal {
    NotSingle = 31,
    NoCompletion = 32,
    OutOfRange = 33,
}

impl PlainRefusal {
    pub fn number(self) -> u32
        ensures { result ≡ plain_number self }
    {
        self as u32
    }
}

// Document 01's refusal, and the bit position that it gives beside it.
#[derive(Clone, Copy, PartialEq, Eq)]
pub struct Fault {
    pub refusal: Refusal,
    pub place: usize,
}

pub type Answer = Result<(), Fault>;

// What is said of one that is not refused, as a number in the refusal's place.
pub trait Case {
    ghost case_of: { Self → ℕ };

    fn case(&self) -> usize
        ensures { result ≡ case_of self.now };
}

impl Case for () {
    ghost case_of = { nothing_more };

    fn case(&self) -> usize {
        0
    }
}

// 1 where there is nothing to say. It stands here for `parts`, since a crate may give a trait only to a type of its own.
impl<T> Case for Option<T> {
    ghost case_of = { option_case };

    fn case(&self) -> usize {
        match self {
            Some(_) => 0,
            None => 1,
        }
    }
}

// An answer in two numbers.
pub trait Numbered {
    ghost numbered: { Self → ℕ };

    ghost placed: { Self → ℕ };

    // Document 01's number: 0 where nothing is refused.
    fn number(&self) -> u32
        ensures { result ≡ numbered self.now };

    // The bit position that document 01 gives beside the number, or the case of what is not refused.
    fn place(&self) -> usize
        ensures { result ≡ placed self.now };
}

impl<T: Case> Numbered for Result<T, Fault> {
    ghost numbered = { number_of };

    ghost placed = { place_of T.case_of };

    fn number(&self) -> u32 {
        match self {
            Ok(_) => 0,
            Err(fault) => fault.refusal.number(),
        }
    }

    fn place(&self) -> usize {
        match self {
            Ok(value) => value.case(),
            Err(fault) => fault.place,
        }
    }
}

// A field's check: a refusal at its place where the check does not hold.
#[tactic(auto, unfolding(crate::specs::Answer::checked))]
pub fn check(holds: bool, refusal: Refusal, at: usize) -> Answer
    ensures { result ≡ checked holds refusal at }
{
    if holds {
        Ok(())
    } else {
        Err(Fault { refusal, place: at })
    }
}
