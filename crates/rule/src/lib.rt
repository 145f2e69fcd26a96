// The answers of the public entries, and the small words of the rule. What each case stands for in document 01
// is set out in specs/Answers.antt.
#![tactic(auto)]

ghost use Rattle.std.specs.Prelude.{◌≡◌, not, position, zip};
ghost use Rattle.rule.specs.Answers.{number_of};
ghost use Rattle.rule.specs.Limits.{bounded_by, valid};

// The limits of document 01.
pub const TASKS_MOST: usize = 64;

pub const UNITS_MOST: u32 = 32;

pub const PERIOD_MOST: u32 = 65535;

pub const MULTIPLE_MOST: u32 = 1048576;

pub const TIME_MOST: u32 = 16777215;

pub const SLOTS_MOST: u32 = 1024;

// A symbol of a string: the sign of a difference, written -, 0 or +, and "- below 0 below +" is their order here.
#[derive(Clone, Copy, PartialEq, Eq, PartialOrd, Ord)]
pub enum Symbol {
    Minus,
    Zero,
    Plus,
}

// How a task stands: the sign of its lag.
#[derive(Clone, Copy, PartialEq, Eq)]
pub enum Standing {
    Ahead,
    Punctual,
    Behind,
}

// Which of two tasks goes first by their strings.
#[derive(Clone, Copy, PartialEq, Eq)]
pub enum Order {
    First,
    Second,
    Tie,
}

// Why a call was refused, with what the refusal carries.
#[derive(Clone, Copy, PartialEq, Eq)]
pub enum Refusal {
    // 1: lent lists differ in length.
    Lengths,
    // 2: no tasks, or too many.
    Tasks,
    // 3: no units, or too many.
    Units,
    // 4: the record at this place, the lowest such, is outside its limits.
    Record { place: u32 },
    // 5: L is above its limit.
    Multiple,
    // 6: the load is above what the units give, by this excess.
    Load { excess: u32 },
    // 7: the time is past the calendar.
    Time,
    // 8: the lag at this place, the lowest such, is out of bounds, or the counts do not add up.
    Lag { place: u32 },
    // 9: too many are urgent, or too few are not tnegru.
    Stuck,
    // 10: the run is too long.
    Slots,
}

// What a task asks: e slots in every p.
#[derive(Clone, Copy, PartialEq, Eq)]
pub struct Weight {
    pub e: u32,
    pub p: u32,
}

// What admission answers of a set that it accepts: M, L and the spare, or that there is none.
#[derive(Clone, Copy, PartialEq, Eq)]
pub struct Accepted {
    pub units: u32,
    pub multiple: u32,
    pub spare: Option<Weight>,
}

// The answer of a run: how many slots were done, and what refused the next one, if it was not the last.
#[derive(Clone, Copy, PartialEq, Eq)]
pub struct Ran {
    pub done: u32,
    pub end: Result<(), Refusal>,
}

impl Refusal {
    // Its number in document 01. No `From<Refusal> for u32`, which would not say whether the number or the place is meant.
    pub fn number(self) -> u32
        ensures { result ≡ number_of self }
    {
        match self {
            Refusal::Lengths => 1,
            Refusal::Tasks => 2,
            Refusal::Units => 3,
            Refusal::Record { place: _ } => 4,
            Refusal::Multiple => 5,
            Refusal::Load { excess: _ } => 6,
            Refusal::Time => 7,
            Refusal::Lag { place: _ } => 8,
            Refusal::Stuck => 9,
            Refusal::Slots => 10,
        }
    }
}

impl Weight {
    // Is the period from 2 to `most`, and the requirement from 1 to p - 1?
    #[tactic(auto, unfolding(crate::specs::Limits::bounded_by))]
    pub fn bounded(self, most: u32) -> bool
        ensures { result ≡ bounded_by most self.e self.p }
    {
        2 <= self.p && self.p <= most && 1 <= self.e && self.e <= self.p - 1
    }

    // Is it within the limits of a record?
    pub fn is_valid(self) -> bool
        ensures { result ≡ valid self.e self.p }
    {
        self.bounded(PERIOD_MOST)
    }
}

// The lowest place whose record is outside the limits that go with `most`.
pub fn outside_place(requirements: &[u32], periods: &[u32], most: u32) -> Option<usize>
    ensures { result ≡ position (λ r. not (bounded_by most r.0 r.1)) (zip requirements.now periods.now) }
{
    requirements
        .iter()
        .zip(periods)
        .position(|(&e, &p)| !Weight { e, p }.bounded(most))
}
