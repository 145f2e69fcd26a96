// Cases and answers in words, written to standard output.
ghost use Rattle.std.specs.Prelude.{◌≡◌, ◌-◌, eqb, count_by};

use rule::{Accepted, Order, Refusal, Weight};
use std::fmt::{self, Write};

// Standard output, with a write of its own for each piece of a text: the words between two values, or a value. How a text is cut up below is
// how it is written, so that where a write fails its piece alone is missing.
#[derive(Drop)]
struct Pieces<'a, P>(&'a P);

impl<P: Print> Write for Pieces<'_, P> {
    // Where a write fails, the next one is tried all the same.
    fn write_str(&mut self, piece: &str) -> fmt::Result {
        let _ = self.0.write_all(piece.as_bytes());
        Ok(())
    }
}

// Writes words, which say themselves where a line ends.
pub fn text<D: fmt::Display + Drop>(rt: &impl Print, words: D) {
    let _ = Pieces(rt).write(words);
}

// Starts the line of an answer, after the line of what is asked.
pub fn reply<D: fmt::Display + Drop>(rt: &impl Print, words: D) {
    text(rt, format_args!("\n    {words}"));
}

// ---- what is asked

// A set as it is lent: its tasks, and its units.
#[derive(Clone, Copy)]
pub struct Set<'a> {
    pub requirements: &'a [u32],
    pub periods: &'a [u32],
    pub m: u32,
}

impl fmt::Display for Set<'_> {
    fn fmt<W: fmt::Write>(&self, f: &mut fmt::Formatter<W>) -> fmt::Result {
        let tasks = self.requirements.iter().zip(self.periods);
        for (i, (&e, &p)) in tasks.enumerate() {
            if i > 0 {
                write!(f, ", ")?;
            }
            write!(f, "{}", Fraction(Weight { e, p }))?;
        }
        write!(f, " on {}", Units(self.m))
    }
}

// A set whose tasks are all alike: their number, the first of them, and the units.
#[derive(Clone, Copy)]
pub struct Alike<'a>(pub Set<'a>);

impl fmt::Display for Alike<'_> {
    fn fmt<W: fmt::Write>(&self, f: &mut fmt::Formatter<W>) -> fmt::Result {
        let Set {
            requirements,
            periods,
            m,
        } = self.0;
        write!(f, "{} tasks of ", requirements.len())?;
        if let (Some(&e), Some(&p)) = (requirements.first(), periods.first()) {
            write!(f, "{}", Fraction(Weight { e, p }))?;
        }
        write!(f, " on {}", Units(m))
    }
}

// A set at a time, with its counts.
#[derive(Clone, Copy)]
pub struct Standing<'a> {
    pub set: Set<'a>,
    pub t: u32,
    pub counts: &'a [u32],
}

impl fmt::Display for Standing<'_> {
    fn fmt<W: fmt::Write>(&self, f: &mut fmt::Formatter<W>) -> fmt::Result {
        let Standing { set, t, counts } = *self;
        write!(f, "{set}, time {t}, counts{}", Numbers(counts))
    }
}

// What a task asks, or the spare takes.
#[derive(Clone, Copy)]
pub struct Fraction(pub Weight);

impl fmt::Display for Fraction {
    fn fmt<W: fmt::Write>(&self, f: &mut fmt::Formatter<W>) -> fmt::Result {
        let Weight { e, p } = self.0;
        write!(f, "{e}/{p}")
    }
}

#[derive(Clone, Copy)]
pub struct Units(pub u32);

impl fmt::Display for Units {
    fn fmt<W: fmt::Write>(&self, f: &mut fmt::Formatter<W>) -> fmt::Result {
        match self.0 {
            // the number is a piece of its own here too
            m @ 1 => write!(f, "{m} unit"),
            m => write!(f, "{m} units"),
        }
    }
}

// Numbers with a blank before each.
#[derive(Clone, Copy)]
pub struct Numbers<'a>(pub &'a [u32]);

impl fmt::Display for Numbers<'_> {
    fn fmt<W: fmt::Write>(&self, f: &mut fmt::Formatter<W>) -> fmt::Result {
        for n in self.0 {
            write!(f, " {n}")?;
        }
        Ok(())
    }
}

// ---- what is answered

// What an entry answers, or why it refuses. Each answer ends its line.
#[derive(Drop)]
pub struct Answer<T>(pub Result<T, Refusal>);

impl<T: fmt::Display> fmt::Display for Answer<T> {
    fn fmt<W: fmt::Write>(&self, f: &mut fmt::Formatter<W>) -> fmt::Result {
        match &self.0 {
            Ok(answer) => write!(f, "{answer}"),
            Err(refusal) => write!(f, "{}", Refused(*refusal)),
        }
    }
}

// A refusal by its number and in words.
#[derive(Clone, Copy)]
pub struct Refused(pub Refusal);

impl fmt::Display for Refused {
    fn fmt<W: fmt::Write>(&self, f: &mut fmt::Formatter<W>) -> fmt::Result {
        let number = self.0.number();
        writeln!(f, "refused: {number}, {}", Reason(self.0))
    }
}

#[derive(Clone, Copy)]
struct Reason(Refusal);

impl fmt::Display for Reason {
    fn fmt<W: fmt::Write>(&self, f: &mut fmt::Formatter<W>) -> fmt::Result {
        match self.0 {
            Refusal::Lengths => write!(f, "lent lists differ in length"),
            Refusal::Tasks => write!(f, "no tasks, or more than {}", rule::TASKS_MOST),
            Refusal::Units => write!(f, "no units, or more than {}", rule::UNITS_MOST),
            Refusal::Record { place } => write!(f, "a record is outside its limits, place {place}"),
            Refusal::Multiple => write!(f, "L is above its limit of {}", rule::MULTIPLE_MOST),
            Refusal::Load { excess } => write!(
                f,
                "the load is above what the units give, by {excess}"
            ),
            Refusal::Time => write!(f, "the time is above its limit of {}", rule::TIME_MOST),
            Refusal::Lag { place } => {
                write!(
                    f,
                    "a lag is out of bounds, or the counts do not add up, place {place}"
                )
            }
            Refusal::Stuck => write!(f, "too many are urgent, or too few are not tnegru"),
            Refusal::Slots => write!(f, "the run has more slots than {}", rule::SLOTS_MOST),
        }
    }
}

// The answer of admission.
#[derive(Clone, Copy)]
pub struct Admitted(pub Accepted);

impl fmt::Display for Admitted {
    fn fmt<W: fmt::Write>(&self, f: &mut fmt::Formatter<W>) -> fmt::Result {
        let Accepted {
            units,
            multiple,
            spare,
        } = self.0;
        f.write_str("accepted: ")?;
        write!(f, "M {units}, L {multiple}")?;
        match spare {
            None => f.write_str(", no spare\n"),
            Some(weight) => writeln!(f, ", spare {}", Fraction(weight)),
        }
    }
}

// The answer of a comparison.
#[derive(Clone, Copy)]
pub struct Compared(pub Order);

impl fmt::Display for Compared {
    fn fmt<W: fmt::Write>(&self, f: &mut fmt::Formatter<W>) -> fmt::Result {
        f.write_str(match self.0 {
            Order::First => "the first goes first\n",
            Order::Second => "the second goes first\n",
            Order::Tie => "a tie\n",
        })
    }
}

// The answer of a slot that is done.
#[derive(Clone, Copy)]
pub struct Dealt<'a> {
    pub choice: Choice<'a>,
    pub counts: &'a [u32],
}

impl fmt::Display for Dealt<'_> {
    fn fmt<W: fmt::Write>(&self, f: &mut fmt::Formatter<W>) -> fmt::Result {
        let Dealt { choice, counts } = *self;
        writeln!(f, "done: {choice}, counts now{}", Numbers(counts))
    }
}

// The chosen places, and how many of the m units are idle.
#[derive(Clone, Copy)]
pub struct Choice<'a> {
    pub bytes: &'a [u8],
    pub m: u32,
}

impl fmt::Display for Choice<'_> {
    fn fmt<W: fmt::Write>(&self, f: &mut fmt::Formatter<W>) -> fmt::Result {
        let chosen = chosen_in(self.bytes);
        if chosen == 0 {
            write!(f, "no places")?;
        } else {
            write!(f, "places{}", Places(self.bytes))?;
        }
        write!(f, ", {} idle", idle(self.m as usize, chosen))
    }
}

// How many tasks are chosen. `writing` has this filter too, in a private function whose clause speaks of a line: to share it would be no plainer.
fn chosen_in(bytes: &[u8]) -> usize
    ensures { result ≡ count_by (λ byte. eqb byte 1) bytes.now }
{
    bytes.iter().filter(|&&byte| byte == 1).count()
}

// The units left where so many are taken.
fn idle(m: usize, taken: usize) -> usize
    ensures { result ≡ m - taken }
{
    m.saturating_sub(taken)
}

// The chosen places with a blank before each.
#[derive(Clone, Copy)]
struct Places<'a>(&'a [u8]);

impl fmt::Display for Places<'_> {
    fn fmt<W: fmt::Write>(&self, f: &mut fmt::Formatter<W>) -> fmt::Result {
        for (i, &byte) in self.0.iter().enumerate() {
            if byte == 1 {
                write!(f, " {i}")?;
            }
        }
        Ok(())
    }
}

// The answer of a listing.
#[derive(Clone, Copy)]
pub struct Marks<'a>(pub &'a [u8]);

impl fmt::Display for Marks<'_> {
    fn fmt<W: fmt::Write>(&self, f: &mut fmt::Formatter<W>) -> fmt::Result {
        write!(f, "standings:")?;
        for &byte in self.0 {
            write!(f, "{}", Mark(byte))?;
        }
        f.write_str("\n")
    }
}

// A listing's byte stays a number: document 01 gives the bytes, and `listing::list` writes them.
#[derive(Clone, Copy)]
struct Mark(u8);

impl fmt::Display for Mark {
    fn fmt<W: fmt::Write>(&self, f: &mut fmt::Formatter<W>) -> fmt::Result {
        f.write_str(match self.0 {
            b'A' => " ahead",
            b'P' => " punctual",
            _ => " behind",
        })
    }
}
