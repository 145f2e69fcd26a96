// The second door: admission and one slot for a set that is lent as a list of records. The records are taken apart
// into the three lists of the first door, which answers.
#![tactic(auto)]

ghost use Rattle.std.specs.Prelude.{◌≡◌, ◌<◌, length, MatchResult};
ghost use Rattle.rule.specs.Outcomes.{admission, slot as slot_of};
ghost use Rattle.records.specs.Door.{requirements_of, periods_of, counts_of, with_counts};
ghost use Rattle.records.specs.Apart.{Apart};

use rule::{Accepted, Refusal};

// A record: the requirement, the period and the count of a task. A host program lends records too, so that its layout is C's.
#[repr(C)]
#[derive(Clone, Copy)]
pub struct Task {
    pub e: u32,
    pub p: u32,
    pub k: u32,
}

// No more than 64 records as the three lists of the first door. Past the last record nobody reads them. Arrays, since there is no
// heap, and three of them, since the first door takes three lists.
#[derive(Drop)]
struct Lists {
    requirements: [u32; 64],
    periods: [u32; 64],
    counts: [u32; 64],
}

// The records taken apart. More than 64 are refused, whatever they are. By index: of a list that a zip of `iter_mut` wrote to a proof knows the
// length alone.
fn take_apart(tasks: &[Task]) -> Result<Lists, Refusal>
    ensures { MatchResult result (Apart (length tasks.now) tasks.now) (λ refusal. (refusal ≡ Refusal.Tasks) × (64 < length tasks.now)) }
{
    if tasks.len() > rule::TASKS_MOST {
        return Err(Refusal::Tasks);
    }
    let mut lists = Lists {
        requirements: [0; 64],
        periods: [0; 64],
        counts: [0; 64],
    };
    for (i, task) in tasks.iter().enumerate() {
        lists.requirements[i] = task.e;
        lists.periods[i] = task.p;
        lists.counts[i] = task.k;
    }
    Ok(lists)
}

// The counts put back into the records; requirements and periods stay.
fn put_back(tasks: &mut [Task], counts: &[u32])
    requires { length counts.now ≡ length tasks.old }
    ensures { tasks.new ≡ with_counts tasks.old counts.now }
{
    // By index, since of a slice that a `zip` of `iter_mut` wrote to a proof knows the length alone.
    for (i, task) in tasks.iter_mut().enumerate() {
        task.k = counts[i];
    }
}

// M, L and the spare of a set of records on m units, or the first refusal that holds. The counts are not looked at.
pub fn admit(tasks: &[Task], m: u32) -> Result<Accepted, Refusal>
    ensures { result ≡ admission (requirements_of tasks.now) (periods_of tasks.now) m }
{
    let n = tasks.len();
    let lists = take_apart(tasks)?;
    admission::admit(&lists.requirements[..n], &lists.periods[..n], m)
}

// One slot of a set of records on m units at time t: refusals 1 to 9, or the choice in the records' counts and in a byte for each task.
pub fn slot(tasks: &mut [Task], bytes: &mut [u8], m: u32, t: u32) -> Result<(), Refusal>
    ensures answer { result ≡ (slot_of (requirements_of tasks.old) (periods_of tasks.old) (counts_of tasks.old) bytes.old m t).answer }
    ensures bytes { bytes.new ≡ (slot_of (requirements_of tasks.old) (periods_of tasks.old) (counts_of tasks.old) bytes.old m t).bytes }
    ensures counts { tasks.new ≡ with_counts tasks.old (slot_of (requirements_of tasks.old) (periods_of tasks.old) (counts_of tasks.old) bytes.old m t).counts }
{
    let n = tasks.len();
    if bytes.len() != n {
        return Err(Refusal::Lengths);
    }
    let Lists {
        requirements,
        periods,
        mut counts,
    } = take_apart(tasks)?;
    slot::slot(
        &requirements[..n],
        &periods[..n],
        &mut counts[..n],
        bytes,
        m,
        t,
    )?;
    put_back(tasks, &counts[..n]);
    Ok(())
}
