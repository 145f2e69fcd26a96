// A listing of standings: refusals 1 to 8, or a byte for each task.
#![tactic(auto)]

ghost use Rattle.std.specs.Prelude.{◌≡◌, ◌≤◌, length};
ghost use Rattle.rule.specs.Outcomes.{listing};
ghost use Rattle.listing.specs.Marks.{mark_by, marks_by};

use rule::Refusal;
use standing::Rung;

const AHEAD: u8 = 0x41;

const PUNCTUAL: u8 = 0x50;

const BEHIND: u8 = 0x4C;

// The mark of a task on a rung: who is tnegru is ahead, and who is urgent is behind. A `match`: document 01's bytes are said here, and
// `From<Rung> for u8` would not say which byte.
fn mark_of(rung: Rung) -> u8
    ensures { result ≡ mark_by rung }
{
    match rung {
        Rung::Tnegru | Rung::Ahead => AHEAD,
        Rung::Punctual => PUNCTUAL,
        Rung::Behind | Rung::Urgent => BEHIND,
    }
}

// Writes the mark of each task.
fn write_marks(rungs: &[Rung], bytes: &mut [u8])
    requires { length bytes.old ≤ length rungs.now }
    ensures bytes { bytes.new ≡ marks_by (length bytes.old) rungs.now }
{
    // By index, since of a slice that a `zip` of `iter_mut` wrote to a proof knows the length alone.
    for (i, byte) in bytes.iter_mut().enumerate() {
        *byte = mark_of(rungs[i]);
    }
}

// The listing of a set on m units at time t: refusals 1 to 8, or a byte for each task that says how it stands. `slot::slot` begins alike, and
// one function for both would take the rest as a closure: no plainer. The lists are lent one by one: document 01 names that form.
pub fn list(
    requirements: &[u32],
    periods: &[u32],
    counts: &[u32],
    bytes: &mut [u8],
    m: u32,
    t: u32,
) -> Result<(), Refusal>
    ensures answer { result ≡ (listing requirements.now periods.now counts.now bytes.old m t).answer }
    ensures bytes { bytes.new ≡ (listing requirements.now periods.now counts.now bytes.old m t).bytes }
{
    let n = requirements.len();
    if counts.len() != n {
        return Err(Refusal::Lengths);
    }
    if bytes.len() != n {
        return Err(Refusal::Lengths);
    }
    let accepted = admission::admit(requirements, periods, m)?;
    let laid = field::lay_out(requirements, periods, accepted.spare);
    let rungs = standing::judge(
        accepted.units,
        laid.requirements(),
        laid.periods(),
        counts,
        t,
    )?;
    write_marks(&rungs, bytes);
    Ok(())
}
