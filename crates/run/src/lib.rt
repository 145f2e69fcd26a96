// Several slots of one set.
#![tactic(auto)]

ghost use Rattle.std.specs.Prelude.{◌≡◌, ◌*◌, ◌≤◌, eqb, length};
ghost use Rattle.rule.specs.Limits.{slots_most};
ghost use Rattle.rule.specs.Outcomes.{admission, slots_from, run as run_of};

use rule::{Accepted, Ran, Refusal};

// Is the length of a log that of so many slots of n bytes? A product that is too large is no length.
fn is_log(length: usize, slots: u32, n: usize) -> bool
    ensures { result ≡ eqb length (slots * n) }
{
    (slots as usize).checked_mul(n) == Some(length)
}

// Slot after slot of a set that admission accepts, up to the first refusal.
fn run_accepted(
    requirements: &[u32],
    periods: &[u32],
    counts: &mut [u32],
    log: &mut [u8],
    accepted: Accepted,
    slots: u32,
    m: u32,
    t: u32,
) -> Ran
    requires admitted { admission requirements.now periods.now m ≡ Ok accepted }
    requires lists_fit { (length counts.old ≡ length requirements.now) × (length log.old ≡ slots * length requirements.now) × (slots ≤ slots_most) }
    ensures answer { result ≡ (slots_from slots requirements.now periods.now m t counts.old log.old).answer }
    ensures counts { counts.new ≡ (slots_from slots requirements.now periods.now m t counts.old log.old).counts }
    ensures log { log.new ≡ (slots_from slots requirements.now periods.now m t counts.old log.old).log }
{
    let n = requirements.len();
    let laid = field::lay_out(requirements, periods, accepted.spare);
    for done in 0..slots {
        let from = done as usize * n;
        let end = slot::deal(
            accepted.units,
            laid.requirements(),
            laid.periods(),
            counts,
            &mut log[from..from + n],
            t + done,
        );
        if end.is_err() {
            return Ran { done, end };
        }
    }
    Ran {
        done: slots,
        end: Ok(()),
    }
}

// A run that was stopped before its first slot.
fn stopped(refusal: Refusal) -> Ran
    ensures { result ≡ record { done = 0; end = Err refusal } }
{
    Ran {
        done: 0,
        end: Err(refusal),
    }
}

// So many slots of a set on m units from time t on: refusal 10, then 1, then slot by slot up to the first refusal. The lists are lent one by
// one: document 01 names that form.
pub fn run(
    slots: u32,
    requirements: &[u32],
    periods: &[u32],
    counts: &mut [u32],
    log: &mut [u8],
    m: u32,
    t: u32,
) -> Ran
    ensures answer { result ≡ (run_of slots requirements.now periods.now counts.old log.old m t).answer }
    ensures counts { counts.new ≡ (run_of slots requirements.now periods.now counts.old log.old m t).counts }
    ensures log { log.new ≡ (run_of slots requirements.now periods.now counts.old log.old m t).log }
{
    if slots > rule::SLOTS_MOST {
        return stopped(Refusal::Slots);
    }
    let n = requirements.len();
    if periods.len() != n || counts.len() != n || !is_log(log.len(), slots, n) {
        return stopped(Refusal::Lengths);
    }
    // With no slot to run, nothing of the set is looked at.
    if slots == 0 {
        return Ran {
            done: 0,
            end: Ok(()),
        };
    }
    match admission::admit(requirements, periods, m) {
        Err(refusal) => stopped(refusal),
        Ok(accepted) => run_accepted(requirements, periods, counts, log, accepted, slots, m, t),
    }
}
