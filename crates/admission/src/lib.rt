// Admission of a task set: refusals 1 to 6 in their order, and for a set that passes M, L and the spare.
#![tactic(auto)]

ghost use Rattle.std.specs.Prelude.{[], ◌∷◌, ◌≡◌, ◌*◌, ◌<◌, ◌≤◌};
ghost use Rattle.rule.specs.Limits.{units_most, multiple_most};
ghost use Rattle.rule.specs.Sets.{multiple as multiple_of, load as load_of};
ghost use Rattle.rule.specs.Refusals.{first, multiples, loads};
ghost use Rattle.rule.specs.Outcomes.{admission, admission_by};
ghost use Rattle.rule.proofs.Sets.{ValidSet};
ghost use Rattle.admission.specs.Parts.{acceptance_of, spare_of};

use numbers::Fraction;
use rule::{Accepted, Refusal, Weight};

// M, L and the spare of a set on m units, or the first refusal of 1 to 6 that holds. The lists are lent one by one: document 01 names that
// form.
pub fn admit(requirements: &[u32], periods: &[u32], m: u32) -> Result<Accepted, Refusal>
    ensures { result ≡ admission requirements.now periods.now m }
{
    let n = requirements.len();
    if periods.len() != n {
        return Err(Refusal::Lengths);
    }
    if n == 0 || n > rule::TASKS_MOST {
        return Err(Refusal::Tasks);
    }
    if m == 0 || m > rule::UNITS_MOST {
        return Err(Refusal::Units);
    }
    if let Some(place) = rule::outside_place(requirements, periods, rule::PERIOD_MOST) {
        return Err(Refusal::Record {
            place: place as u32,
        });
    }
    admit_valid(requirements, periods, m)
}

// Refusals 5 and 6, and the answer, for a set that passes 1 to 4.
fn admit_valid(requirements: &[u32], periods: &[u32], m: u32) -> Result<Accepted, Refusal>
    requires valid_set { ValidSet requirements.now periods.now }
    requires m_le_units_most { m ≤ units_most }
    ensures { result ≡ admission_by (first (multiples periods.now ∷ loads requirements.now periods.now m ∷ [])) requirements.now periods.now }
{
    let multiple = numbers::least_multiple(periods, rule::MULTIPLE_MOST).ok_or(Refusal::Multiple)?;
    let load = load_of(requirements, periods, multiple);
    let given = m * multiple;
    if load > given {
        return Err(Refusal::Load {
            excess: load - given,
        });
    }
    Ok(accept(load, multiple))
}

// The load of a set within its limits, whose least common multiple is `multiple`.
fn load_of(requirements: &[u32], periods: &[u32], multiple: u32) -> u32
    requires valid_set { ValidSet requirements.now periods.now }
    requires multiple_value { multiple ≡ multiple_of periods.now }
    requires multiple_le_multiple_most { multiple ≤ multiple_most }
    ensures { result ≡ load_of requirements.now periods.now }
{
    let mut load: u32 = 0;
    for (&e, &p) in requirements.iter().zip(periods) {
        // As a u64, since e·L may be no u32.
        load += (e as u64 * multiple as u64 / p as u64) as u32;
    }
    load
}

// M, L and the spare of a set with this load and this L.
fn accept(load: u32, multiple: u32) -> Accepted
    requires multiple_nonzero { 0 < multiple }
    requires multiple_le_multiple_most { multiple ≤ multiple_most }
    requires load_bound { load ≤ units_most * multiple_most }
    ensures { result ≡ acceptance_of load multiple }
{
    let units = (load + (multiple - 1)) / multiple;
    let room = units * multiple - load;
    Accepted {
        units,
        multiple,
        spare: spare_of(room, multiple),
    }
}

// The spare that takes this room of L, in lowest terms; nobody where there is no room. No `From<Fraction>`: it is asked here alone, and
// `numbers` knows no tasks.
#[tactic(auto, unfolding(crate::specs::Parts::spare_of, numbers::specs::Divide::lowest_terms))]
fn spare_of(room: u32, multiple: u32) -> Option<Weight>
    ensures { result ≡ spare_of room multiple }
{
    if room == 0 {
        return None;
    }
    let Fraction { above, below } = numbers::lowest_terms(room, multiple);
    Some(Weight { e: above, p: below })
}
