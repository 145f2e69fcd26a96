// One slot: refusals 1 to 9, the choice, the counts and the bytes.
#![tactic(auto)]

ghost use Rattle.std.specs.Prelude.{◌≡◌, Bool, ℕ, ◌+◌, ◌-◌, ◌<◌, ◌≤◌, ltb, length, set, true, ◌&&◌};
ghost use Rattle.rule.specs.Limits.{time_most, multiple_most, bounded_by};
ghost use Rattle.rule.specs.Places.{at, bit, count, each};
ghost use Rattle.rule.specs.Sets.{weight};
ghost use Rattle.rule.specs.Task.{compare};
ghost use Rattle.rule.specs.Slot.{goes_first};
ghost use Rattle.rule.specs.Outcomes.{slot as slot_of};
ghost use Rattle.standing.specs.declared.Rung.{Rung};
ghost use Rattle.standing.specs.Judged.{rung_at};
ghost use Rattle.slot.specs.Rungs.{Choosing, Cut, is_urgent, contends, urgent_to, contending_to, on_contending, goes_before, rank_to, chosen_by, dealt_rungs};
ghost use Rattle.slot.specs.Deal.{dealt};

use rule::{Order, Refusal, Weight};
use standing::Rung;

// The lists of a field and the rungs of its places, at a time.
#[derive(Clone, Copy)]
struct Field<'a> {
    requirements: &'a [u32],
    periods: &'a [u32],
    rungs: &'a [Rung],
    t: u32,
    ghost choosing: { Choosing requirements.now periods.now rungs.now t },
}

// Of the contenders asked so far one that has room and one that has none, where there are such.
#[derive(Clone, Copy)]
struct Known {
    inside: Option<usize>,
    outside: Option<usize>,
}

// Does the first task go before the second, of which `lower` says whether its place is the lower one?
#[tactic(auto, using(crate::proofs::Laws::same_record, crate::proofs::Laws::engine_says))]
fn goes_first(first: Weight, second: Weight, t: u32, lower: bool) -> bool
    requires first_bounded { bounded_by multiple_most first.e first.p ≡ true }
    requires second_bounded { bounded_by multiple_most second.e second.p ≡ true }
    requires t_le_time_most { t ≤ time_most }
    ensures { result ≡ goes_first (compare t first.e first.p second.e second.p) lower }
{
    // Two tasks with the same record tie, however long their string.
    if first == second {
        return lower;
    }
    match order::plain(first, second, t) {
        Order::First => true,
        Order::Second => false,
        Order::Tie => lower,
    }
}

// Is it the rung of an urgent task?
fn is_urgent(rung: Rung) -> bool
    ensures { result ≡ is_urgent rung }
{
    matches!(rung, Rung::Urgent)
}

// Is it a contender's rung?
fn contends(rung: Rung) -> bool
    ensures { result ≡ contends rung }
{
    matches!(rung, Rung::Ahead | Rung::Punctual | Rung::Behind)
}

impl Field<'_> {
    // How many places have a rung that passes the test.
    fn count_rungs<F: Fn(Rung) -> bool>(&self, test: F) -> usize
        requires { F.IsAlwaysCallable test }
        ensures { (passes : Rung → Bool) → ((rung : Rung) (b : Bool) → F.post test rung b → b ≡ passes rung) → result ≡ count (length self.now.requirements.now) (λ i. passes (rung_at self.now.rungs.now i)) }
    {
        let places = &self.rungs[..self.requirements.len()];
        places.iter().filter(|rung| test(**rung)).count()
    }

    // The task, or the spare, at a place. Each method here bounds its own place: a type for a place would be of one field alone.
    fn task(&self, place: usize) -> Weight
        requires in_bounds { place < length self.now.requirements.now }
        ensures { result ≡ weight (at self.now.requirements.now place) (at self.now.periods.now place) }
    {
        Weight {
            e: self.requirements[place],
            p: self.periods[place],
        }
    }

    // Does place j contend and go before place i? Asked for each pair of contenders, so that a call of its own would tell.
    #[inline(always)]
    fn before(&self, j: usize, i: usize) -> bool
        requires in_bounds { (j < length self.now.requirements.now) × (i < length self.now.requirements.now) }
        ensures { let f = self.now in result ≡ (on_contending f.rungs.now j && goes_before f.requirements.now f.periods.now f.t j i) }
    {
        contends(self.rungs[j]) && goes_first(self.task(j), self.task(i), self.t, j < i)
    }

    // Do fewer contenders go before place i than there is room for? Once the room is taken the rest of them is not asked.
    // Stays a counted `for`: as `filter`, `take` and `count` over the places it proves, and where all tasks are alike a slot takes a fifth longer.
    #[tactic(auto, using(crate::proofs::Room::rank_grows, crate::proofs::Room::rank_more))]
    fn has_room(&self, i: usize, room: usize) -> bool
        requires in_bounds { i < length self.now.requirements.now }
        ensures { let f = self.now in result ≡ ltb (rank_to (length f.requirements.now) f.requirements.now f.periods.now f.rungs.now f.t i) room }
    {
        let mut found: usize = 0;
        for j in 0..self.requirements.len() {
            if room <= found {
                return false;
            }
            if self.before(j, i) {
                found += 1;
            }
        }
        found < room
    }

    // Does a contender run? Who goes before one that has room has room too, and who goes after one that has none has none, so that the
    // others are counted only for a place between the two.
    #[tactic(auto, using(crate::proofs::Room::earlier))]
    fn contender_runs(&self, i: usize, room: usize, known: &mut Known) -> bool
        requires in_bounds { i < length self.now.requirements.now }
        requires cut_known { let f = self.now in Cut f.requirements.now f.periods.now f.rungs.now f.t room known.old.inside known.old.outside }
        ensures chosen { let f = self.now in result ≡ ltb (rank_to (length f.requirements.now) f.requirements.now f.periods.now f.rungs.now f.t i) room }
        ensures cut { let f = self.now in Cut f.requirements.now f.periods.now f.rungs.now f.t room known.new.inside known.new.outside }
    {
        if let Some(inside) = known.inside {
            if self.before(i, inside) {
                return true;
            }
        }
        if let Some(outside) = known.outside {
            if self.before(outside, i) {
                return false;
            }
        }
        if self.has_room(i, room) {
            known.inside = Some(i);
            return true;
        }
        known.outside = Some(i);
        false
    }

    // Does the slot run place i? Beside the urgent ones there is room for so many of the contenders.
    #[tactic(auto, using(crate::proofs::Laws::rank_lt, crate::proofs::Laws::chosen_urgent, crate::proofs::Laws::chosen_neither, crate::proofs::Laws::chosen_contending))]
    fn runs(&self, i: usize, room: usize, contending: usize, known: &mut Known) -> bool
        requires in_bounds { i < length self.now.requirements.now }
        requires contenders { contending ≡ contending_to (length self.now.requirements.now) self.now.rungs.now }
        requires cut_known { let f = self.now in Cut f.requirements.now f.periods.now f.rungs.now f.t room known.old.inside known.old.outside }
        ensures chosen { let f = self.now in result ≡ chosen_by (urgent_to (length f.requirements.now) f.rungs.now + room) f.requirements.now f.periods.now f.rungs.now f.t i }
        ensures cut { let f = self.now in Cut f.requirements.now f.periods.now f.rungs.now f.t room known.new.inside known.new.outside }
    {
        let rung = self.rungs[i];
        if is_urgent(rung) {
            return true;
        }
        if !contends(rung) {
            return false;
        }
        // Where all contenders have room, their order is of no matter.
        if contending <= room {
            return true;
        }
        self.contender_runs(i, room, known)
    }

    // Runs the tasks that the slot chooses: a byte for each, and 1 more in the count of each chosen one. The other counts are not stored.
    // By index: of a list that a zip of `iter_mut` wrote to a proof knows the length alone.
    fn choose(&self, room: usize, contending: usize, counts: &mut [u32], bytes: &mut [u8])
        requires contenders { contending ≡ contending_to (length self.now.requirements.now) self.now.rungs.now }
        requires lengths { (length counts.old ≤ length self.now.requirements.now) × (length bytes.old ≡ length counts.old) }
        requires countable { (i : ℕ) → i < length counts.old → at counts.old i < 4294967295 }
        ensures counts { let f = self.now in counts.new ≡ each (length counts.old) (λ i. at counts.old i + bit (chosen_by (urgent_to (length f.requirements.now) f.rungs.now + room) f.requirements.now f.periods.now f.rungs.now f.t i)) }
        ensures bytes { let f = self.now in bytes.new ≡ each (length counts.old) (λ i. bit (chosen_by (urgent_to (length f.requirements.now) f.rungs.now + room) f.requirements.now f.periods.now f.rungs.now f.t i)) }
    {
        let mut known = Known {
            inside: None,
            outside: None,
        };
        for i in 0..counts.len() {
            let runs = self.runs(i, room, contending, &mut known);
            bytes[i] = u8::from(runs);
            if runs {
                counts[i] += 1;
            }
        }
    }

    // Refusal 9, or the choice.
    fn deal(&self, units: usize, counts: &mut [u32], bytes: &mut [u8]) -> Result<(), Refusal>
        requires lengths { (length counts.old ≤ length self.now.requirements.now) × (length bytes.old ≡ length counts.old) }
        requires countable { (i : ℕ) → i < length counts.old → at counts.old i < 4294967295 }
        ensures answer { let f = self.now in result ≡ (dealt_rungs units f.requirements.now f.periods.now f.rungs.now counts.old bytes.old f.t).answer }
        ensures counts { let f = self.now in counts.new ≡ (dealt_rungs units f.requirements.now f.periods.now f.rungs.now counts.old bytes.old f.t).counts }
        ensures bytes { let f = self.now in bytes.new ≡ (dealt_rungs units f.requirements.now f.periods.now f.rungs.now counts.old bytes.old f.t).bytes }
    {
        let urgent = self.count_rungs(is_urgent);
        let contending = self.count_rungs(contends);
        if units < urgent {
            return Err(Refusal::Stuck);
        }
        if urgent + contending < units {
            return Err(Refusal::Stuck);
        }
        self.choose(units - urgent, contending, counts, bytes);
        Ok(())
    }
}

// One slot of a field that is laid out, M given: the requirements and the periods have the spare's last, if there is one. It
// answers for lists of any length, so that it takes no `Laid`.
pub fn deal(
    units: u32,
    requirements: &[u32],
    periods: &[u32],
    counts: &mut [u32],
    bytes: &mut [u8],
    t: u32,
) -> Result<(), Refusal>
    ensures answer { result ≡ (dealt units requirements.now periods.now counts.old bytes.old t).answer }
    ensures counts { counts.new ≡ (dealt units requirements.now periods.now counts.old bytes.old t).counts }
    ensures bytes { bytes.new ≡ (dealt units requirements.now periods.now counts.old bytes.old t).bytes }
{
    if bytes.len() != counts.len() {
        return Err(Refusal::Lengths);
    }
    let rungs = standing::judge(units, requirements, periods, counts, t)?;
    let field = Field {
        requirements,
        periods,
        rungs: &rungs,
        t,
    };
    field.deal(units as usize, counts, bytes)
}

// One slot of a set on m units at time t: refusals 1 to 9, or the choice in the counts and in a byte for each task. The lists are lent one by
// one: document 01 names that form.
pub fn slot(
    requirements: &[u32],
    periods: &[u32],
    counts: &mut [u32],
    bytes: &mut [u8],
    m: u32,
    t: u32,
) -> Result<(), Refusal>
    ensures answer { result ≡ (slot_of requirements.now periods.now counts.old bytes.old m t).answer }
    ensures counts { counts.new ≡ (slot_of requirements.now periods.now counts.old bytes.old m t).counts }
    ensures bytes { bytes.new ≡ (slot_of requirements.now periods.now counts.old bytes.old m t).bytes }
{
    let n = requirements.len();
    if counts.len() != n {
        return Err(Refusal::Lengths);
    }
    if bytes.len() != n {
        return Err(Refusal::Lengths);
    }
    let accepted = admission::admit(requirements, periods, m)?;
    let laid = field::lay_out(requirements, periods, accepted.spare);
    deal(
        accepted.units,
        laid.requirements(),
        laid.periods(),
        counts,
        bytes,
        t,
    )
}
