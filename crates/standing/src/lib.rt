// How the places of a laid-out field stand at a time: refusals 7 and 8, and each place's standing and class. What is not laid out as a
// field is refused before that, by the numbers 1 to 4.
#![tactic(auto)]

ghost use Rattle.std.specs.Prelude.{true, not, cond, map, ◌≡◌, ℕ, suc, ◌*◌, ◌<◌, ◌≤◌, ◌^◌, ltb, length};
ghost use Rattle.std.specs.List.{range_with_len};
ghost use Rattle.rule.specs.Limits.{tasks_most, units_most};
ghost use Rattle.rule.specs.Places.{at, sum, lowest, found};
ghost use Rattle.rule.specs.Sets.{task_at};
ghost use Rattle.rule.specs.Task.{lag as lag_of, fair};
ghost use Rattle.rule.proofs.Lags.{counted};
ghost use Rattle.standing.specs.Judged.{rung, rungs_of, judged};
ghost use Rattle.standing.specs.Laid.{is_laid_out, laid_entry, laid_unfair, laid_unfair_place};
ghost use Rattle.standing.specs.Sound.{Small, Sound};

use rule::Refusal;

// How a place stands and of which class it is, from the most ahead to the most behind.
#[derive(Clone, Copy, PartialEq, Eq)]
pub enum Rung {
    // Ahead, and one slot more would put it out of bounds.
    Tnegru,
    // Ahead and not tnegru.
    Ahead,
    Punctual,
    // Behind and not urgent.
    Behind,
    // Behind, and without this slot out of bounds.
    Urgent,
}

// The lists of a field that refusals 1 to 7 pass, and M in use, at a time.
#[derive(Clone, Copy)]
struct Field<'a> {
    units: u32,
    requirements: &'a [u32],
    periods: &'a [u32],
    counts: &'a [u32],
    t: u32,
    ghost few_units: { units ≤ units_most },
    ghost sound: { Sound requirements.now periods.now counts.now t },
}

// A task within its limits, with a count that is a u32, at a time of the calendar. e and p stand apart, as `Small` and `counted` take them.
#[derive(Clone, Copy)]
struct Task {
    e: u32,
    p: u32,
    k: u64,
    t: u32,
    ghost small: { Small e p k t },
}

// The rung of every place of a field at t, M in use, or the first refusal that holds. There is no heap: it is 65 rungs whatever the field, and
// past its places they are `Tnegru`. It answers for lists of any length, so that it takes no `Laid`.
pub fn judge(
    units: u32,
    requirements: &[u32],
    periods: &[u32],
    counts: &[u32],
    t: u32,
) -> Result<[Rung; 65], Refusal>
    ensures { result ≡ judged units requirements.now periods.now counts.now t }
{
    if !laid_out(requirements, periods, counts) {
        return Err(Refusal::Lengths);
    }
    let n = counts.len();
    if n == 0 || n > rule::TASKS_MOST {
        return Err(Refusal::Tasks);
    }
    if units > rule::UNITS_MOST {
        return Err(Refusal::Units);
    }
    if let Some(wild) = rule::outside_place(requirements, periods, rule::MULTIPLE_MOST) {
        return Err(Refusal::Record { place: wild as u32 });
    }
    if t > rule::TIME_MOST {
        return Err(Refusal::Time);
    }
    let field = Field {
        units,
        requirements,
        periods,
        counts,
        t,
    };
    if let Some(unfair) = field.unfair_place() {
        return Err(Refusal::Lag {
            place: unfair as u32,
        });
    }
    Ok(field.rungs())
}

// Are these the lists of a field?
#[tactic(auto, unfolding(crate::specs::Laid::is_laid_out))]
fn laid_out(requirements: &[u32], periods: &[u32], counts: &[u32]) -> bool
    ensures { result ≡ is_laid_out requirements.now periods.now counts.now }
{
    let size = requirements.len();
    let n = counts.len();
    if periods.len() != size {
        return false;
    }
    size == n || size == n + 1
}

impl Field<'_> {
    // The task, or the spare, at a place, with this count.
    fn task(&self, place: usize, count: u64) -> Task
        requires in_bounds { place < length self.now.requirements.now }
        requires narrow { count ≤ 4294967295 }
        ensures entry { let f = self.now in counted result.e result.p result.k ≡ counted (at f.requirements.now place) (at f.periods.now place) count }
        ensures time { result.t ≡ self.now.t }
    {
        Task {
            e: self.requirements[place],
            p: self.periods[place],
            k: count,
            t: self.t,
        }
    }

    // The lowest place whose lag is out of bounds; place n is the spare's, or the sum's.
    #[tactic(auto, using(crate::proofs::Entries::found_task, crate::proofs::Entries::found_last, crate::proofs::Entries::found_nowhere))]
    fn unfair_place(&self) -> Option<usize>
        ensures { let f = self.now in result ≡ found (suc (length f.counts.now)) (laid_unfair_place f.units f.requirements.now f.periods.now f.counts.now f.t) }
    {
        if let Some(task) = self.unfair_task() {
            return Some(task);
        }
        if self.adds_up() {
            None
        } else {
            Some(self.counts.len())
        }
    }

    // The lowest place of a task whose lag is out of bounds.
    fn unfair_task(&self) -> Option<usize>
        ensures { let f = self.now in result ≡ found (length f.counts.now) (lowest (length f.counts.now) (λ i. not (fair f.t (task_at f.requirements.now f.periods.now f.counts.now i)))) }
    {
        (0..self.counts.len()).position(|i| !self.task(i, u64::from(self.counts[i])).is_fair())
    }

    // Is the spare's lag within its bounds, or where there is no spare, do the counts add up to M·t?
    #[tactic(auto, using(crate::proofs::Entries::given_narrow, crate::proofs::Entries::fair_sum, crate::proofs::Entries::fair_spare, crate::proofs::Entries::laid_spare, crate::proofs::Entries::spare_over))]
    fn adds_up(&self) -> bool
        ensures { let f = self.now in result ≡ not (laid_unfair f.units f.requirements.now f.periods.now f.counts.now f.t (length f.counts.now)) }
    {
        let n = self.counts.len();
        let given = u64::from(self.units) * u64::from(self.t);
        let others = sum_of(self.counts);
        if self.requirements.len() == n {
            return others == given;
        }
        // The spare's count would be below zero, which is out of bounds.
        if others > given {
            return false;
        }
        self.task(n, given - others).is_fair()
    }

    // The rungs of all places of a field whose lags are within their bounds.
    fn rungs(&self) -> [Rung; 65]
        requires each_fair { let f = self.now in (i : ℕ) → i < length f.requirements.now → fair f.t (laid_entry f.units f.requirements.now f.periods.now f.counts.now f.t i) ≡ true }
        ensures { let f = self.now in result ≡ rungs_of f.units f.requirements.now f.periods.now f.counts.now f.t }
    {
        let n = self.counts.len();
        let mut rungs = self.task_rungs();
        if self.requirements.len() == n {
            return rungs;
        }
        let given = u64::from(self.units) * u64::from(self.t);
        let others = sum_of(self.counts);
        rungs[n] = self.task(n, given - others).rung();
        rungs
    }

    // The rungs of the tasks, and Tnegru past them. By index: of a list that a zip of `iter_mut` wrote to a proof knows the length alone.
    #[tactic(auto, using(crate::proofs::Lists::listed_more), unfolding(rule::specs::Sets::task_at))]
    fn task_rungs(&self) -> [Rung; 65]
        requires each_fair { let f = self.now in (i : ℕ) → i < length f.counts.now → fair f.t (task_at f.requirements.now f.periods.now f.counts.now i) ≡ true }
        ensures { let f = self.now in result ≡ map (λ i. cond (ltb i (length f.counts.now)) (rung f.t (task_at f.requirements.now f.periods.now f.counts.now i)) Rung.Tnegru) (range_with_len 0 65) }
    {
        let mut rungs = [Rung::Tnegru; 65];
        for (i, &k) in self.counts.iter().enumerate() {
            rungs[i] = self.task(i, u64::from(k)).rung();
        }
        rungs
    }
}

// The sum of the counts.
fn sum_of(counts: &[u32]) -> u64
    requires { length counts.now ≤ tasks_most }
    ensures { result ≡ sum (length counts.now) (at counts.now) }
{
    counts.iter().map(|k| u64::from(*k)).sum()
}

impl Task {
    // The rung, by the lag and the next one.
    fn rung(&self) -> Rung
        requires { let x = self.now in fair x.t (counted x.e x.p x.k) ≡ true }
        ensures { let x = self.now in result ≡ rung x.t (counted x.e x.p x.k) }
    {
        let next = self.lag(self.t + 1);
        if next <= 0 {
            return Rung::Tnegru;
        }
        if next >= self.p as i64 {
            return Rung::Urgent;
        }
        // A `match` on `cmp(&0)` has the same three arms.
        let lag = self.lag(self.t);
        if lag < 0 {
            Rung::Ahead
        } else if lag == 0 {
            Rung::Punctual
        } else {
            Rung::Behind
        }
    }

    // Is the lag times period strictly between -p and p?
    fn is_fair(&self) -> bool
        ensures { let x = self.now in result ≡ fair x.t (counted x.e x.p x.k) }
    {
        let lag = self.lag(self.t);
        let period = self.p as i64;
        -period < lag && lag < period
    }

    // The lag times period at a time, e·t - p·k.
    fn lag(&self, t: u32) -> i64
        requires t_bound { self.now.e * t < 2 ^ 63 }
        requires k_bound { self.now.p * self.now.k < 2 ^ 63 }
        ensures { let x = self.now in result ≡ lag_of t (counted x.e x.p x.k) }
    {
        let due = u64::from(self.e) * u64::from(t);
        let done = u64::from(self.p) * self.k;
        (due as i64) - (done as i64)
    }
}
