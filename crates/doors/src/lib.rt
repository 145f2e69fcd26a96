// Document 01's entries for a host program, which links them as a static library: both doors. The C interface is why they take and
// answer plain numbers and lent lists: an answer is one number (specs/Codes.antt).
#![tactic(auto)]

ghost use Rattle.std.specs.Prelude.{◌≡◌, ◌<◌, ◌≤◌};
ghost use Rattle.std.proofs.lemmas.List.Edits.{sets};
ghost use Rattle.rule.specs.Limits.{slots_most};
ghost use Rattle.rule.specs.Answers.{carried_by};
ghost use Rattle.rule.specs.Outcomes.{admission, comparison, slot, run, listing};
ghost use Rattle.records.specs.Door.{requirements_of, periods_of, counts_of, with_counts};
ghost use Rattle.doors.specs.Codes.{amount, code_of, outcome_code, ran_code, order_code, comparison_code, admission_code, four, answer_after};

use records::Task;
use rule::{Accepted, Order, Ran, Refusal, Weight};

// What a refusal carries, 0 for nothing. No `From`: the number and the place are both numbers of a refusal.
fn amount_of(refusal: Refusal) -> u32
    ensures { result ≡ amount (carried_by refusal) }
{
    match refusal {
        Refusal::Record { place } | Refusal::Lag { place } => place,
        Refusal::Load { excess } => excess,
        _ => 0,
    }
}

// A refusal's number times 2^32, and below it what the refusal carries. It stays below 2^40, where a run's slots are told.
fn code_of(refusal: Refusal) -> u64
    ensures code { result ≡ code_of refusal }
    ensures room { result < 0x10000000000 }
{
    u64::from(refusal.number()) * 0x100000000 + u64::from(amount_of(refusal))
}

// 0 for done.
fn outcome_code(outcome: Result<(), Refusal>) -> u64
    ensures code { result ≡ outcome_code outcome }
    ensures room { result < 0x10000000000 }
{
    outcome.map_or_else(code_of, |()| 0)
}

// The slots done times 2^40, and below them how the run ended. No more than 1,024 are ever done, so that nothing is lost.
fn ran_code(ran: Ran) -> u64
    requires { ran.done ≤ slots_most }
    ensures { result ≡ ran_code ran }
{
    u64::from(ran.done) * 0x10000000000 + outcome_code(ran.end)
}

// Which of two goes first, as a number below every refusal's code. A `match`: the C interface's numbers are said here.
fn order_code(order: Order) -> u64
    ensures { result ≡ order_code order }
{
    match order {
        Order::First => 0,
        Order::Second => 1,
        Order::Tie => 2,
    }
}

// M, L, and the spare's requirement and period, 0 and 0 if there is none.
#[tactic(auto, unfolding(rule::specs::Layout::requirement_of, rule::specs::Layout::period_of))]
fn four(accepted: Accepted) -> [u32; 4]
    ensures { result ≡ four accepted }
{
    let Accepted {
        units,
        multiple,
        spare,
    } = accepted;
    let (e, p) = spare.map_or((0, 0), |weight| (weight.e, weight.p));
    [units, multiple, e, p]
}

// An accepted set as four numbers, as far as there is room.
fn put_accepted(accepted: Accepted, answer: &mut [u32])
    ensures { answer.new ≡ sets answer.old 0 (four accepted) }
{
    let numbers = four(accepted);
    let room = answer.len().min(numbers.len());
    answer[..room].copy_from_slice(&numbers[..room]);
}

// What either door answers to an admission: a refusal leaves the list as it was. A `match`, since what is stored is said beside the number.
fn put_admission(admission: Result<Accepted, Refusal>, answer: &mut [u32]) -> u64
    ensures code { result ≡ admission_code admission }
    ensures answer { answer.new ≡ answer_after admission answer.old }
{
    match admission {
        Ok(accepted) => {
            put_accepted(accepted, answer);
            0
        }
        Err(refusal) => code_of(refusal),
    }
}

// Admission of a set lent as two lists: M, L and the spare in the first four places of `answer`.
#[unsafe(no_mangle)]
pub extern "C" fn door_admit(
    requirements: &[u32],
    periods: &[u32],
    m: u32,
    answer: &mut [u32],
) -> u64
    ensures code { result ≡ admission_code (admission requirements.now periods.now m) }
    ensures answer { answer.new ≡ answer_after (admission requirements.now periods.now m) answer.old }
{
    put_admission(admission::admit(requirements, periods, m), answer)
}

// Comparison of e in p with e2 in p2 at time t: 0 first, 1 second, 2 tie, or a refusal, whose code is 2^32 or more, so that the two are
// told apart.
#[unsafe(no_mangle)]
pub extern "C" fn door_compare(e: u32, p: u32, e2: u32, p2: u32, t: u32) -> u64
    ensures { result ≡ comparison_code (comparison e p e2 p2 t) }
{
    order::compare(Weight { e, p }, Weight { e: e2, p: p2 }, t).map_or_else(code_of, order_code)
}

// One slot of a set lent as three lists, with a byte for each task. It has one shape with `door_list`: C needs a name for each.
#[unsafe(no_mangle)]
pub extern "C" fn door_slot(
    requirements: &[u32],
    periods: &[u32],
    counts: &mut [u32],
    bytes: &mut [u8],
    m: u32,
    t: u32,
) -> u64
    ensures code { result ≡ outcome_code (slot requirements.now periods.now counts.old bytes.old m t).answer }
    ensures counts { counts.new ≡ (slot requirements.now periods.now counts.old bytes.old m t).counts }
    ensures bytes { bytes.new ≡ (slot requirements.now periods.now counts.old bytes.old m t).bytes }
{
    outcome_code(slot::slot(requirements, periods, counts, bytes, m, t))
}

// Several slots of a set lent as three lists, with n bytes of the log for each.
#[tactic(auto, using(run::proofs::Done::done_few))]
#[unsafe(no_mangle)]
pub extern "C" fn door_run(
    slots: u32,
    requirements: &[u32],
    periods: &[u32],
    counts: &mut [u32],
    log: &mut [u8],
    m: u32,
    t: u32,
) -> u64
    ensures code { result ≡ ran_code (run slots requirements.now periods.now counts.old log.old m t).answer }
    ensures counts { counts.new ≡ (run slots requirements.now periods.now counts.old log.old m t).counts }
    ensures log { log.new ≡ (run slots requirements.now periods.now counts.old log.old m t).log }
{
    ran_code(run::run(slots, requirements, periods, counts, log, m, t))
}

// How each task of a set lent as three lists stands, a byte for each.
#[unsafe(no_mangle)]
pub extern "C" fn door_list(
    requirements: &[u32],
    periods: &[u32],
    counts: &[u32],
    bytes: &mut [u8],
    m: u32,
    t: u32,
) -> u64
    ensures code { result ≡ outcome_code (listing requirements.now periods.now counts.now bytes.old m t).answer }
    ensures bytes { bytes.new ≡ (listing requirements.now periods.now counts.now bytes.old m t).bytes }
{
    outcome_code(listing::list(requirements, periods, counts, bytes, m, t))
}

// Admission of a set lent as a list of records; it does no more than hand over.
#[unsafe(no_mangle)]
pub extern "C" fn door_admit_records(tasks: &[Task], m: u32, answer: &mut [u32]) -> u64
    ensures code { result ≡ admission_code (admission (requirements_of tasks.now) (periods_of tasks.now) m) }
    ensures answer { answer.new ≡ answer_after (admission (requirements_of tasks.now) (periods_of tasks.now) m) answer.old }
{
    put_admission(records::admit(tasks, m), answer)
}

// One slot of a set lent as a list of records, whose counts it changes; it hands over as well.
#[unsafe(no_mangle)]
pub extern "C" fn door_slot_records(tasks: &mut [Task], bytes: &mut [u8], m: u32, t: u32) -> u64
    ensures code { result ≡ outcome_code (slot (requirements_of tasks.old) (periods_of tasks.old) (counts_of tasks.old) bytes.old m t).answer }
    ensures bytes { bytes.new ≡ (slot (requirements_of tasks.old) (periods_of tasks.old) (counts_of tasks.old) bytes.old m t).bytes }
    ensures counts { tasks.new ≡ with_counts tasks.old (slot (requirements_of tasks.old) (periods_of tasks.old) (counts_of tasks.old) bytes.old m t).counts }
{
    outcome_code(records::slot(tasks, bytes, m, t))
}
