// Frames: lines of hexadecimal, and the answers to them.
#![tactic(auto)]

ghost use Rattle.std.specs.Prelude.{IsTrue, ◌↔◌, cond, ◌&&◌, ◌≡◌, ◌*◌, ◌≤◌, leb, ltb, length};
ghost use Rattle.std.proofs.lemmas.List.Edits.{sets};
ghost use Rattle.rule.specs.Limits.{slots_most};
ghost use Rattle.reading.specs.Kinds.{read, run as a_run, list as a_listing};
ghost use Rattle.reading.specs.Asking.{asked_by};
ghost use Rattle.frames.specs.Replies.{reply};
ghost use Rattle.frames.specs.Keeping.{session_of, log_most, tasks_of, has_room, HasRoom, SameLists, answered};

use reading::Asked;
use rule::Ran;
use writing::Slots;

// What is kept of the set in force beside the lists: how many tasks it has, on how many units, and the time.
#[derive(Clone, Copy)]
pub struct Kept {
    pub n: usize,
    pub m: u32,
    pub t: u32,
}

// The caller's lists between frames, and the set in force, if there is one, with its records and its counts at the front of three of them. The
// log is only worked in. It has no invariant: `answer` takes lists of any length, and says that they stay those that were lent (`SameLists`).
// There is no heap: how much of the lists is in use stands beside them.
#[derive(Drop)]
pub struct Lent<'a> {
    pub set: Option<Kept>,
    pub requirements: &'a mut [u32],
    pub periods: &'a mut [u32],
    pub counts: &'a mut [u32],
    pub log: &'a mut [u8],
}

// Room for the longest log: 1,024 slots of 64 tasks.
const LOG_MOST: usize = 65536;

// Is there room for 64 tasks in each list, and for the longest log? It looks at the lists alone, so that they are lent as shared ones.
#[tactic(auto, using(std::proofs::lemmas::Bool::Decides::nat_tests))]
pub fn has_room(n: usize, requirements: &[u32], periods: &[u32], counts: &[u32], log: &[u8]) -> bool
    ensures { result ≡ (leb n 64 && leb 64 (length requirements.now) && leb 64 (length periods.now) && leb 64 (length counts.now) && leb log_most (length log.now)) }
{
    n <= rule::TASKS_MOST
        && requirements.len() >= rule::TASKS_MOST
        && periods.len() >= rule::TASKS_MOST
        && counts.len() >= rule::TASKS_MOST
        && log.len() >= LOG_MOST
}

impl Lent<'_> {
    // Is there room for 64 tasks in each list, and for the longest log?
    #[tactic(auto, unfolding(crate::specs::Keeping::has_room))]
    pub fn has_room(&self) -> bool
        ensures value { result ≡ has_room self.now }
        ensures facts { IsTrue result ↔ HasRoom self.now }
    {
        let tasks = self.set.map_or(0, |set| set.n);
        has_room(
            tasks,
            self.requirements,
            self.periods,
            self.counts,
            self.log,
        )
    }
}

// How much of the log a run takes: nothing where it is too long.
#[tactic(auto, using(std::proofs::lemmas::Bool::Decides::nat_tests))]
fn log_size(slots: u32, n: usize) -> usize
    requires { n ≤ 64 }
    ensures size { result ≡ cond (ltb slots_most slots) 0 (slots * n) }
    ensures fits { result ≤ log_most }
{
    if slots > rule::SLOTS_MOST {
        0
    } else {
        slots as usize * n
    }
}

// The answer to a run of the set in force. Its lists are lent as `&mut` one and all, here and below: the checker follows several slices
// of one struct only so.
fn ran(kept: &mut Lent<'_>, set: Kept, slots: u32, out: &mut [u8]) -> usize
    requires in_force { kept.old.set ≡ Some set }
    requires room { HasRoom kept.old }
    ensures same { SameLists kept.old kept.new }
    ensures session { session_of kept.new ≡ (reply (session_of kept.old) (a_run slots)).session }
    ensures text { out.new ≡ sets out.old 0 (reply (session_of kept.old) (a_run slots)).text }
    ensures size { result ≡ length (reply (session_of kept.old) (a_run slots)).text }
    ensures tasks { tasks_of kept.new.set ≤ 64 }
{
    let Kept { n, m, t } = set;
    let size = log_size(slots, n);
    let requirements = &mut kept.requirements[..n];
    let periods = &mut kept.periods[..n];
    let counts = &mut kept.counts[..n];
    let log = &mut kept.log[..size];
    log.fill(0);
    let Ran { done, end } = run::run(slots, requirements, periods, counts, log, m, t);
    kept.set = Some(Kept { n, m, t: t + done });
    writing::put_run(out, Slots { done, n, t, log }, end)
}

// The answer to a listing of the set in force, whose bytes are made in the log.
fn listed(kept: &mut Lent<'_>, set: Kept, out: &mut [u8]) -> usize
    requires in_force { kept.old.set ≡ Some set }
    requires room { HasRoom kept.old }
    ensures same { SameLists kept.old kept.new }
    ensures session { session_of kept.new ≡ (reply (session_of kept.old) a_listing).session }
    ensures text { out.new ≡ sets out.old 0 (reply (session_of kept.old) a_listing).text }
    ensures size { result ≡ length (reply (session_of kept.old) a_listing).text }
    ensures tasks { tasks_of kept.new.set ≤ 64 }
{
    let Kept { n, m, t } = set;
    let requirements = &mut kept.requirements[..n];
    let periods = &mut kept.periods[..n];
    let counts = &mut kept.counts[..n];
    let bytes = &mut kept.log[..n];
    bytes.fill(0);
    match listing::list(requirements, periods, counts, bytes, m, t) {
        Ok(()) => writing::put_listing(out, t, bytes),
        Err(refusal) => writing::put_refused(out, refusal),
    }
}

// The answer to a set: it is in force from time 0 on if admission accepts it, and else the former one stays.
#[tactic(auto, using(crate::proofs::Sets::set_refused))]
fn admitted(kept: &mut Lent<'_>, line: &[u8], m: u32, n: usize, out: &mut [u8]) -> usize
    requires asked { (asked_by (read line.now) ≡ Some (Asked.Admit m n)) × (n ≤ 64) }
    requires room { HasRoom kept.old }
    ensures same { SameLists kept.old kept.new }
    ensures session { session_of kept.new ≡ (reply (session_of kept.old) (read line.now)).session }
    ensures text { out.new ≡ sets out.old 0 (reply (session_of kept.old) (read line.now)).text }
    ensures size { result ≡ length (reply (session_of kept.old) (read line.now)).text }
    ensures tasks { tasks_of kept.new.set ≤ 64 }
{
    let es = reading::column(line, 3);
    let ps = reading::column(line, 5);
    match admission::admit(&es[..n], &ps[..n], m) {
        Err(refusal) => writing::put_refused(out, refusal), // The former set stays, at its time.
        Ok(accepted) => {
            let requirements = &mut kept.requirements[..n];
            let periods = &mut kept.periods[..n];
            let counts = &mut kept.counts[..n];
            requirements.copy_from_slice(&es[..n]);
            periods.copy_from_slice(&ps[..n]);
            counts.fill(0);
            kept.set = Some(Kept { n, m, t: 0 });
            writing::put_accepted(out, accepted)
        }
    }
}

// The answer to one line, without its line feed: what is kept changes, the answer stands in `out` as far as there is room, and the
// result is how many bytes it takes. Without room for 64 tasks and the longest log nothing is done.
pub fn answer(kept: &mut Lent<'_>, line: &[u8], out: &mut [u8]) -> usize
    ensures same { SameLists kept.old kept.new }
    ensures session { session_of kept.new ≡ (answered (has_room kept.old) (session_of kept.old) line.now).session }
    ensures text { out.new ≡ sets out.old 0 (answered (has_room kept.old) (session_of kept.old) line.now).text }
    ensures size { result ≡ length (answered (has_room kept.old) (session_of kept.old) line.now).text }
    ensures room { has_room kept.new ≡ has_room kept.old }
{
    if !kept.has_room() {
        return 0;
    }
    let Some(asked) = reading::what_is_asked(line) else {
        return writing::put_malformed(out);
    };
    match (asked, kept.set) {
        (Asked::Admit { m, n }, _) => admitted(kept, line, m, n, out),
        (Asked::Run { slots }, Some(set)) => ran(kept, set, slots, out),
        (Asked::List, Some(set)) => listed(kept, set, out),
        (_, None) => writing::put_malformed(out), // A run or a listing before any set is accepted.
    }
}
