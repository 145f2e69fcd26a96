// Writing: the lines of an answer. Each line is stored as far as there is room, and the place after it is that of the whole line, so that
// a caller can tell.
#![tactic(auto)]

ghost use Rattle.std.specs.Prelude.{◌≡◌, [], ◌∷◌, ◌^◌, ◌<◌, ◌≤◌, true, length};
ghost use Rattle.std.proofs.lemmas.List.Edits.{sets};
ghost use Rattle.rule.specs.Answers.{carried_by};
ghost use Rattle.digits.specs.Digits.{digits_of};
ghost use Rattle.digits.specs.Fields.{field};
ghost use Rattle.writing.specs.AnswerLines.{line_feed, place_byte, refusal_by, refusal_line, malformed_line, spare_bytes, accepted_line, listing_line};
ghost use Rattle.writing.specs.AnswerLines.{places_from, slot_line, slot_lines, end_line, listing_text, run_fits_in, run_text};

use rule::{Accepted, Refusal, Weight};

// What ends a line.
const LINE_FEED: u8 = 0x0A;

// Where a refusal names no place: document 01's byte of the line (`place_byte`), so that `place_of` is no Option.
const NO_PLACE: u32 = 0xFF;

// The slots that a run did: how many, of how many tasks each, from which time on, and the bytes of all of them. There is no
// heap: the log is lent, and how much of it is meant stands beside it.
#[derive(Clone, Copy)]
pub struct Slots<'a> {
    pub done: u32,
    pub n: usize,
    pub t: u32,
    pub log: &'a [u8],
}

impl Slots<'_> {
    // Can their lines be written: are they within the limits, has the log the bytes of them all, and are their times of four bytes?
    #[tactic(auto, unfolding(crate::specs::AnswerLines::run_fits_in))]
    fn fit(&self) -> bool
        ensures { let s = self.now in result ≡ run_fits_in s.done s.n s.t (length s.log.now) }
    {
        // Within the limits the product is no more than 65,536. The sum is in 64 bits, since it may be no u32.
        self.done <= rule::SLOTS_MOST
            && self.n <= rule::TASKS_MOST
            && self.done as usize * self.n <= self.log.len()
            && self.t as u64 + self.done as u64 <= 0xFFFF_FFFF
    }
}

// Where an answer is written: the lent buffer, and beside it the place after what is written so far, since there is no heap. Its methods
// bound the place only so that no sum of places is too large for a usize; no invariant does, since each call moves the place on and each
// layer of calls has a bound of its own.
#[derive(Drop)]
struct Writer<'a> {
    out: &'a mut [u8],
    at: usize,
}

#[tactic(auto, using(crate::proofs::Sizes::sizes))]
impl<'a> Writer<'a> {
    ghost use Rattle.writing.specs.Writing.{Writes};

    fn new(out: &'a mut [u8]) -> Writer<'a>
        ensures same_reference { result.out.ghost_name ≡ out.entry.ghost_name }
        ensures out { result.out.now ≡ out.old }
        ensures at { result.at ≡ 0 }
    {
        Writer { out, at: 0 }
    }

    // Writes a byte's two digits.
    fn byte(&mut self, byte: u8)
        requires { self.old.at < 2 ^ 36 }
        ensures { Writes self.old self.new (digits_of (byte ∷ [])) }
    {
        digits::put_byte(self.out, self.at, byte);
        self.at += 2;
    }

    // Writes a value in `width` bytes.
    fn field(&mut self, width: u8, value: u32)
        requires { self.old.at < 2 ^ 36 }
        ensures { Writes self.old self.new (digits_of (field width value)) }
    {
        digits::put_field(self.out, self.at, width, value);
        self.at += 2 * width as usize;
    }

    // Ends a line.
    fn end(&mut self)
        requires { self.old.at < 2 ^ 36 }
        ensures { Writes self.old self.new (line_feed ∷ []) }
    {
        if self.at < self.out.len() {
            self.out[self.at] = LINE_FEED;
        }
        self.at += 1;
    }

    // Writes the line of a refusal, by its number and place.
    fn refusal(&mut self, number: u32, place: u32)
        requires { self.old.at < 2 ^ 35 }
        ensures { Writes self.old self.new (refusal_by number place) }
    {
        self.byte(0x8F);
        self.field(1, number);
        self.field(1, place);
        self.end();
    }

    // Writes a refusal's line.
    #[tactic(auto, unfolding(crate::specs::AnswerLines::refusal_line))]
    fn refused(&mut self, refusal: Refusal)
        requires { self.old.at < 2 ^ 35 }
        ensures { Writes self.old self.new (refusal_line refusal) }
    {
        self.refusal(refusal.number(), place_of(refusal));
    }

    // Writes the spare's two fields: 0 and 0 if there is none.
    fn spare(&mut self, spare: Option<Weight>)
        requires { self.old.at < 2 ^ 35 }
        ensures { Writes self.old self.new (digits_of (spare_bytes spare)) }
    {
        let Weight { e, p } = spare.unwrap_or(Weight { e: 0, p: 0 });
        self.field(4, e);
        self.field(4, p);
    }

    // Writes the line of an accepted set.
    fn accepted(&mut self, accepted: Accepted)
        requires { self.old.at < 2 ^ 34 }
        ensures { Writes self.old self.new (accepted_line accepted) }
    {
        self.byte(0x81);
        self.field(1, accepted.units);
        self.field(4, accepted.multiple);
        self.spare(accepted.spare);
        self.end();
    }

    // Writes bytes as they are.
    fn bytes(&mut self, bytes: &[u8])
        requires { (self.old.at < 2 ^ 35) × (length bytes.now ≤ 64) }
        ensures { Writes self.old self.new (digits_of bytes.now) }
    {
        for byte in bytes {
            self.byte(*byte);
        }
    }

    // Writes the line of a listing.
    fn listing(&mut self, t: u32, bytes: &[u8])
        requires { (self.old.at < 2 ^ 34) × (length bytes.now ≤ 64) }
        ensures { Writes self.old self.new (listing_line t bytes.now) }
    {
        self.byte(0x83);
        self.field(4, t);
        self.bytes(bytes);
        self.end();
    }

    // Writes the places of the tasks that ran, rising.
    fn places(&mut self, bytes: &[u8])
        requires { (self.old.at < 2 ^ 35) × (length bytes.now ≤ 64) }
        ensures { Writes self.old self.new (digits_of (places_from 0 bytes.now)) }
    {
        for (task, byte) in bytes.iter().enumerate() {
            if *byte == 1 {
                self.byte(task as u8);
            }
        }
    }

    // Writes the line of one slot.
    fn slot(&mut self, t: u32, bytes: &[u8])
        requires { (self.old.at < 2 ^ 34) × (length bytes.now ≤ 64) }
        ensures { Writes self.old self.new (slot_line t bytes.now) }
    {
        self.byte(0x82);
        self.field(4, t);
        self.byte(count_ran(bytes));
        self.places(bytes);
        self.end();
    }

    // Writes the lines of the slots.
    fn slots(&mut self, slots: Slots<'_>)
        requires room { self.old.at < 2 ^ 33 }
        requires fit { run_fits_in slots.done slots.n slots.t (length slots.log.now) ≡ true }
        ensures { let s = slots.entry in Writes self.old self.new (slot_lines s.done s.n s.t s.log.now) }
    {
        let Slots { done, n, t, log } = slots;
        // By places and not by `chunks`, which panics where n is 0: then each line names no task.
        for slot in 0..done {
            let from = slot as usize * n;
            self.slot(t + slot, &log[from..from + n]);
        }
    }

    // Writes the line of the refusal that stopped a run, if one did.
    #[tactic(auto, unfolding(crate::specs::AnswerLines::end_line))]
    fn run_end(&mut self, end: Result<(), Refusal>)
        requires { self.old.at < 2 ^ 35 }
        ensures { Writes self.old self.new (end_line end) }
    {
        match end {
            Ok(()) => {}
            Err(refusal) => self.refused(refusal),
        }
    }
}

// The place that a refusal's line names. An excess is no place. No `From`: a refusal has a number too.
fn place_of(refusal: Refusal) -> u32
    ensures { result ≡ place_byte (carried_by refusal) }
{
    match refusal {
        Refusal::Record { place } | Refusal::Lag { place } => place,
        _ => NO_PLACE,
    }
}

// How many tasks ran in a slot, which its line names before their places. `cases` has this filter too: to share it would be no plainer, since
// the clause here speaks of a line's places.
fn count_ran(bytes: &[u8]) -> u8
    requires { length bytes.now ≤ 64 }
    ensures { result ≡ length (places_from 0 bytes.now) }
{
    bytes.iter().filter(|byte| **byte == 1).count() as u8
}

// Writes a refusal's line, and answers its length.
pub fn put_refused(out: &mut [u8], refusal: Refusal) -> usize
    ensures out { out.new ≡ sets out.old 0 (refusal_line refusal) }
    ensures place { result ≡ length (refusal_line refusal) }
{
    let mut line = Writer::new(out);
    line.refused(refusal);
    line.at
}

// Writes the line of refusal 11, which no call of the library gives.
#[tactic(auto, unfolding(crate::specs::AnswerLines::refusal_by, crate::specs::AnswerLines::malformed_line, digits::specs::Fields::field))]
pub fn put_malformed(out: &mut [u8]) -> usize
    ensures out { out.new ≡ sets out.old 0 malformed_line }
    ensures place { result ≡ length malformed_line }
{
    let mut line = Writer::new(out);
    line.refusal(11, NO_PLACE);
    line.at
}

// Writes the line of an accepted set, and answers its length.
pub fn put_accepted(out: &mut [u8], accepted: Accepted) -> usize
    ensures out { out.new ≡ sets out.old 0 (accepted_line accepted) }
    ensures place { result ≡ length (accepted_line accepted) }
{
    let mut line = Writer::new(out);
    line.accepted(accepted);
    line.at
}

// Writes the line of a listing, and answers its length. No listing has more than 64 bytes: of more nothing is written.
#[tactic(auto, unfolding(crate::specs::AnswerLines::listing_text))]
pub fn put_listing(out: &mut [u8], t: u32, bytes: &[u8]) -> usize
    ensures out { out.new ≡ sets out.old 0 (listing_text t bytes.now) }
    ensures place { result ≡ length (listing_text t bytes.now) }
{
    if bytes.len() > rule::TASKS_MOST {
        return 0;
    }
    let mut line = Writer::new(out);
    line.listing(t, bytes);
    line.at
}

// Writes the lines of the slots that a run did, and then that of the refusal that stopped it, if one did; answers their length. Where
// the slots do not fit nothing is written.
#[tactic(auto, unfolding(crate::specs::AnswerLines::run_text), using(crate::proofs::Sizes::sizes))]
pub fn put_run(out: &mut [u8], slots: Slots<'_>, end: Result<(), Refusal>) -> usize
    ensures out { let s = slots.entry in out.new ≡ sets out.old 0 (run_text s.done s.n s.t s.log.now end) }
    ensures place { let s = slots.entry in result ≡ length (run_text s.done s.n s.t s.log.now end) }
{
    if !slots.fit() {
        return 0;
    }
    let mut lines = Writer::new(out);
    lines.slots(slots);
    lines.run_end(end);
    lines.at
}
