// The program's input as it comes, in pieces of any size: lines are cut from it, and each is answered at its line feed.
#![tactic(auto)]

ghost use Rattle.std.specs.Prelude.{IsTrue, ◌↔◌, cond, ◌≡◌, ◌≤◌, ◌<◌, eqb, length, take, position};
ghost use Rattle.std.proofs.lemmas.List.Edits.{sets};
ghost use Rattle.writing.specs.AnswerLines.{line_feed};
ghost use Rattle.frames.specs.Stream.{feed as feed_of};
ghost use Rattle.frames.specs.Keeping.{session_of, has_room, HasRoom, SameLists, answer_most};
ghost use Rattle.stream.specs.Taking.{hold, scan, step};
ghost use Rattle.stream.specs.Pieces.{session_at, line_at, held_of, has_room_for, HasRoomFor, HasLineFor, is_roomy, HasBytes, IsRoomy, SameLine, SameReader, reach, taken, ended_by};

use frames::{Kept, Lent};

const LINE_FEED: u8 = 0x0A;

// One byte past the longest line: of a longer one no more is of use.
const LINE_MOST: usize = 519;

// No answer is longer: 1,024 lines that name 64 tasks each, and the line of a refusal.
const ANSWER_MOST: usize = 144391;

// What is kept while more input is waited for, beside the lent lists: the set in force, and how much of the line at hand is held.
#[derive(Clone, Copy)]
pub struct Waiting {
    pub kept: Option<Kept>,
    pub held: usize,
}

// What is kept while more input is waited for: the session, and the line at hand at the front of a lent list. There is no heap, so that its
// length stands beside it; and no invariant: `feed` and `finish` take lists of any length, and say that they stay those that were lent
// (`SameReader`). The lists stand here one by one, and not in a `Lent`: of a reference in a struct within a struct the checker says nothing
// once the loan has ended. So one who lends lists of its own knows after the call what is in them.
#[derive(Drop)]
pub struct Reader<'a> {
    pub set: Option<Kept>,
    pub requirements: &'a mut [u32],
    pub periods: &'a mut [u32],
    pub counts: &'a mut [u32],
    pub log: &'a mut [u8],
    pub line: &'a mut [u8],
    pub held: usize,
}

// How many bytes of a piece are taken, and how many bytes of the lent buffer the answers take.
#[derive(Clone, Copy)]
pub struct Fed {
    pub at: usize,
    pub size: usize,
}

// The place of the first line feed.
fn line_end(piece: &[u8]) -> Option<usize>
    ensures { result ≡ position (λ b. eqb b line_feed) piece.now }
{
    piece.iter().position(|&byte| byte == LINE_FEED)
}

// Is there room for the line at hand?
fn has_line(held: usize, line: &[u8]) -> bool
    ensures { IsTrue result ↔ HasLineFor held line.now }
{
    held <= LINE_MOST && line.len() >= LINE_MOST
}

// Is there room for the line at hand, 64 tasks and the longest log?
fn has_room_for(kept: &Lent<'_>, held: usize, line: &[u8]) -> bool
    ensures { IsTrue result ↔ HasRoomFor kept.now held line.now }
{
    kept.has_room() && has_line(held, line)
}

impl Reader<'_> {
    fn is_roomy(&self) -> bool
        ensures { IsTrue result ↔ IsRoomy self.now }
    {
        let tasks = self.set.map_or(0, |set| set.n);
        frames::has_room(
            tasks,
            self.requirements,
            self.periods,
            self.counts,
            self.log,
        ) && has_line(self.held, self.line)
    }

    // What is kept beside the lists, for a caller that copies it, or lends the lists anew at the next call.
    pub fn waiting(&self) -> Waiting
        ensures { result ≡ record { kept = self.now.set; held = self.now.held } }
    {
        Waiting {
            kept: self.set,
            held: self.held,
        }
    }
}

// The line at hand, at the front of a list. It stands beside a `Lent`, and neither holds the other, for the same reason.
#[derive(Drop)]
struct Line<'a> {
    bytes: &'a mut [u8],
    held: usize,
}

impl Line<'_> {
    // More of the line at hand, as far as it is not too long already.
    fn hold(&mut self, bytes: &[u8])
        requires { HasBytes self.old }
        ensures same { SameLine self.old self.new }
        ensures line { held_of self.new ≡ hold (held_of self.old) bytes.now }
        ensures room { HasBytes self.new }
    {
        // Of an empty line there is nothing to copy, and the copy would be most of its cost.
        if bytes.is_empty() {
            return;
        }
        let n = bytes.len().min(LINE_MOST - self.held);
        let place = &mut self.bytes[self.held..self.held + n];
        place.copy_from_slice(&bytes[..n]);
        self.held += n;
    }

    // Takes the bytes of a piece up to its first line feed, and says how many these are with it. Without one it takes them all.
    fn take_line(&mut self, piece: &[u8]) -> Option<usize>
        requires { HasBytes self.old }
        ensures same { SameLine self.old self.new }
        ensures line { held_of self.new ≡ (scan (held_of self.old) piece.now).line }
        ensures end { result ≡ cond (scan (held_of self.old) piece.now).ended (Some (scan (held_of self.old) piece.now).used) None }
        ensures room { HasBytes self.new }
    {
        match line_end(piece) {
            Some(end) => {
                self.hold(&piece[..end]);
                Some(end + 1)
            }
            None => {
                self.hold(piece);
                None
            }
        }
    }
}

// One line of a piece, or what is there of it, and its answer if it ends there.
fn next(kept: &mut Lent<'_>, line: &mut Line<'_>, piece: &[u8], out: &mut [u8]) -> Fed
    requires { HasRoom kept.old × HasBytes line.old }
    ensures same { SameLists kept.old kept.new × SameLine line.old line.new }
    ensures session { session_of kept.new ≡ (step (session_of kept.old) (held_of line.old) piece.now).session }
    ensures line { held_of line.new ≡ (step (session_of kept.old) (held_of line.old) piece.now).line }
    ensures text { out.new ≡ sets out.old 0 (step (session_of kept.old) (held_of line.old) piece.now).text }
    ensures size { result.size ≡ length (step (session_of kept.old) (held_of line.old) piece.now).text }
    ensures at { result.at ≡ (scan (held_of line.old) piece.now).used }
    ensures room { HasRoom kept.new × HasBytes line.new }
    ensures small { result.size ≤ answer_most }
{
    let Some(at) = line.take_line(piece) else {
        return Fed {
            at: piece.len(),
            size: 0,
        };
    };
    let bytes = &mut line.bytes[..line.held];
    let size = frames::answer(kept, bytes, out);
    line.held = 0;
    Fed { at, size }
}

// Every line of a piece as far as the answers have room.
fn feed_lines(kept: &mut Lent<'_>, line: &mut Line<'_>, piece: &[u8], out: &mut [u8]) -> Fed
    requires { HasRoom kept.old × HasBytes line.old }
    ensures same { SameLists kept.old kept.new × SameLine line.old line.new }
    ensures at { result.at ≡ reach (length out.old) (session_of kept.old) (held_of line.old) piece.now }
    ensures session { session_of kept.new ≡ (feed_of (session_of kept.old) (held_of line.old) (take result.at piece.now)).reader.session }
    ensures line { held_of line.new ≡ (feed_of (session_of kept.old) (held_of line.old) (take result.at piece.now)).reader.line }
    ensures text { out.new ≡ sets out.old 0 (feed_of (session_of kept.old) (held_of line.old) (take result.at piece.now)).text }
    ensures size { result.size ≡ length (feed_of (session_of kept.old) (held_of line.old) (take result.at piece.now)).text }
    ensures room { HasRoom kept.new × HasBytes line.new }
    ensures within { (result.at ≤ length piece.now) × (result.size ≤ length out.old) }
{
    let mut at = 0;
    let mut size = 0;
    // It stays a `while`: how far a turn goes is for its line to say.
    while at < piece.len() && out.len() - size >= ANSWER_MOST {
        let fed = next(kept, line, &piece[at..], &mut out[size..]);
        at += fed.at;
        size += fed.size;
    }
    Fed { at, size }
}

// The answers to a piece of input, cut anywhere: the lines that end in it are answered, and what is left of the last one is kept. The
// answers stand in `out`. Where the longest answer might have no room no more of the piece is taken, and the caller goes on from there.
// Without room for a line, 64 tasks and the longest log nothing is taken.
pub fn feed(reader: &mut Reader<'_>, piece: &[u8], out: &mut [u8]) -> Fed
    ensures same { SameReader reader.old reader.new }
    ensures at { result.at ≡ taken (is_roomy reader.old) (length out.old) (session_at reader.old) (line_at reader.old) piece.now }
    ensures session { session_at reader.new ≡ (feed_of (session_at reader.old) (line_at reader.old) (take result.at piece.now)).reader.session }
    ensures line { line_at reader.new ≡ (feed_of (session_at reader.old) (line_at reader.old) (take result.at piece.now)).reader.line }
    ensures text { out.new ≡ sets out.old 0 (feed_of (session_at reader.old) (line_at reader.old) (take result.at piece.now)).text }
    ensures size { result.size ≡ length (feed_of (session_at reader.old) (line_at reader.old) (take result.at piece.now)).text }
    ensures roomy { is_roomy reader.new ≡ is_roomy reader.old }
    ensures within { (result.at ≤ length piece.now) × (result.size ≤ length out.old) }
{
    if !reader.is_roomy() {
        return Fed { at: 0, size: 0 };
    }
    // The lists are lent on once a piece, and not once a line.
    let set = reader.set;
    let mut line = Line {
        held: reader.held,
        bytes: reader.line,
    };
    let mut kept = Lent {
        set,
        requirements: reader.requirements,
        periods: reader.periods,
        counts: reader.counts,
        log: reader.log,
    };
    let fed = feed_lines(&mut kept, &mut line, piece, out);
    reader.set = kept.set;
    reader.held = line.held;
    fed
}

// The end of the input: the answer to a last line that lacks its line feed, if there is one. The result is how many bytes it takes. Of the
// list of the line at hand the bytes that are held are read, so that it is lent as a shared one.
pub fn finish(kept: &mut Lent<'_>, held: usize, line: &[u8], out: &mut [u8]) -> usize
    ensures same { SameLists kept.old kept.new }
    ensures session { session_of kept.new ≡ (ended_by (has_room_for kept.old held line.now) (session_of kept.old) (take held line.now)).session }
    ensures text { out.new ≡ sets out.old 0 (ended_by (has_room_for kept.old held line.now) (session_of kept.old) (take held line.now)).text }
    ensures size { result ≡ length (ended_by (has_room_for kept.old held line.now) (session_of kept.old) (take held line.now)).text }
    ensures small { result ≤ answer_most }
    ensures room { has_room kept.new ≡ has_room kept.old }
{
    if held == 0 || !has_room_for(kept, held, line) {
        return 0;
    }
    frames::answer(kept, &line[..held], out)
}
