// Frames on standard input, answers on standard output. The proved library decides what is written; here is only input and output.
#![tactic(auto)]

ghost use Rattle.std.specs.Prelude.{true, ◌≡◌, ◌<◌, ◌≤◌, length, IfOk};
ghost use Rattle.frames.specs.Keeping.{answer_most};
ghost use Rattle.stream.specs.Pieces.{is_roomy};

use frames::Lent;
use std::io;
use std::io::{Read, Write};
use stream::Reader;

// What is kept from read to read, and the room for the answers to a call. The longest of each has room.
#[derive(Drop)]
struct Server<'a> {
    reader: Reader<'a>,
    out: &'a mut [u8],
    ghost roomy: { is_roomy reader ≡ true },
    ghost room_for_answer: { answer_most ≤ length out.now },
}

impl Server<'_> {
    // Lines from a piece's front on, as many as have room for their answers, and the answers written. The result is how many bytes of
    // the piece that was.
    fn serve_part<O: Write>(&mut self, piece: &[u8], output: &mut O) -> io::Result<usize>
        requires { 0 < length piece.now }
        ensures onward { IfOk result (λ taken. (0 < taken) × (taken ≤ length piece.now)) }
    {
        let fed = stream::feed(&mut self.reader, piece, self.out);
        output.write_all(&self.out[..fed.size])?;
        Ok(fed.at)
    }

    // Every line of a piece is answered, and the answers written, before any more input is asked for.
    fn serve<O: Write>(&mut self, piece: &[u8], output: &mut O) -> io::Result<()> {
        let mut rest = piece;
        while !rest.is_empty() {
            let taken = self.serve_part(rest, output)?;
            rest = &rest[taken..];
        }
        Ok(())
    }

    // One read, and what it brought answered. It brings nothing at the input's end.
    fn one_read<I: Read, O: Write>(
        &mut self,
        piece: &mut [u8],
        input: &mut I,
        output: &mut O,
    ) -> io::Result<usize> {
        let n = input.read(piece)?;
        self.serve(&piece[..n], output)?;
        Ok(n)
    }

    // The input's end: the last line is answered too, if it lacks its line feed.
    #[tactic(auto, unfolding(stream::specs::Pieces::has_room_for, frames::specs::Keeping::has_room))]
    fn finish<O: Write>(&mut self, output: &mut O) -> io::Result<()> {
        // What is read besides the lists is read before they are lent on.
        let reader = &mut self.reader;
        let set = reader.set;
        let held = reader.held;
        let line = &mut *reader.line;
        let mut kept = Lent {
            set,
            requirements: reader.requirements,
            periods: reader.periods,
            counts: reader.counts,
            log: reader.log,
        };
        let size = stream::finish(&mut kept, held, line, self.out);
        reader.set = kept.set;
        output.write_all(&self.out[..size])
    }

    // The whole input. A read or a write that fails ends it. A proved loop has to end, so it counts up to a number that no run reaches.
    fn run<I: Read, O: Write>(
        &mut self,
        piece: &mut [u8],
        input: &mut I,
        output: &mut O,
    ) -> io::Result<()> {
        for _ in 0..u64::MAX {
            if self.one_read(piece, input, output)? == 0 {
                return self.finish(output);
            }
        }
        Ok(())
    }
}

// Room for answers: the longest one, and as much again or nearly, so that short ones are written many at a time.
fn answers() -> [u8; 262144]
    ensures { 262144 ≡ length result }
{
    [0; 262144]
}

fn main(rt: HostRuntime) {
    let mut requirements = [0u32; 64];
    let mut periods = [0u32; 64];
    let mut counts = [0u32; 64];
    let mut log = [0u8; 65536];
    let mut line = [0u8; 519];
    let mut piece = [0u8; 65536];
    let mut out = answers();
    let reader = Reader {
        set: None,
        requirements: &mut requirements,
        periods: &mut periods,
        counts: &mut counts,
        log: &mut log,
        line: &mut line,
        held: 0,
    };
    let mut server = Server {
        reader,
        out: &mut out,
    };
    // Neither stream keeps a buffer: what is written has left the program, and no read takes more than it is asked for. A read or a
    // write that fails ends the program quietly.
    let _ = server.run(&mut piece, &mut rt.stdin(), &mut rt.stdout());
}
