// Reading an input to its end: how many bytes a read brought, or none where it failed.
#![tactic(auto)]

ghost use Rattle.std.specs.Prelude.{◌≡◌, length, take};
ghost use Rattle.std.specs.Io.KnownBytes.{Consumes};
ghost use Rattle.io.specs.Counts.{IsPrefixLen};
ghost use Rattle.reads.specs.Reads.{at_end, Answers, Consumed};

use std::io::Read;

// The most bytes that are read. A proved loop has to end; no run comes to so many bytes.
pub const MOST_READ: usize = 9007199254740992;

// Tells whether a read met the end of the input.
pub fn is_end(got: Option<usize>) -> bool
    ensures { result ≡ at_end got }
{
    got == Some(0)
}

// Reads once into the chunk, and returns how many bytes that brought, 0 at the end of the input, or none where it
// failed.
pub fn read<R: Read>(from: &mut R, chunk: &mut [u8]) -> Option<usize>
    ensures answers { Answers (length chunk.new) result }
    ensures bytes { Consumed (R.remaining from.old) (R.remaining from.new) result chunk.new }
{
    from.read(chunk).ok()
}

// Reads until the chunk is full, the input ends or a read fails, and returns how many bytes it put at the chunk's
// start.
pub fn read_full<R: Read>(from: &mut R, chunk: &mut [u8]) -> usize
    ensures room { IsPrefixLen result chunk.new }
    ensures bytes { Consumes (R.remaining from.old) (R.remaining from.new) (take result chunk.new) }
{
    let mut done = 0;
    while done < chunk.len() {
        match from.read(&mut chunk[done..]) {
            Ok(0) | Err(_) => return done,
            Ok(n) => done += n,
        }
    }
    done
}
