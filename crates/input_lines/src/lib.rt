// The lines of an input that comes byte by byte (document 01, "The card program"): the line that has begun is kept in a
// lent buffer of 4,096 bytes; of a longer line it is only known that there were more.
#![tactic(auto)]

ghost use Rattle.std.specs.Prelude.{List, [], ℕ, ◌≤◌, length};
ghost use Rattle.tokens.specs.Tokens.{line_bytes};
ghost use Rattle.input_lines.specs.Kept.{Keeps, KeepsBytes, KeepsLine};

use memchr::memchr;
use tokens::LINE_BYTES;

// The line that has begun: how many of its bytes are kept, and whether there were more.
#[derive(Clone, Copy)]
pub struct State {
    pub kept: usize,
    pub over: bool,
}

// What keeping the bytes of a line gave: the state, and how many bytes were taken.
#[derive(Clone, Copy)]
pub struct KeptLine {
    pub state: State,
    pub taken: usize,
}

// Returns the state before the first byte.
pub fn no_line() -> State
    ensures { (buffer : List ℕ) → Keeps buffer result [] }
{
    State {
        kept: 0,
        over: false,
    }
}

// Keeps more bytes of the line that has begun, as far as there is room.
fn keep(buffer: &mut [u8], s: State, line: &[u8]) -> State
    requires { (line_bytes ≤ length buffer.old) × (s.kept ≤ line_bytes) }
    ensures { KeepsBytes buffer.old buffer.new s result line.now }
{
    let kept = s.kept;
    let room = LINE_BYTES - kept;
    let n = line.len().min(room);
    let more = kept + n;
    buffer[kept..more].copy_from_slice(&line[..n]);
    State {
        kept: more,
        over: s.over | (room < line.len()),
    }
}

// Keeps the bytes of the line that has begun, up to the next newline or the end of these bytes.
pub fn keep_line(buffer: &mut [u8], s: State, bytes: &[u8]) -> KeptLine
    requires { (line_bytes ≤ length buffer.old) × (s.kept ≤ line_bytes) }
    ensures { KeepsLine buffer.old buffer.new s bytes.now result }
{
    let taken = memchr(b'\n', bytes).unwrap_or(bytes.len());
    let state = keep(buffer, s, &bytes[..taken]);
    KeptLine { state, taken }
}
