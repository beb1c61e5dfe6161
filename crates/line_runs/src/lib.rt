// A run over an input of lines, read chunk by chunk, whatever answers the lines: the loop of the programs `card`,
// `readable` and `explain`. It ends on every input, whatever its bytes.
//
// What the read and each write gave is carried along, and the contracts say by these values how the run goes on. Only
// the methods of `Answers` write: each hands the first bytes of a buffer to write, and its contract says what they are.
// The counts hold after a write that failed too, so they stand beside a flag and in no Result.
#![tactic(auto)]

ghost use Rattle.std.specs.Prelude.{◌≡◌, ℕ, ◌+◌, ◌*◌, ◌<◌, ◌≤◌, List, Bool, length};
ghost use Rattle.tokens.specs.Tokens.{line_bytes};
ghost use Rattle.reads.specs.Reads.{most_read};
ghost use Rattle.input_lines.specs.Taking.{place_in};
ghost use Rattle.input_lines.proofs.Taking.{Laws};
ghost use Rattle.line_runs.specs.Runs.{no_line, Lends, Steps, TakesChunk, Turns, Ends, Tells, Closes, Runs};

use input_lines::State;
use reads::MOST_READ;

// Where a run stands in a chunk: the line that has begun, how many bytes of the chunk are taken, how many bytes were
// handed to write since the run began, how many of them with the last write, and whether that took them all.
#[derive(Clone, Copy)]
pub struct Step {
    pub state: State,
    pub taken: usize,
    pub handed: usize,
    pub written: usize,
    pub all: bool,
}

// Where a run stands between two reads: the line that has begun, what the last read gave, how many bytes were read and
// how many handed to write since the run began, whether every write took all that it was handed, and whether to read
// on.
#[derive(Clone, Copy)]
pub struct Turn {
    pub state: State,
    pub got: Option<usize>,
    pub read: usize,
    pub handed: usize,
    pub all: bool,
    pub more: bool,
}

// A write: how many bytes it was handed, and whether it took them all.
#[derive(Clone, Copy)]
pub struct Last {
    pub written: usize,
    pub all: bool,
}

// The end of a run: its last turn, whether every write took all that it was handed, how many bytes were handed to
// write, and how many bytes are to be told on standard error.
#[derive(Clone, Copy)]
pub struct End {
    pub turn: Turn,
    pub all: bool,
    pub handed: usize,
    pub told: usize,
}

// What answers lines, and writes the answers.
pub trait Answers {
    // by which text lines are answered over what stands before, and what they leave
    ghost answered: { Self → List (List ℕ) → List ℕ → Self → Type 0 };

    // what stays of it after so many bytes
    ghost stays: { Self → ℕ → Self → Type 0 };

    // the most bytes of text for a byte taken
    ghost most: { ℕ };

    // it may take bytes, after so many
    ghost ready: { Self → ℕ → Type 0 };

    // the buffer whose first bytes are handed to write
    ghost out: { Self → List ℕ };

    // what is told on standard error, by whether every line was answered
    ghost told: { Self → Bool → List ℕ };

    // how what answers lines, and what stays, go together
    ghost laws: { Laws answered stays };

    // what may take bytes may take more after some
    ghost still_ready: { (m n : Self) (i j : ℕ) → ready m i → stays m j n → ready n (i + j) };

    // what is told stays the same while bytes are taken
    ghost told_stays: { (m n : Self) (i : ℕ) → stays m i n → told n ≡ told m };

    // what is handed for all bytes read can be counted in 64 bits
    ghost few: { most ≤ 1050 };

    // Takes the bytes of a chunk from where the run stands on, and writes what answers the lines that end in them.
    fn take_next(&mut self, rt: HostRuntime, buffer: &mut [u8], s: Step, chunk: &[u8]) -> Step
        requires { Lends buffer.old s.state chunk.now × (s.handed ≤ most * (most_read + s.taken))
            × (s.taken < length chunk.now) × ready self.old (most_read + s.taken) }
        ensures { Steps answered stays most (place_in buffer.old s.state self.old)
            (place_in buffer.new result.state self.new) s result chunk.now (out self.new) };

    // Answers a last line without a newline, where there is one.
    fn take_last(&mut self, rt: HostRuntime, buffer: &[u8], s: State) -> Last
        requires { (line_bytes ≤ length buffer.now) × (s.kept ≤ line_bytes) × ready self.old (most_read + 65536) }
        ensures { Ends answered told most (place_in buffer.now s self.old) self.new (out self.new) result };

    // Puts what is told at the start of its buffer, and returns how many bytes that has.
    fn tell(&mut self, all: bool) -> usize
        ensures { Tells answered self.old self.new (told self.old all) (out self.new) result };
}

// Takes the bytes of a chunk, until all are taken or a write did not take all that it was handed.
fn take_chunk<T: Answers>(
    taker: &mut T,
    rt: HostRuntime,
    buffer: &mut [u8],
    s: State,
    chunk: &[u8],
    handed: usize,
) -> Step
    requires { Lends buffer.old s chunk.now × (handed ≤ T.most * most_read) × T.ready taker.old most_read }
    ensures { TakesChunk T.answered T.stays T.most (place_in buffer.old s taker.old)
        (place_in buffer.new result.state taker.new) chunk.now handed result }
{
    let mut step = Step {
        state: s,
        taken: 0,
        handed,
        written: 0,
        all: true,
    };
    while step.all && step.taken < chunk.len() {
        step = taker.take_next(rt, buffer, step, chunk);
    }
    step
}

// Reads once, and takes the bytes that the read brought. A read that brings no byte ends the run.
fn take_turn<T: Answers>(
    taker: &mut T,
    rt: HostRuntime,
    buffer: &mut [u8],
    t: Turn,
    chunk: &mut [u8],
) -> Turn
    requires { Lends buffer.old t.state chunk.old × (t.handed ≤ T.most * most_read) × (t.read < most_read)
        × T.ready taker.old most_read }
    ensures { Turns T.answered T.stays T.most (place_in buffer.old t.state taker.old)
        (place_in buffer.new result.state taker.new) t result chunk.new }
{
    let got = reads::read(&mut rt.stdin(), chunk);
    let n = got.unwrap_or(0);
    let state = t.state;
    if n == 0 {
        return Turn {
            state,
            got,
            read: t.read,
            handed: t.handed,
            all: true,
            more: false,
        };
    }
    let step = take_chunk(taker, rt, buffer, state, &chunk[..n], t.handed);
    let next = step.state;
    Turn {
        state: next,
        got,
        read: t.read + n,
        handed: step.handed,
        all: step.all,
        more: step.all,
    }
}

// Ends a run: at the end of the input, a line without a newline is a line too.
fn end_run<T: Answers>(taker: &mut T, rt: HostRuntime, buffer: &[u8], t: Turn) -> End
    requires { (line_bytes ≤ length buffer.now) × (t.state.kept ≤ line_bytes)
        × (t.handed ≤ T.most * (most_read + 65536)) × T.ready taker.old (most_read + 65536) }
    ensures { Closes T.answered T.told (place_in buffer.now t.state taker.old) taker.new t (T.out taker.new) result }
{
    if reads::is_end(t.got) {
        let state = t.state;
        let last = taker.take_last(rt, buffer, state);
        let told = taker.tell(last.all);
        return End {
            turn: t,
            all: last.all,
            handed: t.handed + last.written,
            told,
        };
    }
    let told = taker.tell(false);
    End {
        turn: t,
        all: t.all,
        handed: t.handed,
        told,
    }
}

// Runs over the whole input. Before the first read the turn stands as if a read had failed.
pub fn run<T: Answers>(taker: &mut T, rt: HostRuntime, buffer: &mut [u8], chunk: &mut [u8]) -> End
    requires { Lends buffer.old no_line chunk.old × T.ready taker.old 0 }
    ensures { Runs T.answered T.told taker.old taker.new (T.out taker.new) result }
{
    let state = input_lines::no_line();
    let mut turn = Turn {
        state,
        got: None,
        read: 0,
        handed: 0,
        all: true,
        more: true,
    };
    while turn.more && turn.read < MOST_READ {
        turn = take_turn(taker, rt, buffer, turn, chunk);
    }
    end_run(taker, rt, buffer, turn)
}
