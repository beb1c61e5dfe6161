// The card program: it reads lines from standard input and prints a reply to each (document 01, "The card program").
//
// It only reads, feeds and writes, in a run of `line_runs`: the crate `inputs` says what is replied. It keeps one
// scratch and one engine from its first line to its last. The replies to what was read are written before it reads on.
// A read that fails, or a reply that nobody takes, ends it without a reply to the line that had begun, and with a line
// on standard error.
//
// What the read and each write gave is carried along, and the contracts say by these values how the run goes on. Only
// `reply_next` and `reply_last` write replies: each hands the first bytes of `out` to write, and its contract says what
// these bytes are.
#![tactic(auto)]

ghost use Rattle.std.specs.Prelude.{◌≡◌, ◌+◌, ◌<◌, ◌≤◌, length};
ghost use Rattle.texts.specs.Appended.{Appended};
ghost use Rattle.tokens.specs.Tokens.{line_bytes};
ghost use Rattle.input_lines.specs.Taking.{place_in};
ghost use Rattle.inputs.specs.Inputs.{reply_bytes, ReplyFits};
ghost use Rattle.reads.specs.Reads.{most_read};
ghost use Rattle.line_runs.specs.Runs.{no_line, Lends};
ghost use Rattle.card.specs.Program.{at_first, told, memory_at, Counted, Ready, AnsweredOver, StaysOver};
ghost use Rattle.card.specs.Program.{Steps, Ends, Runs};
ghost use Rattle.card.specs.Laws.{laws, still_ready, told_stays, few};

use arguments::Command;
use input_lines::State;
use lent_engines::{ENGINE_COUNTS, ENGINE_NUMBERS};
use line_runs::{Answers, End, Last, Step};

// What replies to lines: a scratch and an engine, kept from the first line to the last, and the buffer in which replies
// are put to be written.
#[derive(Drop)]
struct Replying {
    scratch: [f64; limits::SCRATCH_NUMBERS],
    engine_numbers: [f64; ENGINE_NUMBERS],
    engine_counts: [usize; ENGINE_COUNTS],
    out: [u8; 65536],
}

// Feeds the bytes of a chunk from where the program stands on, up to the chunk's end or to where `out` is full, and
// writes the replies.
fn reply_next(
    replying: &mut Replying,
    rt: HostRuntime,
    buffer: &mut [u8],
    s: Step,
    chunk: &[u8],
) -> Step
    requires { Lends buffer.old s.state chunk.now × Counted (most_read + s.taken) s.handed
        × (s.taken < length chunk.now) × Ready replying.old }
    ensures { Steps (place_in buffer.old s.state replying.old) (place_in buffer.new result.state replying.new) s result
        chunk.now replying.new.out }
{
    let at = s.taken;
    let begun = s.state;
    let fed = inputs::feed(
        buffer,
        begun,
        &chunk[at..],
        &mut replying.scratch,
        &mut replying.engine_numbers,
        &mut replying.engine_counts,
        &mut replying.out,
        0,
    );
    let state = fed.state;
    let written = fed.written;
    let all = rt.stdout().write_all(&replying.out[..written]).is_ok();
    Step {
        state,
        taken: at + fed.taken,
        handed: s.handed + written,
        written,
        all,
    }
}

// Writes the reply to a last line without a newline, where there is one.
fn reply_last(replying: &mut Replying, rt: HostRuntime, buffer: &[u8], s: State) -> Last
    requires { (line_bytes ≤ length buffer.now) × (s.kept ≤ line_bytes) × Ready replying.old }
    ensures { Ends (place_in buffer.now s replying.old) replying.new replying.new.out result }
{
    let written = inputs::finish(
        buffer,
        s,
        &mut replying.scratch,
        &mut replying.engine_numbers,
        &mut replying.engine_counts,
        &mut replying.out,
        0,
    );
    let all = rt.stdout().write_all(&replying.out[..written]).is_ok();
    Last { written, all }
}

// Puts what is to be told on standard error at the start of out, and returns how many bytes it has: none where every
// line was answered.
fn tell(out: &mut [u8], answered: bool) -> usize
    requires { ReplyFits out.old 0 }
    ensures { Appended out.old 0 (told answered) out.new result }
{
    if answered {
        return 0;
    }
    texts::put_bytes(
        out,
        0,
        b"card: a read or a write failed; send the lines without an answer again, \
        and submit again the jobs that had not ended\n",
    )
}

impl Answers for Replying {
    ghost answered = { AnsweredOver };

    ghost stays = { StaysOver };

    ghost most = { reply_bytes };

    ghost ready = { λ m i. Ready m };

    ghost out = { λ m. m.out };

    ghost told = { λ m. told };

    ghost laws = { laws };

    ghost still_ready = { still_ready };

    ghost told_stays = { told_stays };

    ghost few = { few };

    fn take_next(&mut self, rt: HostRuntime, buffer: &mut [u8], s: Step, chunk: &[u8]) -> Step {
        reply_next(self, rt, buffer, s, chunk)
    }

    fn take_last(&mut self, rt: HostRuntime, buffer: &[u8], s: State) -> Last {
        reply_last(self, rt, buffer, s)
    }

    fn tell(&mut self, all: bool) -> usize {
        tell(&mut self.out, all)
    }
}

// Answers the whole input. Before the first read the turn stands as if a read had failed.
fn run(replying: &mut Replying, rt: HostRuntime, buffer: &mut [u8], chunk: &mut [u8]) -> End
    requires { Lends buffer.old no_line chunk.old × Ready replying.old × (memory_at replying.old ≡ at_first) }
    ensures { Runs (memory_at replying.new) replying.new.out result }
{
    line_runs::run(replying, rt, buffer, chunk)
}

// Runs the program without arguments, and tells on standard error what there is to tell.
fn answer_input(rt: HostRuntime) {
    let mut buffer = io::buffer();
    let mut chunk = io::large_buffer();
    let mut replying = Replying {
        scratch: [0.0; limits::SCRATCH_NUMBERS],
        engine_numbers: [0.0; ENGINE_NUMBERS],
        engine_counts: [0; ENGINE_COUNTS],
        out: io::large_buffer(),
    };
    let end = run(&mut replying, rt, &mut buffer, &mut chunk);
    let out: &[u8] = &replying.out;
    let _ = rt.stderr().write_all(&out[..end.told]);
}

fn write_help(rt: HostRuntime) {
    arguments::write_text(
        rt,
        b"card",
        b"usage: card < LINES\n\
        Answers each line of standard input on standard output: figures, or (refused N).\n\
        --help prints this, --version the version; see card(1) and FORMS.md.\n",
    );
}

fn main(rt: HostRuntime) {
    match arguments::read(rt) {
        Command::Run => answer_input(rt),
        Command::Help => write_help(rt),
        Command::Version => arguments::write_text(rt, b"card", b"card 0.1.0\n"),
        Command::Unknown => {
            let _ = rt
                .stderr()
                .write_all(b"card: unknown argument; see card --help\n");
        }
    }
}
