// Lines shown one after another, each as one text with its number, for the programs `readable` and `explain`.
// It ends on every input, whatever its bytes.
//
// The run over the input is that of `line_runs`. It stops at the first write that does not take a whole text. After a
// read that fails it shows no part of a line. In both cases it says so on standard error. What the read and each write
// gave is carried along, and the contracts say by these values how it goes on. `show_line` alone writes texts: it hands
// to write the first bytes of `out`, of which its contract says what they are.
#![tactic(auto)]

ghost use Rattle.std.specs.Prelude.{◌≡◌, ◌+◌, ◌*◌, ◌<◌, ◌≤◌, length};
ghost use Rattle.texts.specs.Appended.{Appended};
ghost use Rattle.tokens.specs.Tokens.{line_bytes};
ghost use Rattle.blocks.specs.Cards.{numbered_bytes};
ghost use Rattle.reads.specs.Reads.{most_read};
ghost use Rattle.input_lines.specs.Taking.{place_in};
ghost use Rattle.line_runs.specs.Runs.{no_line, Lends};
ghost use Rattle.shown_lines.specs.Program.{kept_by, told, ShowsLine, ShownOver, StaysOver, Steps, ShowsLast, Runs};
ghost use Rattle.shown_lines.specs.Laws.{laws, still_ready, told_stays, few};

use input_lines::State;
use line_runs::{Answers, End, Last, Step};

// What is shown of a line: the block of an answer of the card program, or the explanation of a line to it.
#[derive(Clone, Copy)]
pub enum Maker {
    Blocks,
    Explanations,
}

// What shows lines: what is made of each, how many ended since the program began, and the buffer in which a text is put
// to be written.
#[derive(Drop)]
struct Showing {
    maker: Maker,
    ended: u64,
    out: [u8; 1050],
}

// Puts what is made of a line at the start of `out`, and returns how many bytes it has. `line` is what is kept of the
// line, and `over` says whether it has more.
fn put_made(out: &mut [u8], number: u64, line: &[u8], over: bool, maker: Maker) -> usize
    requires { length out.old ≡ numbered_bytes }
    ensures { Appended out.old 0 (kept_by maker number line.now over) out.new result }
{
    match maker {
        Maker::Blocks => blocks::put_numbered(out, number, line),
        Maker::Explanations => explanations::put_numbered(out, number, line, over),
    }
}

// Writes what is made of the line that is kept, which is at its end and has this number. A line of which only a part is
// kept is no answer, as that part is too long for one.
fn show_line(
    rt: HostRuntime,
    buffer: &[u8],
    s: State,
    number: u64,
    out: &mut [u8],
    maker: Maker,
) -> Last
    requires { (s.kept ≤ length buffer.now) × (length out.old ≡ numbered_bytes) }
    ensures { ShowsLine maker buffer.now s number out.new result }
{
    let kept = s.kept;
    let written = put_made(out, number, &buffer[..kept], s.over, maker);
    let all = rt.stdout().write_all(&out[..written]).is_ok();
    Last { written, all }
}

// Takes the bytes of a chunk from where the program stands on, up to the next newline or the chunk's end. At a newline
// it writes what is made of the line.
fn show_next(
    showing: &mut Showing,
    rt: HostRuntime,
    buffer: &mut [u8],
    s: Step,
    chunk: &[u8],
) -> Step
    requires { Lends buffer.old s.state chunk.now × (s.handed ≤ numbered_bytes * (most_read + s.taken))
        × (s.taken < length chunk.now) × (showing.old.ended ≤ most_read + s.taken) }
    ensures steps { Steps (place_in buffer.old s.state showing.old) (place_in buffer.new result.state showing.new) s
        result chunk.now showing.new.out }
    ensures lines { showing.new.ended ≤ showing.old.ended + 1 }
{
    let at = s.taken;
    let begun = s.state;
    let line = input_lines::keep_line(buffer, begun, &chunk[at..]);
    let state = line.state;
    let end = at + line.taken;
    if end == chunk.len() {
        return Step {
            state,
            taken: end,
            handed: s.handed,
            written: 0,
            all: true,
        };
    }
    let number = showing.ended + 1;
    let maker = showing.maker;
    let last = show_line(rt, buffer, state, number, &mut showing.out, maker);
    showing.ended = number;
    let next = input_lines::no_line();
    Step {
        state: next,
        taken: end + 1,
        handed: s.handed + last.written,
        written: last.written,
        all: last.all,
    }
}

// Writes what is made of a last line without a newline, where there is one.
fn show_last(showing: &mut Showing, rt: HostRuntime, buffer: &[u8], s: State) -> Last
    requires { (s.kept ≤ length buffer.now) × (showing.old.ended ≤ most_read + 65536) }
    ensures { ShowsLast (place_in buffer.now s showing.old) showing.new showing.new.out result }
{
    let kept = s.kept;
    if kept == 0 {
        return Last {
            written: 0,
            all: true,
        };
    }
    let number = showing.ended + 1;
    let maker = showing.maker;
    let last = show_line(rt, buffer, s, number, &mut showing.out, maker);
    showing.ended = number;
    last
}

// Puts what is told on standard error at the start of `out`, and returns how many bytes it has; nothing is told where
// every line was shown.
fn tell(out: &mut [u8], shown: bool, maker: Maker) -> usize
    requires { length out.old ≡ numbered_bytes }
    ensures { Appended out.old 0 (told maker shown) out.new result }
{
    if shown {
        return 0;
    }
    match maker {
        Maker::Blocks => texts::put_bytes(
            out,
            0,
            b"readable: a read or a write failed; the answers without a block were not shown\n",
        ),
        Maker::Explanations => texts::put_bytes(
            out,
            0,
            b"explain: a read or a write failed; the lines without an explanation were not explained\n",
        ),
    }
}

impl Answers for Showing {
    ghost answered = { ShownOver };

    ghost stays = { StaysOver };

    ghost most = { numbered_bytes };

    ghost ready = { λ m i. m.ended ≤ i };

    ghost out = { λ m. m.out };

    ghost told = { λ m. told m.maker };

    ghost laws = { laws };

    ghost still_ready = { still_ready };

    ghost told_stays = { told_stays };

    ghost few = { few };

    fn take_next(&mut self, rt: HostRuntime, buffer: &mut [u8], s: Step, chunk: &[u8]) -> Step {
        show_next(self, rt, buffer, s, chunk)
    }

    fn take_last(&mut self, rt: HostRuntime, buffer: &[u8], s: State) -> Last {
        show_last(self, rt, buffer, s)
    }

    fn tell(&mut self, all: bool) -> usize {
        let maker = self.maker;
        tell(&mut self.out, all, maker)
    }
}

// Shows all of the input. Before the first read it stands as if one had failed.
fn run(showing: &mut Showing, rt: HostRuntime, buffer: &mut [u8], chunk: &mut [u8]) -> End
    requires { Lends buffer.old no_line chunk.old × (showing.old.ended ≡ 0) }
    ensures { Runs showing.old.maker showing.new.out result }
{
    line_runs::run(showing, rt, buffer, chunk)
}

// Runs the whole program, where it was given no arguments.
pub fn show_input(rt: HostRuntime, maker: Maker) {
    let mut buffer = io::buffer();
    let mut chunk = io::large_buffer();
    let mut showing = Showing {
        maker,
        ended: 0,
        out: [0; 1050],
    };
    let end = run(&mut showing, rt, &mut buffer, &mut chunk);
    let out: &[u8] = &showing.out;
    let _ = rt.stderr().write_all(&out[..end.told]);
}
