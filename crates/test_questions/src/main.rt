// Replays answers that the oracle wrote (oracle/README.md): a line has a question, `=` and the answer that the code
// must give. Prints how many lines agree, differ, or are none; results compare equal by ==, and a NaN matches a NaN.
#![tactic(auto)]

mod body_lines;
mod lines;
mod number_lines;
mod planform_lines;
mod reading;
mod section_lines;

ghost use Rattle.std.specs.Prelude.{◌≤◌, length};
ghost use Rattle.test_questions.specs.Parts.{line_figures};

use crate::lines::Outcome;
use crate::reading::{Cursor, LINE_FIGURES};
use std::io::Result;
use tokens::LINE_BYTES;

#[derive(Clone, Copy)]
struct Tally {
    agree: u64,
    differ: u64,
    none: u64,
}

// The lines counted so far, and how many bytes of the line that has begun are kept.
#[derive(Clone, Copy)]
struct Progress {
    tally: Tally,
    kept: usize,
}

// Tells whether the code gives the answers of a line that was read by the template in this place, from 0 on.
fn agrees(place: usize, c: Cursor, values: &[f64]) -> bool
    requires { (c.asked ≤ c.figures) × (c.figures ≤ line_figures) × (line_figures ≤ length values.now) }
{
    let asked = c.asked;
    let all = c.figures;
    let word = c.chosen;
    let answers = &values[asked..all];
    let end = planform_lines::height_place(asked);
    let h = values[end];
    match place {
        0 => number_lines::root_agrees(values, answers),
        1 => number_lines::sine_agrees(values, answers),
        2 => section_lines::moments_agree(word, values, answers),
        3 => section_lines::tab_agrees(values, answers),
        4 => section_lines::touch_agrees(word, values),
        5 => body_lines::matrix_agrees(word, values, answers),
        6 => body_lines::turn_agrees(word, values, answers),
        7 => body_lines::about_agrees(values, answers),
        8 => body_lines::check_agrees(values, 0, 0),
        9 => body_lines::check_agrees(values, 15, 0),
        10 => body_lines::check_agrees(values, 16, 0),
        11 => body_lines::check_agrees(values, 17, word),
        12 => body_lines::moments_agree(values, answers),
        13 => body_lines::no_moments(values, 17, word),
        14 => planform_lines::chords_agree(word, &values[0..end], h, answers),
        15 => planform_lines::breaks_agree(word, &values[0..asked], answers),
        16 => planform_lines::area_agrees(word, &values[0..end], h, answers),
        _ => planform_lines::plate_agrees(c.earlier, word, values, end, h, answers),
    }
}

// Replays a line by the templates, one to a row, which are tried in turn: a line fits one at most.
fn replay_by(line: &[u8], templates: &[u8], values: &mut [f64]) -> Outcome
    requires { line_figures ≤ length values.old }
{
    for (place, template) in templates.split(|b| *b == b'\n').enumerate() {
        let c = reading::read(line, template, values);
        if c.ok {
            return lines::agrees_or_not(agrees(place, c, values));
        }
    }
    Outcome::NoLine
}

// Replays a line. The rows are how the lists' lines are written; `agrees` goes by their places.
fn replay_line(line: &[u8], values: &mut [f64]) -> Outcome
    requires { line_figures ≤ length values.old }
{
    if LINE_BYTES < line.len() {
        return Outcome::NoLine;
    }
    let templates = b"root F = F\n\
        sine F = F F\n\
        section square|rounded|airfoil|airfoil-open F F F = F F F F\n\
        tab F F F F F = F F F F F F F\n\
        touch F F F F F F F F = yes|no\n\
        matrix x|z F = F F F F F F F F F\n\
        turn x|z F F F F F F F F F F F = F F F F F F F F F F\n\
        about F F F F F F F F F F F F F = F F F F F F\n\
        check F F F F F F F F F F = sound\n\
        check F F F F F F F F F F = refused 15\n\
        check F F F F F F F F F F = refused 16\n\
        check F F F F F F F F F F = refused 17 a|b|c|d|e\n\
        moments F F F F F F = F F F\n\
        moments F F F F F F = refused 17 a|b|c|d|e\n\
        chords trapezoid|ellipse|outline F.. at F = F..\n\
        breaks trapezoid|ellipse|outline F.. = F..\n\
        area trapezoid|ellipse|outline F.. at F = F F F\n\
        plate square|rounded|airfoil|airfoil-open F F trapezoid|ellipse|outline F.. at F = F F F F F F F";
    replay_by(line, templates, values)
}

fn counted(t: Tally, o: Outcome) -> Tally {
    match o {
        Outcome::Agrees => Tally {
            agree: std::num::wrapping_add_u64(t.agree, 1),
            differ: t.differ,
            none: t.none,
        },
        Outcome::Differs => Tally {
            agree: t.agree,
            differ: std::num::wrapping_add_u64(t.differ, 1),
            none: t.none,
        },
        Outcome::NoLine => Tally {
            agree: t.agree,
            differ: t.differ,
            none: std::num::wrapping_add_u64(t.none, 1),
        },
    }
}

// Counts the line that is kept, which is at its end.
fn end_line(line: &[u8], p: Progress, values: &mut [f64]) -> Progress
    requires { (p.kept ≤ length line.now) × (line_figures ≤ length values.old) }
    ensures { result.kept ≤ 0 }
{
    let kept = p.kept;
    let tally = p.tally;
    let outcome = replay_line(&line[0..kept], values);
    Progress {
        tally: counted(tally, outcome),
        kept: 0,
    }
}

// Takes one byte of the lists. Of a line that the buffer cannot hold, the rest is dropped: it is no line already.
fn take_byte(line: &mut [u8], p: Progress, b: u8, values: &mut [f64]) -> Progress
    requires { (p.kept ≤ length line.old) × (line_figures ≤ length values.old) }
    ensures { result.kept ≤ length line.old }
{
    let kept = p.kept;
    let tally = p.tally;
    if b == 10 {
        return end_line(line, p, values);
    }
    if kept < line.len() {
        line[kept] = b;
        return Progress {
            tally,
            kept: kept + 1,
        };
    }
    p
}

// Ends the input: a line without a newline is a line too.
fn finish(line: &[u8], p: Progress, values: &mut [f64]) -> Tally
    requires { (p.kept ≤ length line.now) × (line_figures ≤ length values.old) }
{
    let tally = p.tally;
    if p.kept == 0 {
        return tally;
    }
    let end = end_line(line, p, values);
    end.tally
}

fn take_block(line: &mut [u8], p: Progress, block: &[u8], values: &mut [f64]) -> Progress
    requires { (p.kept ≤ length line.old) × (line_figures ≤ length values.old) }
    ensures { result.kept ≤ length line.old }
{
    let mut progress = p;
    for b in block {
        progress = take_byte(line, progress, *b, values);
    }
    progress
}

// Replays all of the input. A proved loop has to end, so it has a number of turns that no input uses up.
fn replay_all(rt: HostRuntime, block: &mut [u8], line: &mut [u8], values: &mut [f64]) -> Tally
    requires { line_figures ≤ length values.old }
{
    let mut p = Progress {
        tally: Tally {
            agree: 0,
            differ: 0,
            none: 0,
        },
        kept: 0,
    };
    for _ in 0..u64::MAX {
        let n = reads::read_full(&mut rt.stdin(), block);
        p = take_block(line, p, &block[..n], values);
        if n < block.len() {
            break;
        }
    }
    finish(line, p, values)
}

fn print(rt: HostRuntime, n: u64, what: &str) -> Result<()> {
    println!(rt; "{n} lines {what}")
}

// Replays the lists and prints the counts. The line's buffer holds one byte more than a line may have.
fn main(rt: HostRuntime) -> Result<()> {
    let mut block = io::large_buffer();
    let mut line = [0; 4097];
    let mut values = [0.0; LINE_FIGURES];
    let t = replay_all(rt, &mut block, &mut line, &mut values);
    print(rt, t.agree, "agree")?;
    print(rt, t.differ, "differ")?;
    print(rt, t.none, "are none")
}
