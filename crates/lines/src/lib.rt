// One line's answer: its form is read, the call made, and the answer printed (docs/FORMS.md; document 01, "The card
// program").
//
// The engine of eight screens is lent as two lists. Where these are too short, or the buffer has no room for the bytes
// that an answer may have, no call is made.
#![tactic(auto)]

ghost use Rattle.std.specs.Prelude.{◌&&◌, [], ◌∷◌, ◌≡◌, ◌+◌, ◌≤◌, leb, length, take};
ghost use Rattle.refusals.specs.Calls.{Does};
ghost use Rattle.texts.specs.Appended.{Appended};
ghost use Rattle.tokens.specs.Tokens.{line_bytes};
ghost use Rattle.answers.specs.declared.Shape.TheVariants.{Taken};
ghost use Rattle.answers.specs.Answers.{answer_bytes, AnswerFits, text_of, reply};
ghost use Rattle.drill.specs.Drill.{drill_of};
ghost use Rattle.figures.specs.Figures.{set_call};
ghost use Rattle.figures.specs.Areas.{area_call};
ghost use Rattle.lent_engines.specs.Memory.{engine_numbers_length, engine_counts_length};
ghost use Rattle.lent_engines.specs.Lent.{Room};
ghost use Rattle.lines.specs.Lines.{refused_reply, unless_refused, plain_reply, set_reply, area_reply, body_reply};
ghost use Rattle.lines.specs.Lines.{closing_reply, moments_reply, place_reply, drill_reply, done_reply, progress_reply, replied_by};
ghost use Rattle.lines.specs.Lines.{turn_effect, effect_of, line_effect};
ghost use Rattle.lines.specs.Lines.{memory_in, lent_in, Serves, LeavesLent, Answers};

use answers::{ANSWER_BYTES, Reply, Shape};
use bodies::{BODY_NUMBERS, Body};
use drill::Place;
use engines::Turn;
use figures::Figures;
use fins::FinSet;
use jobs::JobProgress;
use lent_engines::{ENGINE_COUNTS, ENGINE_NUMBERS};
use planforms::Planform;
use reading::Asked;
use refusals::{Refusal, Verdict};
use templates::LINE_FIGURES;

// Lengths of lines, in bytes. A line has no more figures than bytes, so a shorter line needs a smaller array for them,
// which is cleared in less time: lines other than sets' mostly fit the first, most sets the second, and sets with a
// dozen points the third.
const SHORT_LINE: usize = 128;

const SET_LINE: usize = 512;

const MIDDLE_LINE: usize = 1024;

// Returns the answer to a refused line: the refusal's number, and the values that go with it, which are not printed.
pub fn refused_reply(refusal: Refusal) -> Reply
    ensures { result ≡ refused_reply refusal }
{
    let shape = Shape::Refused;
    let number = refusals::number(refusal) as u64;
    let values = refusals::values(refusal);
    let figures = [0.0; 10];
    Reply {
        shape,
        figures,
        counts: [number, values[0] as u64, values[1] as u64, 0],
    }
}

// Returns an answer of this shape with these figures and counts, or the refusal where the verdict is one.
fn unless_refused(verdict: Verdict, shape: Shape, figures: [f64; 10], counts: [u64; 4]) -> Reply
    ensures { result ≡ unless_refused verdict (record { shape = shape; figures = figures; counts = counts }) }
{
    match verdict {
        Ok(()) => Reply {
            shape,
            figures,
            counts,
        },
        Err(refusal) => refused_reply(refusal),
    }
}

// Returns an answer of words alone, or the refusal where the verdict is one.
fn plain_reply(verdict: Verdict, shape: Shape) -> Reply
    ensures { result ≡ plain_reply verdict shape }
{
    let figures = [0.0; 10];
    unless_refused(verdict, shape, figures, [0; 4])
}

// Returns a set's figures, worked in the scratch, or its refusal. The first `points` values are the planform's.
fn set_reply(limit: usize, set: FinSet, points: usize, values: &[f64], scratch: &mut [f64]) -> Reply
    ensures { Does
        (replied_by set_reply (set_call set (take points values.now) limit (length scratch.old)))
        result scratch.old scratch.new }
{
    let outline = reading::first(values, points);
    let f = figures::mass_properties(set, outline, limit, scratch);
    let verdict = f.verdict;
    let body = f.body;
    let shape = Shape::Figures;
    let figures = body.numbers();
    unless_refused(
        verdict,
        shape,
        figures,
        [f.intervals as u64, f.samples as u64, 0, 0],
    )
}

// Returns a planform's area, worked in the scratch, or its refusal. The first `points` values are the planform's.
fn area_reply(
    limit: usize,
    planform: Planform,
    points: usize,
    values: &[f64],
    scratch: &mut [f64],
) -> Reply
    ensures { Does
        (replied_by area_reply
        (area_call planform (take points values.now) limit (length scratch.old)))
        result scratch.old scratch.new }
{
    let outline = reading::first(values, points);
    let a = figures::geometry(planform, outline, limit, scratch);
    let verdict = a.verdict;
    let shape = Shape::Area;
    let mut figures = [0.0; 10];
    figures[0] = a.area_m2;
    figures[1] = a.centroid_x_m;
    figures[2] = a.centroid_span_m;
    unless_refused(
        verdict,
        shape,
        figures,
        [a.intervals as u64, a.samples as u64, 0, 0],
    )
}

// Returns the answer with a body: of points joined, of a ring, or of copies and parts.
fn body_reply(shape: Shape, joined: Result<Body, Refusal>) -> Reply
    ensures { result ≡ body_reply shape joined }
{
    match joined {
        Ok(body) => Reply {
            shape,
            figures: body.numbers(),
            counts: [0; 4],
        },
        Err(refusal) => refused_reply(refusal),
    }
}

fn closing_reply(found: Result<f64, Refusal>) -> Reply
    ensures { result ≡ closing_reply found }
{
    match found {
        Ok(radius_m) => {
            let mut figures = [0.0; 10];
            figures[0] = radius_m;
            Reply {
                shape: Shape::Closing,
                figures,
                counts: [0; 4],
            }
        }
        Err(refusal) => refused_reply(refusal),
    }
}

fn moments_reply(found: Result<[f64; 3], Refusal>) -> Reply
    ensures { result ≡ moments_reply found }
{
    match found {
        Ok(moments_kg_m2) => {
            let mut figures = [0.0; 10];
            figures[0] = moments_kg_m2[0];
            figures[1] = moments_kg_m2[1];
            figures[2] = moments_kg_m2[2];
            Reply {
                shape: Shape::Moments,
                figures,
                counts: [0; 4],
            }
        }
        Err(refusal) => refused_reply(refusal),
    }
}

// Returns an answer of one count.
fn count_reply(shape: Shape, count: usize) -> Reply
    ensures { result ≡ reply shape [] (count ∷ []) }
{
    let figures = [0.0; 10];
    Reply {
        shape,
        figures,
        counts: [count as u64, 0, 0, 0],
    }
}

fn place_reply(place: Place) -> Reply
    ensures { result ≡ place_reply place }
{
    match place {
        Place::Inside(nearest) => count_reply(Shape::Inside, nearest),
        Place::Edge(nearest) => count_reply(Shape::Edge, nearest),
        Place::Outside(nearest) => count_reply(Shape::Outside, nearest),
    }
}

// Returns where a point lies beside a planform, with the position of the nearest corner, or the refusal.
fn drill_reply(planform: Planform, points: usize, x: f64, height: f64, values: &[f64]) -> Reply
    ensures { result ≡ drill_reply (drill_of planform (take points values.now) x height) }
{
    let outline = reading::first(values, points);
    match drill::drill(planform, outline, x, height) {
        Ok(place) => place_reply(place),
        Err(refusal) => refused_reply(refusal),
    }
}

// Returns the answer to a submission or a change of density: taken, or the refusal.
fn taken_reply(reply: jobs::Reply) -> Reply
    ensures { result ≡ plain_reply reply.verdict Taken }
{
    let verdict = reply.verdict;
    plain_reply(verdict, Shape::Taken)
}

// Returns the answer of a turn with which a screen's job has ended: the job's figures, or the number that refused it.
fn done_reply(screen: usize, f: Figures) -> Reply
    ensures { result ≡ done_reply screen f.verdict f }
{
    let verdict = f.verdict;
    let body = f.body;
    match verdict {
        Ok(()) => {
            let shape = Shape::Done;
            let figures = body.numbers();
            Reply {
                shape,
                figures,
                counts: [screen as u64, f.intervals as u64, f.samples as u64, 0],
            }
        }
        Err(refusal) => {
            let shape = Shape::DoneRefused;
            let figures = [0.0; 10];
            let number = refusals::number(refusal) as u64;
            Reply {
                shape,
                figures,
                counts: [screen as u64, number, 0, 0],
            }
        }
    }
}

// Works one turn of the engine and returns its answer.
fn turn_reply(scratch: &mut [f64], numbers: &mut [f64], counts: &mut [usize]) -> Reply
    requires { Room numbers.old counts.old }
    ensures { Serves (turn_effect (memory_in scratch.old numbers.old counts.old))
        (lent_in scratch.old numbers.old counts.old)
        (lent_in scratch.new numbers.new counts.new) result }
{
    let turn = lent_engines::turn(numbers, counts, scratch);
    let row = lent_engines::turn_row(numbers, counts, turn);
    let f = row.figures;
    match turn {
        Turn::Short => refused_reply(Refusal::Scratch),
        Turn::Idle => plain_reply(Ok(()), Shape::Idle),
        Turn::More(screen) => count_reply(Shape::More, screen),
        Turn::Ended(screen) => done_reply(screen, f),
    }
}

// Returns the answer to how far a screen's job is.
fn progress_reply(p: JobProgress) -> Reply
    ensures { result ≡ progress_reply p }
{
    let shape = Shape::Progress;
    let figures = [0.0; 10];
    Reply {
        shape,
        figures,
        counts: [
            p.worked as u64,
            p.strips as u64,
            p.intervals as u64,
            p.samples as u64,
        ],
    }
}

// Makes the call that a line asks for, with the line's figures, and returns its answer. Where the form has a body, the
// first ten figures are the body's.
fn request_reply(
    asked: Asked,
    values: &[f64],
    scratch: &mut [f64],
    numbers: &mut [f64],
    counts: &mut [usize],
) -> Reply
    requires { Room numbers.old counts.old }
    ensures { Serves
        (effect_of asked values.now
        (memory_in scratch.old numbers.old counts.old))
        (lent_in scratch.old numbers.old counts.old)
        (lent_in scratch.new numbers.new counts.new) result }
{
    let body = reading::first(values, BODY_NUMBERS);
    let rest = reading::behind(values, BODY_NUMBERS);
    match asked {
        Asked::Refused(refusal) => refused_reply(refusal),
        Asked::Set { limit, set, points } => set_reply(limit, set, points, values, scratch),
        Asked::Area {
            limit,
            planform,
            points,
        } => area_reply(limit, planform, points, values, scratch),
        Asked::Join => body_reply(Shape::Joined, requests::join_points(values)),
        Asked::Moments => moments_reply(requests::tensor_moments(values)),
        Asked::Check => plain_reply(requests::body_verdict(values), Shape::Sound),
        Asked::Tubes { set, body_radius_m } => body_reply(
            Shape::Ring,
            tubes::mass_properties(set, body_radius_m),
        ),
        Asked::Closing {
            count,
            body_radius_m,
        } => closing_reply(tubes::closing_radius_m(body_radius_m, count)),
        Asked::Drill {
            planform,
            points,
            x_m,
            height_m,
        } => drill_reply(planform, points, x_m, height_m, values),
        Asked::Copied => body_reply(Shape::Body, requests::copied_by(body, rest)),
        Asked::Placed => body_reply(Shape::Body, requests::placed_by(body, rest)),
        Asked::Moved => {
            let part = reading::first(rest, BODY_NUMBERS);
            let offset = reading::behind(rest, BODY_NUMBERS);
            body_reply(Shape::Body, requests::moved_by(body, part, offset))
        }
        Asked::Without => body_reply(Shape::Body, requests::without_by(body, rest)),
        Asked::Submit {
            screen,
            limit,
            set,
            points,
        } => {
            let outline = reading::first(values, points);
            let reply = lent_engines::submit(numbers, counts, screen, set, outline, limit);
            taken_reply(reply)
        }
        Asked::Density { screen, density } => {
            let reply = lent_engines::change_density(numbers, counts, screen, density);
            taken_reply(reply)
        }
        Asked::Turn => turn_reply(scratch, numbers, counts),
        Asked::Progress { screen } => {
            progress_reply(lent_engines::progress_at(numbers, counts, screen))
        }
    }
}

// Tells whether the longest answer fits after n bytes. It subtracts, so that no sum can wrap.
fn has_room(len: usize, n: usize) -> bool
    ensures { result ≡ leb (n + answer_bytes) len }
{
    ANSWER_BYTES <= len && n <= len - ANSWER_BYTES
}

// Tells whether the engine's two lists are long enough.
fn has_engine(numbers: usize, counts: usize) -> bool
    ensures { result ≡ leb engine_numbers_length numbers && leb engine_counts_length counts }
{
    (ENGINE_NUMBERS <= numbers) & (ENGINE_COUNTS <= counts)
}

// Returns the answer to a line, not yet printed. The line's figures are left at the start of `values`.
pub fn reply_line(
    line: &[u8],
    values: &mut [f64],
    scratch: &mut [f64],
    numbers: &mut [f64],
    counts: &mut [usize],
) -> Reply
    requires { Room numbers.old counts.old
        × (length line.now ≤ line_bytes → length line.now ≤ length values.old) }
    ensures { Serves
        (line_effect line.now
        (memory_in scratch.old numbers.old counts.old))
        (lent_in scratch.old numbers.old counts.old)
        (lent_in scratch.new numbers.new counts.new) result }
{
    let read = reading::read_line(line, values);
    let end = read.figures;
    let asked = read.asked;
    request_reply(asked, &values[..end], scratch, numbers, counts)
}

// Appends the answer to a line to the n bytes at the start of `out` and returns how many bytes there are then, with
// `values` as room for the line's figures.
fn answer_read(
    line: &[u8],
    values: &mut [f64],
    scratch: &mut [f64],
    numbers: &mut [f64],
    counts: &mut [usize],
    out: &mut [u8],
    n: usize,
) -> usize
    requires { AnswerFits out.old n × Room numbers.old counts.old
        × (length line.now ≤ line_bytes → length line.now ≤ length values.old) }
    ensures appended { Appended out.old n
        (text_of
        (line_effect line.now
        (memory_in scratch.old numbers.old
        counts.old)).reply)
        out.new result }
    ensures leaves_lent { LeavesLent
        (line_effect line.now
        (memory_in scratch.old numbers.old counts.old))
        (lent_in scratch.old numbers.old counts.old)
        (lent_in scratch.new numbers.new counts.new) }
{
    let reply = reply_line(line, values, scratch, numbers, counts);
    answers::put_reply(out, n, reply)
}

// Appends the answer to a line to the n bytes at the start of `out` and returns how many bytes there are then. Where an
// answer may not fit, or the engine's lists are too short, it does nothing and returns n.
pub fn answer_line(
    line: &[u8],
    scratch: &mut [f64],
    numbers: &mut [f64],
    counts: &mut [usize],
    out: &mut [u8],
    n: usize,
) -> usize
    ensures { Answers line.now
        (lent_in scratch.old numbers.old counts.old)
        (lent_in scratch.new numbers.new counts.new)
        out.old n out.new result }
{
    let room = has_room(out.len(), n);
    let engine = has_engine(numbers.len(), counts.len());
    if !(room & engine) {
        return n;
    }
    if line.len() <= SHORT_LINE {
        let mut values = [0.0; SHORT_LINE];
        return answer_read(line, &mut values, scratch, numbers, counts, out, n);
    }
    if line.len() <= SET_LINE {
        let mut values = [0.0; SET_LINE];
        return answer_read(line, &mut values, scratch, numbers, counts, out, n);
    }
    if line.len() <= MIDDLE_LINE {
        let mut values = [0.0; MIDDLE_LINE];
        return answer_read(line, &mut values, scratch, numbers, counts, out, n);
    }
    let mut values = [0.0; LINE_FIGURES];
    answer_read(line, &mut values, scratch, numbers, counts, out, n)
}
