// The questions about a planform: chords, break heights and integrands. Its figures stand before the height, which is
// the question's last figure.
ghost use Rattle.std.specs.Prelude.{◌<◌, ◌≤◌, length};
ghost use Rattle.test_questions.specs.Parts.{line_figures};

use crate::{lines, section_lines};
use chords::Chords;
use integrands::Integrand;
use planforms::Planform;

// Returns where the height stands among the figures: it is the last of those that are asked.
pub(crate) fn height_place(asked: usize) -> usize
    requires { asked ≤ line_figures }
    ensures { (result ≤ asked) × (result < line_figures) }
{
    if asked == 0 { 0 } else { asked - 1 }
}

fn length_at(lengths: &[f64], i: usize) -> f64 {
    if i < lengths.len() { lengths[i] } else { 0.0 }
}

// Returns the planform of a number that a line has: one of the three, with as many figures as it takes.
fn planform_of(number: usize, points: &[f64]) -> Planform {
    let lengths = [
        length_at(points, 0),
        length_at(points, 1),
        length_at(points, 2),
        length_at(points, 3),
    ];
    planforms::planform_of(number, lengths).unwrap_or(Planform::Outline)
}

fn ends_agree(answers: &[f64], planform: Planform, points: &[f64], h: f64) -> bool {
    let mut edges = [0; 64];
    let count = chords::edges_near(points, h, h, &mut edges);
    match chords::chords_at(planform, points, &edges[..count], h) {
        Chords::Nothing => answers.len() == 0,
        Chords::One { start_m, end_m } => {
            let ends = [start_m, end_m];
            lines::agree(answers, &ends, 2)
        }
        Chords::Several => {
            let mut xs = [0.0; 64];
            let n = chords::outline_crossings(points, h, &mut xs);
            lines::agree(answers, &xs, n)
        }
    }
}

pub(crate) fn chords_agree(planform: usize, points: &[f64], h: f64, answers: &[f64]) -> bool {
    ends_agree(answers, planform_of(planform, points), points, h)
}

pub(crate) fn breaks_agree(planform: usize, points: &[f64], answers: &[f64]) -> bool {
    let r = breaks::break_heights(planform_of(planform, points), points);
    let heights = r.heights;
    lines::agree(answers, &heights, r.count)
}

// Tells whether the first `count` values of an integrand at the line's height are its answers.
fn sample_agrees(
    integrand: Integrand,
    points: &[f64],
    h: f64,
    answers: &[f64],
    count: usize,
) -> bool {
    let r = integrands::sample(integrand, points, h);
    lines::agree(answers, &r, count)
}

pub(crate) fn area_agrees(planform: usize, points: &[f64], h: f64, answers: &[f64]) -> bool {
    let integrand = integrands::area_integrand(planform_of(planform, points), points);
    sample_agrees(integrand, points, h, answers, 3)
}

// Tells whether the plate's integrand agrees. The thickness and the body radius are the line's first figures.
pub(crate) fn plate_agrees(
    section: usize,
    planform: usize,
    values: &[f64],
    end: usize,
    h: f64,
    answers: &[f64],
) -> bool
    requires { (end ≤ line_figures) × (line_figures ≤ length values.now) }
{
    if end < 2 {
        return false;
    }
    let points = &values[2..end];
    let planform = planform_of(planform, points);
    let integrand = integrands::plate_integrand(
        planform,
        points,
        planforms::span_m(planform, points),
        section_lines::section_of(section),
        values[0],
        values[1],
    );
    sample_agrees(integrand, points, h, answers, 7)
}
