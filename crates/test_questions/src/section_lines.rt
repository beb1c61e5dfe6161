// The questions about moments of chords, tabs, and segments that touch.
ghost use Rattle.std.specs.Prelude.{◌≤◌, length};
ghost use Rattle.test_questions.specs.Parts.{line_figures};

use crate::lines;
use sections::Section;
use segments::{Point, Segment};

// Returns the section of a number that a line has: one of the four.
pub(crate) fn section_of(number: usize) -> Section {
    sections::Section::try_from(number)
        .ok()
        .unwrap_or(Section::Square)
}

pub(crate) fn moments_agree(section: usize, values: &[f64], answers: &[f64]) -> bool
    requires { line_figures ≤ length values.now }
{
    let r = sections::chord_moments(section_of(section), values[0], values[1], values[2]);
    lines::agree(answers, &r, 4)
}

pub(crate) fn tab_agrees(values: &[f64], answers: &[f64]) -> bool
    requires { line_figures ≤ length values.now }
{
    let Some(tab) = fins::tab_of(1, [values[2], values[3], values[4]]) else {
        return false;
    };
    let r = plates::tab_integrals(tab, values[0], values[1]);
    lines::agree(answers, &r, 7)
}

fn segment_of(ends: &[f64]) -> Segment
    requires { 4 ≤ length ends.now }
{
    let from = Point {
        x: ends[0],
        y: ends[1],
    };
    let to = Point {
        x: ends[2],
        y: ends[3],
    };
    Segment { from, to }
}

// Tells whether two segments touch or not as the line says: its first word of two says that they do.
pub(crate) fn touch_agrees(word: usize, values: &[f64]) -> bool
    requires { line_figures ≤ length values.now }
{
    let touch = segments::segments_touch(segment_of(&values[0..4]), segment_of(&values[4..8]));
    if word == 1 { touch } else { !touch }
}
