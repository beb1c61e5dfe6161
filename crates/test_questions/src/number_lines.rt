// The questions about roots, sines and cosines.
ghost use Rattle.std.specs.Prelude.{◌≤◌, length};
ghost use Rattle.test_questions.specs.Parts.{line_figures};

use crate::lines;

pub(crate) fn root_agrees(values: &[f64], answers: &[f64]) -> bool
    requires { line_figures ≤ length values.now }
{
    let results = [root::sqrt(values[0])];
    lines::agree(answers, &results, 1)
}

pub(crate) fn sine_agrees(values: &[f64], answers: &[f64]) -> bool
    requires { line_figures ≤ length values.now }
{
    let r = trig::sin_cos(values[0]);
    let results = [r.sin, r.cos];
    lines::agree(answers, &results, 2)
}
