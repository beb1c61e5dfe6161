// The questions about turns, tensors about a point, body checks and principal moments.
ghost use Rattle.std.specs.Prelude.{◌≤◌, length};
ghost use Rattle.test_questions.specs.Parts.{line_figures};

use crate::lines;
use bodies::{BODY_NUMBERS, Body, TENSOR_NUMBERS, Vector};
use refusals::{Refusal, Verdict};
use rotations::Quaternion;

// Returns a turn about the first axis of two, x, or the second, z. A function handed on would be no shorter than the
// if.
fn turn_about(axis: usize, angle_rad: f64) -> Quaternion {
    if axis == 1 {
        Quaternion::from_rotation_x(angle_rad)
    } else {
        Quaternion::from_rotation_z(angle_rad)
    }
}

pub(crate) fn matrix_agrees(axis: usize, values: &[f64], answers: &[f64]) -> bool
    requires { line_figures ≤ length values.now }
{
    let turn = turn_about(axis, values[0]);
    let matrix = turn.matrix();
    let m = matrix.0;
    lines::agree(answers, &m, 9)
}

// A function handed on would be no shorter than the if.
fn turned(body: Body, axis: usize, angle_rad: f64) -> Body {
    if axis == 1 {
        rotations::rotated_x(body, angle_rad)
    } else {
        rotations::rolled(body, angle_rad)
    }
}

// Tells whether a turned body agrees. The body stands after its angle.
pub(crate) fn turn_agrees(axis: usize, values: &[f64], answers: &[f64]) -> bool
    requires { line_figures ≤ length values.now }
{
    let body = bodies::body_of(&values[1..1 + BODY_NUMBERS]);
    let found = turned(body, axis, values[0]).numbers();
    lines::agree(answers, &found, BODY_NUMBERS)
}

// Tells whether the tensor of a body about a point agrees. The point stands before the body.
pub(crate) fn about_agrees(values: &[f64], answers: &[f64]) -> bool
    requires { line_figures ≤ length values.now }
{
    let point = Vector {
        x: values[0],
        y: values[1],
        z: values[2],
    };
    let tensor = bodies::body_of(&values[3..3 + BODY_NUMBERS]).inertia_about(point);
    let t = tensor.0;
    lines::agree(answers, &t, TENSOR_NUMBERS)
}

// Returns the place of the case of 17 among a to e, from 1 on, or 0 for another refusal.
fn case_place(refusal: Refusal) -> usize {
    match refusal {
        Refusal::Tensor(fault) => std::num::wrapping_add_usize(refusals::tensor_case(fault), 1),
        _ => 0,
    }
}

// Tells whether a verdict has this number, 0 for none, and this place of its case.
fn verdict_is(verdict: Verdict, number: usize, place: usize) -> bool {
    match verdict {
        Ok(()) => number == 0,
        Err(refusal) => { (refusals::number(refusal) == number) & (case_place(refusal) == place) }
    }
}

pub(crate) fn check_agrees(values: &[f64], number: usize, place: usize) -> bool
    requires { line_figures ≤ length values.now }
{
    verdict_is(
        body_check::check(bodies::body_of(&values[0..BODY_NUMBERS])),
        number,
        place,
    )
}

pub(crate) fn moments_agree(values: &[f64], answers: &[f64]) -> bool
    requires { line_figures ≤ length values.now }
{
    match moments::principal_moments(bodies::tensor_of(values)) {
        Ok(moments) => lines::agree(answers, &moments, 3),
        Err(_) => false,
    }
}

pub(crate) fn no_moments(values: &[f64], number: usize, place: usize) -> bool
    requires { line_figures ≤ length values.now }
{
    let found = moments::principal_moments(bodies::tensor_of(values));
    verdict_is(refusals::verdict_in(&found), number, place)
}
