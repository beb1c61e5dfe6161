// Whether a body could be a real one (mass.rs, `MassProperties::validate`): refusals 15, 16 and 17 a, b, d and e, in
// that order.
//
// The mass is finite and not negative, the centre finite, and the tensor finite, 0 without mass, with principal moments
// that are not negative and obey I₁ + I₂ ≥ I₃, the last two to 1e-9 of the tensor's largest magnitude.
#![tactic(auto)]

ghost use Rattle.std.specs.Prelude.{◌≡◌};
ghost use Rattle.bodies.specs.Layout.{tensor_numbers};
ghost use Rattle.refusals.specs.Given.{IsVerdict};
ghost use Rattle.body_check.specs.BodyCheck.{finite_vector, largest_magnitude, massless_inertia, check_moments};
ghost use Rattle.body_check.specs.BodyCheck.{check_tensor, check_of};

use bodies::{Body, Tensor, Vector};
use refusals::{Refusal, TensorFault, Verdict};

// Checks a body, and returns the first refusal that applies.
pub fn check(body: Body) -> Verdict
    ensures { IsVerdict result (check_of body) }
{
    let mass = body.mass_kg;
    if !floats::is_finite(mass) {
        return Err(Refusal::Mass);
    }
    if mass < 0.0 {
        return Err(Refusal::Mass);
    }
    let centre = body.centre_m;
    if !is_finite(centre) {
        return Err(Refusal::Centre);
    }
    let tensor = body.inertia_kg_m2;
    check_tensor(mass, tensor)
}

fn is_finite(v: Vector) -> bool
    ensures { result ≡ finite_vector v }
{
    if !floats::is_finite(v.x) {
        return false;
    }
    if !floats::is_finite(v.y) {
        return false;
    }
    floats::is_finite(v.z)
}

// Checks a tensor for 17 a, b, d and e.
fn check_tensor(mass: f64, tensor: Tensor) -> Verdict
    ensures { result ≡ check_tensor mass tensor }
{
    if !moments::entries_fit(tensor) {
        return refused(TensorFault::Entry);
    }
    let largest = largest_magnitude(tensor);
    if is_massless_inertia(mass, largest) {
        return refused(TensorFault::Massless);
    }
    let tolerance = 1e-9 * largest;
    check_moments(moments::eigenvalues(tensor), tolerance)
}

fn is_massless_inertia(mass: f64, largest: f64) -> bool
    ensures { result ≡ massless_inertia mass largest }
{
    mass == 0.0 && 0.0 < largest
}

fn refused(fault: TensorFault) -> Verdict
    ensures { result ≡ Err (Refusal.Tensor fault) }
{
    Err(Refusal::Tensor(fault))
}

// Checks ascending moments for 17 d and e.
fn check_moments(moments: [f64; 3], tolerance: f64) -> Verdict
    ensures { result ≡ check_moments moments tolerance }
{
    if moments[0] < -tolerance {
        return refused(TensorFault::Negative);
    }
    if moments[0] + moments[1] < moments[2] - tolerance {
        return refused(TensorFault::Triangle);
    }
    Ok(())
}

fn largest_magnitude(tensor: Tensor) -> f64
    ensures { result ≡ largest_magnitude tensor tensor_numbers }
{
    let a = tensor.0;
    let mut largest = 0.0;
    for entry in &a {
        largest = floats::max(largest, floats::abs(*entry));
    }
    largest
}
