// Tube fins: open tubes parallel to the body, touching it, spaced evenly around it (fins.rs, `TubeFinSet`; parts.rs,
// `hollow_cylinder`).
//
// A tube of outer radius R, inner radius r and length L has m = ρ π (R² − r²) L, its centre at −L/2, m (R² + r²)/2
// about its axis and m ((R² + r²)/4 + L²/12) across it; its axis stands at body radius + R. The axes of n tubes lie on
// a circle of that radius, 2π/n apart, so neighbours touch where the outer radius is body radius · s / (1 − s), s =
// sin(π/n).
#![tactic(auto)]

ghost use Rattle.std.specs.Prelude.{◌≡◌, ◌≤◌};
ghost use Rattle.joins.specs.Joins.{IsJoined};
ghost use Rattle.tubes.specs.Tubes.{hollow_cylinder, tube_at, wall_check, mount_check, tube_check, tubes_of};
ghost use Rattle.tubes.specs.Closing.{closing_value, IsClosing, closing_of};

use bodies::{Body, Tensor, Vector};
use materials::Density;
use refusals::{Refusal, Verdict};

const PI: f64 = 3.141592653589793;

#[derive(Clone, Copy)]
pub struct TubeFinSet {
    pub count: usize,
    pub length_m: f64,
    pub outer_radius_m: f64,
    pub thickness_m: f64,
    pub base_angle_rad: f64,
    pub density: Density,
}

// Returns a tube on the axis with its forward end at the origin. A wall as thick as the outer radius makes it solid, a
// wall of 0 massless.
fn hollow_cylinder(kg_m3: f64, length_m: f64, outer_radius_m: f64, thickness_m: f64) -> Body
    ensures { result ≡ hollow_cylinder kg_m3 length_m outer_radius_m thickness_m }
{
    let big = outer_radius_m;
    let small = outer_radius_m - thickness_m;
    let mass_kg = kg_m3 * PI * (big * big - small * small) * length_m;
    let radii = big * big + small * small;
    let axial = 0.5 * mass_kg * radii;
    let transverse = mass_kg * (0.25 * radii + length_m * length_m / 12.0);
    let inertia_kg_m2 = Tensor::symmetric(transverse, transverse, axial, 0.0, 0.0, 0.0);
    Body {
        mass_kg,
        centre_m: Vector {
            x: 0.0,
            y: 0.0,
            z: -0.5 * length_m,
        },
        inertia_kg_m2,
    }
}

// Returns the first tube at roll 0, its axis at body radius + outer radius. A density that is taken is bulk.
fn tube_at(set: TubeFinSet, body_radius_m: f64) -> Body
    ensures { result ≡ tube_at set body_radius_m }
{
    let axis_m = Vector {
        x: body_radius_m + set.outer_radius_m,
        y: 0.0,
        z: 0.0,
    };
    let density = set.density;
    let kg_m3 = materials::figure_of(density);
    hollow_cylinder(kg_m3, set.length_m, set.outer_radius_m, set.thickness_m).translated(axis_m)
}

// Checks the wall's limits, else refuses with 4 and the thickness's field, for which zero passes here alone.
fn check_wall(thickness_m: f64) -> Verdict
    ensures { result ≡ wall_check thickness_m }
{
    refusals::refuse_unless(
        limits::length_within(true, false, thickness_m),
        Refusal::Length(limits::THICKNESS),
    )
}

// Checks what the tubes stand on: count, body radius, base angle, density.
#[tactic(auto, unfolding(crate::specs::Tubes::mount_check))]
fn check_mount(set: TubeFinSet, body_radius_m: f64) -> Verdict
    ensures { result ≡ mount_check set body_radius_m }
{
    let density = set.density;
    limits::check_count(set.count)?;
    limits::check_length(limits::BODY_RADIUS, body_radius_m)?;
    limits::check_angle(limits::BASE_ANGLE, set.base_angle_rad)?;
    materials::check_density(density)
}

// Checks a ring of tubes and returns its first refusal, in the order of document 02, Paper 3.
fn check_tubes(set: TubeFinSet, body_radius_m: f64) -> Verdict
    ensures { result ≡ tube_check set body_radius_m }
{
    check_mount(set, body_radius_m)?;
    limits::check_length(limits::TUBE_LENGTH, set.length_m)?;
    limits::check_length(limits::OUTER_RADIUS, set.outer_radius_m)?;
    check_wall(set.thickness_m)?;
    let over = set.outer_radius_m < set.thickness_m;
    refusals::refuse_when(over, Refusal::WallOverRadius)
}

// Returns the ring's mass, centre and tensor, on a body of the given radius. The frame's origin is on the axis at the
// tubes' forward end.
pub fn mass_properties(set: TubeFinSet, body_radius_m: f64) -> Result<Body, Refusal>
    ensures { IsJoined result (tubes_of set body_radius_m) }
{
    check_tubes(set, body_radius_m)?;
    let one = tube_at(set, body_radius_m);
    Ok(rings::ring(one, set.base_angle_rad, set.count))
}

// Returns the closing radius itself. No ring of one or two tubes closes, and theirs is the body's radius.
fn closing_value(body_radius_m: f64, count: usize) -> f64
    requires { count ≤ 32 }
    ensures { result ≡ closing_value body_radius_m count }
{
    if count < 3 {
        return body_radius_m;
    }
    let turn = trig::sin_cos(PI / (count as f64));
    let s = turn.sin;
    body_radius_m * s / (1.0 - s)
}

// Returns the outer radius of `count` tubes that close the ring around a body, each touching the body and its two
// neighbours. The radius is held to no limit.
#[tactic(auto, unfolding(crate::specs::Closing::closing_of))]
pub fn closing_radius_m(body_radius_m: f64, count: usize) -> Result<f64, Refusal>
    ensures { IsClosing result (closing_of body_radius_m count) }
{
    limits::check_count(count)?;
    limits::check_length(limits::BODY_RADIUS, body_radius_m)?;
    Ok(closing_value(body_radius_m, count))
}
