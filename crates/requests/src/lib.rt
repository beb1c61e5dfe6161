// The calls on what is given by numbers (docs/FORMS.md; include/delvouzh.h): a set, a planform, a planform's chords, a
// point beside a planform, a ring of tubes, points to join, a tensor, a body, copies of one, a part moved or taken off.
//
// Any numbers may be handed in: those that make up none of these are no form, and refused with 18.
#![tactic(auto)]

ghost use Rattle.std.specs.Prelude.{◌≡◌, ◌+◌, ◌*◌, ◌≤◌, length};
ghost use Rattle.refusals.specs.Calls.{Does};
ghost use Rattle.bodies.specs.Layout.{body_numbers};
ghost use Rattle.joins.specs.Flat.{with_bodies};
ghost use Rattle.figures.specs.Figures.{refused_figures};
ghost use Rattle.figures.specs.Areas.{refused_area};
ghost use Rattle.requests.specs.Calls.{numbered_call, numbered_area};
ghost use Rattle.requests.specs.Calls.{numbered_chords, numbered_drill, ring_by, copied_by, placed_by, moved_by};
ghost use Rattle.requests.specs.Calls.{without_by, point_body_at, joined_points_of, tensor_moments, body_verdict};

use bodies::{BODY_NUMBERS, Body, TENSOR_NUMBERS, Vector};
use drill::Place;
use figures::{Area, Figures};
use fins::FinSet;
use planforms::Planform;
use refusals::{Refusal, Verdict};
use tubes::TubeFinSet;

// How many numbers hold as many points as a line may join, each written as a body.
const POINTS_NUMBERS: usize = 32 * BODY_NUMBERS;

fn no_figures() -> Figures
    ensures { result ≡ refused_figures Refusal.NoForm 0 }
{
    let verdict = Err(Refusal::NoForm);
    let body = Body::ZERO;
    Figures {
        verdict,
        body,
        intervals: 0,
        samples: 0,
    }
}

// Returns a set's figures, worked over a lent scratch; a set that is unknown is refused with 18.
#[tactic(auto, unfolding(crate::specs::Calls::numbered_call))]
pub fn set_figures(
    set: Option<FinSet>,
    points: &[f64],
    limit: usize,
    scratch: &mut [f64],
) -> Figures
    ensures { Does (numbered_call set points.now limit (length scratch.old))
        result scratch.old scratch.new }
{
    match set {
        Some(set) => figures::mass_properties(set, points, limit, scratch),
        None => no_figures(),
    }
}

fn no_area() -> Area
    ensures { result ≡ refused_area Refusal.NoForm 0 }
{
    let verdict = Err(Refusal::NoForm);
    Area {
        verdict,
        area_m2: 0.0,
        centroid_x_m: 0.0,
        centroid_span_m: 0.0,
        intervals: 0,
        samples: 0,
    }
}

// Returns a planform's area, worked over a lent scratch; a planform that is unknown is refused with 18.
#[tactic(auto, unfolding(crate::specs::Calls::numbered_area))]
pub fn area_figures(
    planform: Option<Planform>,
    points: &[f64],
    limit: usize,
    scratch: &mut [f64],
) -> Area
    ensures { Does (numbered_area planform points.now limit (length scratch.old))
        result scratch.old scratch.new }
{
    match planform {
        Some(planform) => figures::geometry(planform, points, limit, scratch),
        None => no_area(),
    }
}

// Lists a planform's chords at a height in metres over the start of a lent list; a planform that is unknown is refused
// with 18.
#[tactic(auto, unfolding(crate::specs::Calls::numbered_chords))]
pub fn listed_chords(
    planform: Option<Planform>,
    points: &[f64],
    h: f64,
    ends: &mut [f64],
) -> Result<usize, Refusal>
    requires { 64 ≤ length ends.old }
    ensures { Does (numbered_chords planform points.now h) result ends.old ends.new }
{
    match planform {
        Some(planform) => planform_chords::chords_at(planform, points, h, ends),
        None => Err(Refusal::NoForm),
    }
}

// Returns where a point lies beside a planform, and the nearest corner; a planform that is unknown is refused with 18.
#[tactic(auto, unfolding(crate::specs::Calls::numbered_drill))]
pub fn drilled(
    planform: Option<Planform>,
    points: &[f64],
    x_m: f64,
    height_m: f64,
) -> Result<Place, Refusal>
    ensures { result ≡ numbered_drill planform points.now x_m height_m }
{
    match planform {
        Some(planform) => drill::drill(planform, points, x_m, height_m),
        None => Err(Refusal::NoForm),
    }
}

// Returns a ring of tubes by six numbers: length, outer radius, wall, base angle, body radius and density. Any other
// count, or an unknown density, is refused with 18.
#[tactic(auto, unfolding(crate::specs::Calls::ring_by))]
pub fn ring_figures(count: usize, density: usize, numbers: &[f64]) -> Result<Body, Refusal>
    ensures { result ≡ ring_by count density numbers.now }
{
    if numbers.len() != 6 {
        return Err(Refusal::NoForm);
    }
    let found = materials::numbered_density(density, numbers[5]);
    match found {
        Some(density) => tubes::mass_properties(
            TubeFinSet {
                count,
                length_m: numbers[0],
                outer_radius_m: numbers[1],
                thickness_m: numbers[2],
                base_angle_rad: numbers[3],
                density,
            },
            numbers[4],
        ),
        None => Err(Refusal::NoForm),
    }
}

// Returns the principal moments of a tensor's numbers; any other count of them is refused with 18.
#[tactic(auto, unfolding(crate::specs::Calls::tensor_moments))]
pub fn tensor_moments(numbers: &[f64]) -> Result<[f64; 3], Refusal>
    ensures { result ≡ tensor_moments numbers.now }
{
    if numbers.len() != TENSOR_NUMBERS {
        return Err(Refusal::NoForm);
    }
    moments::principal_moments(bodies::tensor_of(numbers))
}

// Checks a body's numbers; any other count of them is refused with 18.
#[tactic(auto, unfolding(crate::specs::Calls::body_verdict))]
pub fn body_verdict(numbers: &[f64]) -> Verdict
    ensures { result ≡ body_verdict numbers.now }
{
    if numbers.len() != BODY_NUMBERS {
        return Err(Refusal::NoForm);
    }
    body_check::check(bodies::body_of(numbers))
}

// Returns copies of a body joined, each moved by the x and y of an offset. Any other count of the body's numbers is
// refused with 18.
#[tactic(auto, unfolding(crate::specs::Calls::copied_by))]
pub fn copied_by(body: &[f64], offsets: &[f64]) -> Result<Body, Refusal>
    ensures { result ≡ copied_by body.now offsets.now }
{
    if body.len() != BODY_NUMBERS {
        return Err(Refusal::NoForm);
    }
    placements::copied(bodies::body_of(body), offsets)
}

// Returns copies of a body joined, each at the x, y and roll of a place. Any other count of the body's numbers is
// refused with 18.
#[tactic(auto, unfolding(crate::specs::Calls::placed_by))]
pub fn placed_by(body: &[f64], places: &[f64]) -> Result<Body, Refusal>
    ensures { result ≡ placed_by body.now places.now }
{
    if body.len() != BODY_NUMBERS {
        return Err(Refusal::NoForm);
    }
    placements::placed(bodies::body_of(body), places)
}

// Returns a body with a part moved by an offset of three numbers. Any other count of numbers is refused with 18.
#[tactic(auto, unfolding(crate::specs::Calls::moved_by))]
pub fn moved_by(whole: &[f64], part: &[f64], offset: &[f64]) -> Result<Body, Refusal>
    ensures { result ≡ moved_by whole.now part.now offset.now }
{
    if whole.len() != BODY_NUMBERS {
        return Err(Refusal::NoForm);
    }
    if part.len() != BODY_NUMBERS {
        return Err(Refusal::NoForm);
    }
    if offset.len() != 3 {
        return Err(Refusal::NoForm);
    }
    let offset_m = Vector {
        x: offset[0],
        y: offset[1],
        z: offset[2],
    };
    placements::with_part_moved(bodies::body_of(whole), bodies::body_of(part), offset_m)
}

// Returns a body with a part taken off. Any other count of numbers is refused with 18.
#[tactic(auto, unfolding(crate::specs::Calls::without_by))]
pub fn without_by(whole: &[f64], part: &[f64]) -> Result<Body, Refusal>
    ensures { result ≡ without_by whole.now part.now }
{
    if whole.len() != BODY_NUMBERS {
        return Err(Refusal::NoForm);
    }
    if part.len() != BODY_NUMBERS {
        return Err(Refusal::NoForm);
    }
    placements::without_part(bodies::body_of(whole), bodies::body_of(part))
}

// Returns point k of a line as a body.
fn point_body(values: &[f64], k: usize) -> Body
    requires { 4 * k + 4 ≤ length values.now }
    ensures { result ≡ point_body_at values.now k }
{
    let zero = Body::ZERO;
    let inertia_kg_m2 = zero.inertia_kg_m2;
    let o = 4 * k;
    Body {
        mass_kg: values[o],
        centre_m: Vector {
            x: values[o + 1],
            y: values[o + 2],
            z: values[o + 3],
        },
        inertia_kg_m2,
    }
}

// Writes each point as a body, one after another from the start of a lent list.
fn write_points(bodies: &mut [f64], values: &[f64], count: usize)
    requires { (body_numbers * count ≤ length bodies.old) × (4 * count ≤ length values.now) }
    ensures { bodies.new ≡ with_bodies (point_body_at values.now) count bodies.old }
{
    for k in 0..count {
        joins::write_body(bodies, k, point_body(values, k));
    }
}

// Returns the points of a line joined; none, or more than 32, are refused with 3.
pub fn join_points(values: &[f64]) -> Result<Body, Refusal>
    ensures { result ≡ joined_points_of values.now }
{
    let count = values.len() / 4;
    if 32 < count {
        return Err(Refusal::Count);
    }
    let mut bodies = [0.0; POINTS_NUMBERS];
    write_points(&mut bodies, values, count);
    let end = BODY_NUMBERS * count;
    joins::combine(&bodies[..end])
}
