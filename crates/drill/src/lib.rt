// Where may I drill? Whether a point is inside a fin, on its edge or outside, and which corner is nearest.
//
// Document 02, "Where may I drill?". Coordinates are read as f64s once, and from then on all is whole numbers of cutter
// steps of 2^-20 m (`steps`, `polygons`). A length is at most 2^26 steps, and sweep + tip, which is summed in steps, at
// most 2^27.
#![tactic(auto)]

ghost use Rattle.std.specs.Prelude.{◌≡◌, ◌^◌, ◌<◌, ◌≤◌, true, nat_abs, ◌+ℤ◌, length, take, [], ◌∷◌, map};
ghost use Rattle.refusals.specs.Results.{IsResult};
ghost use Rattle.limits.specs.Limits.{outline_numbers};
ghost use Rattle.planforms.specs.Planforms.{pair_count};
ghost use Rattle.polygons.specs.Polygons.{corner_count};
ghost use Rattle.polygons.specs.Bounds.{InReach};
ghost use Rattle.steps.specs.Parts.{IsLength};
ghost use Rattle.steps.specs.Steps.{exact_of, is_whole, steps_of};
ghost use Rattle.planforms.specs.declared.Planform.TheVariants.{Trapezoid};
ghost use Rattle.drill.specs.Drill.{corners_of, place_of, are_whole, drill_of, place_number, nearest_of};
ghost use Rattle.drill.specs.InSteps.{AreLengths, in_steps};

use limits::check_length;
use planforms::Planform;
use refusals::{Refusal, Verdict};
use steps::{is_whole, steps};

// Where a point lies, with the nearest corner's position.
#[derive(Clone, Copy)]
pub enum Place {
    Inside(usize),
    Edge(usize),
    Outside(usize),
}

// Returns where a point lies, from the corners and the point in steps.
#[tactic(auto, unfolding(crate::specs::Drill::place_of))]
fn located(corners: &[i64], x: i64, height: i64) -> Place
    requires { (0 < corner_count corners.now) × InReach corners.now x height }
    ensures { result ≡ place_of corners.now x height }
{
    let nearest = polygons::nearest_corner(corners, x, height);
    if polygons::is_on_edge(corners, x, height) {
        return Place::Edge(nearest);
    }
    if polygons::is_inside(corners, x, height) {
        return Place::Inside(nearest);
    }
    Place::Outside(nearest)
}

// Tells whether every coordinate of an outline is a whole number of steps.
fn are_whole(points: &[f64]) -> bool
    requires { AreLengths points.now }
    ensures { result ≡ are_whole (map exact_of points.now) }
{
    let mut whole = true;
    for point in points {
        whole = whole & is_whole(*point);
    }
    whole
}

// Returns an outline's coordinates in steps, from the start of the array on.
fn steps_of(points: &[f64]) -> [i64; limits::OUTLINE_NUMBERS]
    requires { AreLengths points.now × (length points.now ≤ outline_numbers) }
    ensures { take (length points.now) result ≡ map steps_of (map exact_of points.now) }
{
    let mut corners = [0i64; limits::OUTLINE_NUMBERS];
    for (i, point) in points.iter().enumerate() {
        corners[i] = steps(*point);
    }
    corners
}

// Returns the exact sum of two lengths in steps.
fn sum(a: i64, b: i64) -> i64
    requires { (nat_abs a ≤ 2 ^ 26) × (nat_abs b ≤ 2 ^ 26) }
    ensures { result ≡ a +ℤ b }
{
    a + b
}

// Returns a trapezoid's corners in steps.
fn trapezoid_corners(root_chord_m: f64, tip_chord_m: f64, span_m: f64, sweep_m: f64) -> [i64; 8]
    requires { AreLengths (root_chord_m ∷ tip_chord_m ∷ span_m ∷ sweep_m ∷ [])
        × (is_whole (exact_of sweep_m) ≡ true) × (is_whole (exact_of tip_chord_m) ≡ true) }
    ensures { result ≡ map steps_of (corners_of (Trapezoid root_chord_m tip_chord_m span_m sweep_m) []) }
{
    let root = steps(root_chord_m);
    let span = steps(span_m);
    let sweep = steps(sweep_m);
    let tip_end = sum(sweep, steps(tip_chord_m));
    [0, 0, sweep, span, tip_end, span, root, 0]
}

// Returns where a point lies beside a trapezoid that passed the checks, or 25.
fn drill_trapezoid(
    root_chord_m: f64,
    tip_chord_m: f64,
    span_m: f64,
    sweep_m: f64,
    x_m: f64,
    height_m: f64,
) -> Result<Place, Refusal>
    requires { AreLengths (root_chord_m ∷ tip_chord_m ∷ span_m ∷ sweep_m ∷ x_m ∷ height_m ∷ []) }
    ensures { result ≡ in_steps (corners_of (Trapezoid root_chord_m tip_chord_m span_m sweep_m) []) (exact_of x_m)
        (exact_of height_m) }
{
    let point = is_whole(x_m) & is_whole(height_m);
    let tip = is_whole(sweep_m) & is_whole(span_m) & is_whole(tip_chord_m);
    if !(point & tip & is_whole(root_chord_m)) {
        return Err(Refusal::NotWholeSteps);
    }
    let corners = trapezoid_corners(root_chord_m, tip_chord_m, span_m, sweep_m);
    Ok(located(&corners, steps(x_m), steps(height_m)))
}

// Returns where a point lies beside an outline that passed the checks, or 25.
fn drill_outline(points: &[f64], x_m: f64, height_m: f64) -> Result<Place, Refusal>
    requires { AreLengths (x_m ∷ height_m ∷ points.now) × (length points.now ≤ outline_numbers)
        × (0 < pair_count points.now) }
    ensures { result ≡ in_steps (map exact_of points.now) (exact_of x_m) (exact_of height_m) }
{
    if !(is_whole(x_m) & is_whole(height_m) & are_whole(points)) {
        return Err(Refusal::NotWholeSteps);
    }
    let n = points.len();
    let corners = steps_of(points);
    Ok(located(&corners[..n], steps(x_m), steps(height_m)))
}

// Returns where a point lies beside a planform, and the nearest corner, or why there is no answer.
#[tactic(auto, using(refusals::proofs::Given::is_answer), unfolding(crate::specs::Drill::drill_of, crate::specs::Drill::drill_check))]
pub fn drill(planform: Planform, points: &[f64], x_m: f64, height_m: f64) -> Result<Place, Refusal>
    ensures { IsResult result (drill_of planform points.now x_m height_m) }
{
    outlines::check_planform(planform, points)?;
    check_length(limits::DRILL_X, x_m)?;
    check_length(limits::DRILL_HEIGHT, height_m)?;
    match planform {
        Planform::Trapezoid {
            root_chord_m,
            tip_chord_m,
            span_m,
            sweep_m,
        } => drill_trapezoid(root_chord_m, tip_chord_m, span_m, sweep_m, x_m, height_m),
        Planform::Ellipse { .. } => Err(Refusal::NoCorners),
        Planform::Outline => drill_outline(points, x_m, height_m),
    }
}

// Returns the place as a number: 1 inside, 2 on the edge, 3 outside; 0 where the point is turned away.
pub fn place_number(answer: Result<Place, Refusal>) -> usize
    ensures { result ≡ place_number answer }
{
    match answer {
        Ok(Place::Inside(_)) => 1,
        Ok(Place::Edge(_)) => 2,
        Ok(Place::Outside(_)) => 3,
        Err(_) => 0,
    }
}

// Returns the nearest corner's position; 0 where the point is turned away.
pub fn nearest(answer: Result<Place, Refusal>) -> usize
    ensures { result ≡ nearest_of answer }
{
    match answer {
        Ok(Place::Inside(nearest) | Place::Edge(nearest) | Place::Outside(nearest)) => nearest,
        Err(_) => 0,
    }
}
