// The checks of a planform: of its lengths; or, of a drawn outline, how many points it has, their limits, where it
// starts and ends, that it touches itself nowhere, and its area.
//
// The refusals of an outline are document 01's 5, 4, 6, 7, 8, in that order (fins.rs, `validate_outline`). Of n points,
// each an x and a height in a flat slice, edge i runs from point i to point i + 1, and edge n - 1 back to point 0.
#![tactic(auto)]

ghost use Rattle.std.specs.Prelude.{◌≡◌, ◌+◌, ◌<◌};
ghost use Rattle.refusals.specs.Given.{IsVerdict};
ghost use Rattle.planforms.specs.Planforms.{pair_count};
ghost use Rattle.segments.specs.Segments.{segments_touch};
ghost use Rattle.segments.specs.Places.{place_of};
ghost use Rattle.outlines.specs.Outlines.{point_check, points_check, ends_check, point_at, edge_at, pair_check};
ghost use Rattle.outlines.specs.Outlines.{edge_check, edges_check, edge_term, twice_area, twice_area_check};
ghost use Rattle.outlines.specs.Outlines.{outline_check, trapezoid_check, ellipse_check, planform_check};

use limits::check_length;
use planforms::Planform;
use refusals::{Refusal, Verdict};
use segments::{Place, Point, Segment};

fn point_at(points: &[f64], i: usize) -> Point
    requires { i < pair_count points.now }
    ensures { result ≡ point_at points.now i }
{
    Point {
        x: points[2 * i],
        y: points[2 * i + 1],
    }
}

fn edge_at(points: &[f64], i: usize) -> Segment
    requires { i < pair_count points.now }
    ensures { result ≡ edge_at points.now i }
{
    let n = points.len() / 2;
    let from = point_at(points, i);
    let to = point_at(points, segments::next_point(n, i));
    Segment { from, to }
}

// Checks that the edges i and j, i before j, do not touch, else refuses with 7. Neighbours share a point and are not
// compared.
fn check_pair(points: &[f64], i: usize, j: usize) -> Verdict
    requires { (i < pair_count points.now) × (j < pair_count points.now) }
    ensures { result ≡ pair_check points.now i j }
{
    let n = points.len() / 2;
    if (j == i + 1) | ((i == 0) & (j + 1 == n)) {
        return Ok(());
    }
    let touch = segments::segments_touch(edge_at(points, i), edge_at(points, j));
    refusals::refuse_when(touch, Refusal::Touches(i, j))
}

// Tells whether edge j touches `edge`, beside which its two ends lie at the places `from` and `to`. Most pairs are told
// apart by these places alone.
fn edge_touches(points: &[f64], j: usize, edge: Segment, from: Place, to: Place) -> bool
    requires j_bound { j + 1 < pair_count points.now }
    requires from_value { (from ≡ place_of edge (point_at points.now j))
        × (to ≡ place_of edge (point_at points.now (j + 1))) }
    ensures { result ≡ segments_touch edge (edge_at points.now j) }
{
    if segments::are_apart(edge, from, to) {
        return false;
    }
    segments::segments_touch(edge, edge_at(points, j))
}

// Checks that edge i touches no edge after it, else refuses with 7. Where a point lies beside edge i is worked once for
// the two edges that meet there. The closing edge is checked last, by itself.
fn check_edge(points: &[f64], i: usize) -> Verdict
    requires { i < pair_count points.now }
    ensures { result ≡ edge_check points.now i }
{
    let n = points.len() / 2;
    let first = i + 2;
    if n <= first {
        return Ok(());
    }
    let edge = edge_at(points, i);
    let mut from = segments::place_beside(edge, point_at(points, first));
    for j in first..n - 1 {
        let to = segments::place_beside(edge, point_at(points, j + 1));
        if edge_touches(points, j, edge, from, to) {
            return Err(Refusal::Touches(i, j));
        }
        from = to;
    }
    check_pair(points, i, n - 1)
}

// Checks that no two edges touch, else refuses with 7.
fn check_edges(points: &[f64]) -> Verdict
    ensures { result ≡ edges_check points.now }
{
    let n = points.len() / 2;
    for i in 0..n {
        check_edge(points, i)?;
    }
    Ok(())
}

// Checks that x, then y, of point i is within its limits, else refuses with 4.
fn check_point(points: &[f64], i: usize) -> Verdict
    requires { i < pair_count points.now }
    ensures { result ≡ point_check points.now i }
{
    check_length(limits::POINT_X, points[2 * i])?;
    check_length(limits::POINT_Y, points[2 * i + 1])
}

// Checks that every point is within its limits, else refuses with 4.
fn check_points(points: &[f64]) -> Verdict
    ensures { result ≡ points_check points.now }
{
    let n = points.len() / 2;
    for i in 0..n {
        check_point(points, i)?;
    }
    Ok(())
}

// Checks that the outline starts at (0, 0) and ends at (c, 0) with c > 0, else refuses with 6.
fn check_ends(points: &[f64]) -> Verdict
    requires { 0 < pair_count points.now }
    ensures { result ≡ ends_check points.now }
{
    let n = points.len() / 2;
    let first = point_at(points, 0);
    let last = point_at(points, n - 1);
    let on_root = (first.x == 0.0) & (first.y == 0.0) & (0.0 < last.x) & (last.y == 0.0);
    refusals::refuse_unless(on_root, Refusal::Ends)
}

// Returns what an edge adds to twice the area.
fn edge_term(edge: Segment) -> f64
    ensures { result ≡ edge_term edge }
{
    edge.from.x * edge.to.y - edge.to.x * edge.from.y
}

// Returns twice the outline's area, which is negative where its points run clockwise.
#[tactic(auto, unfolding(crate::specs::Outlines::sum_of_terms))]
fn twice_area(points: &[f64]) -> f64
    ensures { result ≡ twice_area points.now }
{
    let n = points.len() / 2;
    let mut sum = 0.0;
    for i in 0..n {
        sum = sum + edge_term(edge_at(points, i));
    }
    sum
}

// Checks that twice the area is not 0, else refuses with 8.
fn check_twice_area(points: &[f64]) -> Verdict
    ensures { result ≡ twice_area_check points.now }
{
    refusals::refuse_when(twice_area(points) == 0.0, Refusal::NoArea)
}

// Checks an outline and returns its first refusal, whatever slice is lent. Only with 3 to `MOST_POINTS` whole points is
// anything else looked at.
#[tactic(auto, unfolding(crate::specs::Outlines::outline_check))]
fn check_outline(points: &[f64]) -> Verdict
    ensures { result ≡ outline_check points.now }
{
    let n = points.len() / 2;
    if !((points.len() % 2 == 0) & (3 <= n) & (n <= limits::MOST_POINTS)) {
        return Err(Refusal::Points);
    }
    check_points(points)?;
    check_ends(points)?;
    check_edges(points)?;
    check_twice_area(points)
}

fn check_trapezoid(root_chord_m: f64, tip_chord_m: f64, span_m: f64, sweep_m: f64) -> Verdict
    ensures { result ≡ trapezoid_check root_chord_m tip_chord_m span_m sweep_m }
{
    check_length(limits::ROOT_CHORD, root_chord_m)?;
    check_length(limits::TIP_CHORD, tip_chord_m)?;
    check_length(limits::SPAN, span_m)?;
    check_length(limits::SWEEP, sweep_m)
}

fn check_ellipse(root_chord_m: f64, span_m: f64) -> Verdict
    ensures { result ≡ ellipse_check root_chord_m span_m }
{
    check_length(limits::ROOT_CHORD, root_chord_m)?;
    check_length(limits::SPAN, span_m)
}

// Checks a planform and returns its first refusal: of its lengths in the order listed, or of the outline's own checks.
pub fn check_planform(planform: Planform, points: &[f64]) -> Verdict
    ensures { IsVerdict result (planform_check planform points.now) }
{
    match planform {
        Planform::Trapezoid {
            root_chord_m,
            tip_chord_m,
            span_m,
            sweep_m,
        } => check_trapezoid(root_chord_m, tip_chord_m, span_m, sweep_m),
        Planform::Ellipse {
            root_chord_m,
            span_m,
        } => check_ellipse(root_chord_m, span_m),
        Planform::Outline => check_outline(points),
    }
}
