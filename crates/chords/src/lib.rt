// The chords of a planform at a height h above the root, metres (fins.rs, `chords_at`; document 01, "Set and
// planform").
//
//     trapezoid, f = h / span: from sweep·f to (sweep·f + root) + (tip − root)·f
//     ellipse: root·√(1 − f²) wide, centred on the root chord
//     outline: the edges' crossings with the height, sorted, first to second, third to fourth, ..
//
// The planforms are those of S. Niskanen, OpenRocket technical documentation, version 13.05, section 3.2.2, pages 25 to
// 29.
//
// Most outlines are crossed twice: that one chord needs no list. Where there are more crossings, they are listed.
#![tactic(auto)]

ghost use Rattle.std.specs.Prelude.{◌≡◌, ◌<◌, length, take};
ghost use Rattle.sorting.specs.Sorted.{Written};
ghost use Rattle.limits.specs.Limits.{most_points};
ghost use Rattle.planforms.specs.Planforms.{pair_count};
ghost use Rattle.segments.specs.Segments.{next};
ghost use Rattle.chords.specs.Chords.{in_span, trapezoid_ends, ellipse_ends, crossed, edge_crossed, edge_crossing};
ghost use Rattle.chords.specs.Chords.{outline_crossings, ends_at, chords_of};
ghost use Rattle.chords.specs.Edges.{cross_edge, add_few, few_edge, few_chords, Holding, Near, Kept};

use limits::MOST_POINTS;
use planforms::Planform;

// What there is at a height: no chord, one with its ends in metres aft of the root's leading edge, or an outline that
// is crossed more than twice, whose crossings `outline_crossings` lists.
#[derive(Clone, Copy)]
pub enum Chords {
    Nothing,
    One { start_m: f64, end_m: f64 },
    Several,
}

// Returns the chords of a planform at h. Of an outline, the edges listed must have every crossing at h; for another
// planform the list is not read.
#[tactic(auto, unfolding(crate::specs::Chords::ends_at))]
pub fn chords_at(planform: Planform, points: &[f64], edges: &[u8], h: f64) -> Chords
    requires { planform ≡ Planform.Outline → Holding points.now h edges.now }
    ensures { result ≡ chords_of (ends_at planform points.now h) }
{
    match planform {
        Planform::Trapezoid {
            root_chord_m,
            tip_chord_m,
            span_m,
            sweep_m,
        } => trapezoid_chord(root_chord_m, tip_chord_m, span_m, sweep_m, h),
        Planform::Ellipse {
            root_chord_m,
            span_m,
        } => ellipse_chord(root_chord_m, span_m, h),
        Planform::Outline => outline_chord(points, edges, h),
    }
}

// Lists the edges that a height from lo to hi can cross, in order, and returns how many there are.
pub fn edges_near(points: &[f64], lo: f64, hi: f64, edges: &mut [u8; MOST_POINTS]) -> usize
    ensures { Near points.now lo hi edges.new result }
{
    let n = points.len() / 2;
    if n == 0 {
        return 0;
    }
    if MOST_POINTS < n {
        return 0;
    }
    let first_below = points[1] <= lo;
    let first_above = hi < points[1];
    let mut below = first_below;
    let mut above = first_above;
    let mut count: usize = 0;
    for i in 1..n {
        let y = points[2 * i + 1];
        let next_below = y <= lo;
        let next_above = hi < y;
        count = keep_edge(edges, count, i - 1, below & next_below, above & next_above);
        below = next_below;
        above = next_above;
    }
    keep_edge(
        edges,
        count,
        n - 1,
        below & first_below,
        above & first_above,
    )
}

// Lists edge i after the `count` that are listed, unless both of its ends are at most the least height, or both above
// the largest; returns how many are listed then.
fn keep_edge(edges: &mut [u8], count: usize, i: usize, below: bool, above: bool) -> usize
    requires { (count < length edges.old) × (i < most_points) }
    ensures { Kept edges.old edges.new count i below above result }
{
    if below {
        return count;
    }
    if above {
        return count;
    }
    edges[count] = i as u8;
    count + 1
}

// Writes the sorted crossings of an outline over the start of xs, and returns how many there are.
pub fn outline_crossings(points: &[f64], h: f64, xs: &mut [f64; MOST_POINTS]) -> usize
    ensures { Written (outline_crossings points.now h) xs.old xs.new result }
{
    let mut edges = [0; MOST_POINTS];
    let n = edges_near(points, h, h, &mut edges);
    crossings_of(points, &edges[..n], h, xs)
}

// Writes the sorted crossings of an outline over the start of xs, from a list of edges that has every crossing at h,
// and returns how many there are.
pub fn crossings_of(points: &[f64], edges: &[u8], h: f64, xs: &mut [f64; MOST_POINTS]) -> usize
    requires { Holding points.now h edges.now }
    ensures { Written (outline_crossings points.now h) xs.old xs.new result }
{
    let n = points.len() / 2;
    let mut count: usize = 0;
    for edge in edges {
        count = cross_edge(points, h, *edge as usize, n, xs, count);
    }
    count
}

// Tells whether h is from the root up to the span: root and tip are chords too.
fn in_span(span_m: f64, h: f64) -> bool
    ensures { result ≡ in_span span_m h }
{
    0.0 <= h && h <= span_m
}

// Returns the chord of a trapezoid at h, or that there is none outside its span.
pub fn trapezoid_chord(
    root_chord_m: f64,
    tip_chord_m: f64,
    span_m: f64,
    sweep_m: f64,
    h: f64,
) -> Chords
    ensures { result ≡ chords_of (trapezoid_ends root_chord_m tip_chord_m span_m sweep_m h) }
{
    if !in_span(span_m, h) {
        return Chords::Nothing;
    }
    let f = h / span_m;
    let lead = sweep_m * f;
    Chords::One {
        start_m: lead,
        end_m: lead + root_chord_m + (tip_chord_m - root_chord_m) * f,
    }
}

// Returns the chord of an ellipse at h, or that there is none outside its span.
pub fn ellipse_chord(root_chord_m: f64, span_m: f64, h: f64) -> Chords
    ensures { result ≡ chords_of (ellipse_ends root_chord_m span_m h) }
{
    if !in_span(span_m, h) {
        return Chords::Nothing;
    }
    let f = h / span_m;
    let chord = root_chord_m * root::sqrt(floats::max(1.0 - f * f, 0.0));
    let lead = 0.5 * (root_chord_m - chord);
    Chords::One {
        start_m: lead,
        end_m: lead + chord,
    }
}

// The crossings found so far, in order, while there are no more than two.
#[derive(Clone, Copy)]
enum Few {
    Zero,
    Single(f64),
    Pair(f64, f64),
    More,
}

// Returns the chords of an outline at h. It goes through the edges listed and stops at a third crossing.
fn outline_chord(points: &[f64], edges: &[u8], h: f64) -> Chords
    requires { Holding points.now h edges.now }
    ensures { result ≡ chords_of (outline_crossings points.now h) }
{
    let n = points.len() / 2;
    let mut few = Few::Zero;
    for edge in edges {
        few = meet_edge(few, points, h, *edge as usize, n);
        if let Few::More = few {
            return Chords::Several;
        }
    }
    few_chords(few)
}

// Adds the crossing of edge i of n, if there is one; a third crossing is only counted, and its place not worked out.
fn meet_edge(few: Few, points: &[f64], h: f64, i: usize, n: usize) -> Few
    requires { (i < n) × (n ≡ pair_count points.now) }
    ensures { result ≡ few_edge points.now h i (next n i) few }
{
    let j = segments::next_point(n, i);
    if !edge_crossed(points, h, i, j) {
        return few;
    }
    if let Few::Pair(_, _) = few {
        return Few::More;
    }
    add_few(few, edge_crossing(points, h, i, j))
}

fn add_few(few: Few, x: f64) -> Few
    ensures { result ≡ add_few few x }
{
    match few {
        Few::Zero => Few::Single(x),
        Few::Single(a) => {
            if x < a {
                Few::Pair(x, a)
            } else {
                Few::Pair(a, x)
            }
        }
        Few::Pair(_, _) | Few::More => Few::More,
    }
}

fn few_chords(few: Few) -> Chords
    ensures { result ≡ few_chords few }
{
    match few {
        Few::Pair(a, b) => Chords::One {
            start_m: a,
            end_m: b,
        },
        Few::More => Chords::Several,
        Few::Zero | Few::Single(_) => Chords::Nothing,
    }
}

// Inserts the crossing of edge i, if there is one, among the `count` sorted ones that xs begins with, and returns how
// many there are then.
fn cross_edge(points: &[f64], h: f64, i: usize, n: usize, xs: &mut [f64], count: usize) -> usize
    requires { (i < n) × (n ≡ pair_count points.now) × (count < length xs.old) }
    ensures { Written (cross_edge points.now n h i (take count xs.old)) xs.old
        xs.new result }
{
    let j = segments::next_point(n, i);
    if !edge_crossed(points, h, i, j) {
        return count;
    }
    sorting::insert(xs, count, edge_crossing(points, h, i, j));
    count + 1
}

// Tells whether the edge from point i to point j is crossed at h.
fn edge_crossed(points: &[f64], h: f64, i: usize, j: usize) -> bool
    requires { (i < pair_count points.now) × (j < pair_count points.now) }
    ensures { result ≡ edge_crossed points.now h i j }
{
    between(h, points[2 * i + 1], points[2 * j + 1])
}

// Tells whether the lower of p and q is at most h, and h below the upper.
fn between(h: f64, p: f64, q: f64) -> bool
    ensures { result ≡ crossed h p q }
{
    if p <= h {
        return h < q;
    }
    if q <= h {
        return h < p;
    }
    false
}

// Returns the x at which the edge from point i to point j crosses h.
fn edge_crossing(points: &[f64], h: f64, i: usize, j: usize) -> f64
    requires { (i < pair_count points.now) × (j < pair_count points.now) }
    ensures { result ≡ edge_crossing points.now h i j }
{
    let x = points[2 * i];
    let y = points[2 * i + 1];
    x + (h - y) * (points[2 * j] - x) / (points[2 * j + 1] - y)
}
