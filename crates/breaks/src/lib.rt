// The break heights of a planform (fins.rs, `breakpoints`; document 01, "Set and planform"): 0, the span and every
// height of an outline's points, sorted, equal ones once. Neighbours bound a strip, within which no edge ends.
#![tactic(auto)]

ghost use Rattle.std.specs.Prelude.{◌≡◌, ◌+◌, ◌<◌, ◌≤◌, ◌^◌, length, take};
ghost use Rattle.sorting.specs.Sorted.{sorted, Written};
ghost use Rattle.planforms.specs.Planforms.{pair_count, span_of};
ghost use Rattle.floats.specs.Operations.{at};
ghost use Rattle.limits.specs.Limits.{most_points};
ghost use Rattle.breaks.specs.Breaks.{every_y, outline_heights, all_heights, one_strip, break_heights, keep, once};
ghost use Rattle.breaks.specs.Breaks.{most_heights, listed, least_above, found_with};

use limits::MOST_POINTS;
use planforms::Planform;

// The most heights that are sorted: those of an outline's points, 0 and the span.
const MOST_HEIGHTS: usize = MOST_POINTS + 2;

// The break heights in metres, the first `count` of the array; zeros stand after them.
#[derive(Clone, Copy)]
pub struct BreakHeights {
    pub count: usize,
    pub heights: [f64; MOST_HEIGHTS],
}

// A height, and its place among others.
#[derive(Clone, Copy)]
pub struct RankedHeight {
    pub place: usize,
    pub height: f64,
}

// Returns the break heights of a planform. The 0 goes in last, so that of zeros of both signs it is the one that stays.
pub fn break_heights(planform: Planform, points: &[f64]) -> BreakHeights
    ensures { result ≡ listed (break_heights planform points.now) }
{
    let span = planforms::span_m(planform, points);
    let mut all = [0.0; MOST_HEIGHTS];
    let n = put_heights(planform, points, &mut all);
    sorting::insert(&mut all, n, span);
    sorting::insert(&mut all, n + 1, 0.0);
    distinct(&all[..], n + 2)
}

// Tells whether 0 and the span are the only break heights, and so need no list: they are a trapezoid's or an ellipse's
// with a span above 0.
#[tactic(auto, unfolding(crate::specs::Breaks::one_strip))]
pub fn is_one_strip(planform: Planform) -> bool
    ensures { result ≡ one_strip planform }
{
    match planform {
        Planform::Trapezoid { span_m, .. } | Planform::Ellipse { span_m, .. } => 0.0 < span_m,
        Planform::Outline => false,
    }
}

// Writes the sorted heights of an outline's points over the start of xs, and returns how many there are.
#[tactic(auto, unfolding(crate::specs::Breaks::every_y, sorting::specs::Sorted::sorted))]
fn put_heights(planform: Planform, points: &[f64], xs: &mut [f64; MOST_HEIGHTS]) -> usize
    ensures { Written (sorted (every_y planform points.now)) xs.old xs.new result }
{
    match planform {
        Planform::Outline => put_outline_heights(points, xs),
        Planform::Trapezoid { .. } | Planform::Ellipse { .. } => 0,
    }
}

// Writes the sorted heights of an outline's points over the start of xs, or none where there are more than 64 points.
fn put_outline_heights(points: &[f64], xs: &mut [f64; MOST_HEIGHTS]) -> usize
    ensures { Written (sorted (outline_heights points.now)) xs.old xs.new result }
{
    let n = points.len() / 2;
    if MOST_POINTS < n {
        return 0;
    }
    for i in 0..n {
        sorting::insert(xs, i, points[2 * i + 1]);
    }
    n
}

// Returns the first n of xs with equal neighbours once, the last of them.
fn distinct(xs: &[f64], n: usize) -> BreakHeights
    requires { (0 < n) × (n ≤ most_heights) × (n ≤ length xs.now) }
    ensures { result ≡ listed (once (take n xs.now)) }
{
    let mut heights = [0.0; MOST_HEIGHTS];
    let mut count: usize = 0;
    for i in 1..n {
        count = keep_unless_equal(&mut heights, count, xs[i - 1], xs[i]);
    }
    heights[count] = xs[n - 1];
    BreakHeights {
        count: count + 1,
        heights,
    }
}

// Puts a after the first `count` of xs, unless the next one, b, is equal, and returns how many there are then.
fn keep_unless_equal(xs: &mut [f64], count: usize, a: f64, b: f64) -> usize
    requires { count < length xs.old }
    ensures { Written (keep (take count xs.old) a b) xs.old xs.new result }
{
    if a == b {
        return count;
    }
    xs[count] = a;
    count + 1
}

// Returns the height at a place among all: 0, the span, then those of an outline's points, the last point first. Past
// them it is a NaN.
#[tactic(auto, using(crate::proofs::Above::by_place), unfolding(crate::specs::Breaks::every_y))]
pub fn height_at(planform: Planform, points: &[f64], place: usize) -> f64
    ensures { result ≡ at (all_heights planform points.now) place }
{
    if place == 0 {
        return 0.0;
    }
    if place == 1 {
        return planforms::span_m(planform, points);
    }
    match planform {
        Planform::Outline => outline_height_at(points, place - 2),
        Planform::Trapezoid { .. } | Planform::Ellipse { .. } => 0.0 / 0.0,
    }
}

// Returns the height of an outline's point, by its place from the last point on; past the first point, or with more
// than 64 points, it is a NaN.
#[tactic(auto, using(crate::proofs::Above::by_place))]
fn outline_height_at(points: &[f64], place: usize) -> f64
    ensures { result ≡ at (outline_heights points.now) place }
{
    let n = points.len() / 2;
    if MOST_POINTS < n {
        return 0.0 / 0.0;
    }
    if place < n {
        return points[2 * (n - 1 - place) + 1];
    }
    0.0 / 0.0
}

// Returns the least of all heights above h, or a NaN where there is none: the break height that follows h, found
// without sorting.
pub fn least_above(planform: Planform, points: &[f64], span: f64, h: f64) -> RankedHeight
    requires { span ≡ span_of planform points.now }
    ensures { result ≡ least_above h (all_heights planform points.now) }
{
    let found = least_of_points(planform, points, h);
    let found = nearer(h, span, found);
    nearer(h, 0.0, found)
}

#[tactic(auto, using(crate::proofs::Above::none_found), unfolding(crate::specs::Breaks::every_y))]
fn least_of_points(planform: Planform, points: &[f64], h: f64) -> RankedHeight
    ensures { (result ≡ least_above h (every_y planform points.now)) × (result.place ≤ most_points) }
{
    match planform {
        Planform::Outline => least_of_outline(points, h),
        Planform::Trapezoid { .. } | Planform::Ellipse { .. } => RankedHeight {
            place: 0,
            height: 0.0 / 0.0,
        },
    }
}

fn least_of_outline(points: &[f64], h: f64) -> RankedHeight
    ensures { (result ≡ least_above h (outline_heights points.now)) × (result.place ≤ most_points) }
{
    let n = points.len() / 2;
    let mut found = RankedHeight {
        place: 0,
        height: 0.0 / 0.0,
    };
    if MOST_POINTS < n {
        return found;
    }
    for i in 0..n {
        found = nearer(h, points[2 * i + 1], found);
    }
    found
}

// Returns what is found once x stands in front of the heights: x, where it is above h and nothing found lies below it;
// else what was found, one place further on.
fn nearer(h: f64, x: f64, found: RankedHeight) -> RankedHeight
    requires { found.place < 2 ^ 32 }
    ensures { result ≡ found_with h x found }
{
    if (h < x) & !(found.height < x) {
        return RankedHeight {
            place: 0,
            height: x,
        };
    }
    RankedHeight {
        place: found.place + 1,
        height: found.height,
    }
}
