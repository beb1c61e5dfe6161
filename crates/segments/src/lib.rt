// The edges of an outline as segments: where each ends, and whether two share a point (fins.rs, `segments_touch`).
//
// Whether two share a point is decided in f64: the cross products and the sums in them are rounded, and exact geometry
// gives other answers both ways.
#![tactic(auto)]

ghost use Rattle.std.specs.Prelude.{◌≡◌, ◌&&◌, ◌<◌};
ghost use Rattle.std.specs.Float.Ieee.{eq};
ghost use Rattle.floats.specs.Operations.{bits};
ghost use Rattle.segments.specs.Segments.{next, cross_of, are_opposite, is_in_box, segments_touch};
ghost use Rattle.segments.specs.Places.{place_of, are_beyond, are_apart};

// A point, in metres.
#[derive(Clone, Copy)]
pub struct Point {
    pub x: f64,
    pub y: f64,
}

#[derive(Clone, Copy)]
pub struct Segment {
    pub from: Point,
    pub to: Point,
}

// Where a point lies beside a segment: on its left or right, before or after both of its ends in x, each strictly; and
// the point's y.
#[derive(Clone, Copy)]
pub struct Place {
    pub left: bool,
    pub right: bool,
    pub before: bool,
    pub after: bool,
    pub y: f64,
}

// Returns the point at which edge i of n ends. The last edge closes the outline.
pub fn next_point(n: usize, i: usize) -> usize
    requires { i < n }
    ensures { (result ≡ next n i) × (result < n) }
{
    if i + 1 == n { 0 } else { i + 1 }
}

// Returns on which side of a segment c lies: above 0 on its left, below 0 on its right.
fn cross(segment: Segment, c: Point) -> f64
    ensures { result ≡ cross_of segment c }
{
    (segment.to.x - segment.from.x) * (c.y - segment.from.y)
        - (segment.to.y - segment.from.y) * (c.x - segment.from.x)
}

fn are_opposite(d: f64, e: f64) -> bool
    ensures { result ≡ are_opposite d e }
{
    ((0.0 < d) & (e < 0.0)) | ((d < 0.0) & (0.0 < e))
}

#[tactic(auto, unfolding(crate::specs::Segments::is_in_box))]
fn is_in_box(segment: Segment, c: Point) -> bool
    ensures { result ≡ is_in_box segment c }
{
    let left = floats::min(segment.from.x, segment.to.x);
    let right = floats::max(segment.from.x, segment.to.x);
    let low = floats::min(segment.from.y, segment.to.y);
    let high = floats::max(segment.from.y, segment.to.y);
    ((left <= c.x) & (c.x <= right)) & ((low <= c.y) & (c.y <= high))
}

// Tells whether c lies on the segment, given its cross product d.
fn lies_on(d: f64, segment: Segment, c: Point) -> bool
    ensures { result ≡ (eq d (bits 0) && is_in_box segment c) }
{
    d == 0.0 && is_in_box(segment, c)
}

// Tells whether two closed segments share a point.
#[tactic(auto, unfolding(crate::specs::Segments::segments_touch))]
pub fn segments_touch(pq: Segment, rs: Segment) -> bool
    ensures { result ≡ segments_touch pq rs }
{
    let p = pq.from;
    let q = pq.to;
    let r = rs.from;
    let s = rs.to;
    let d1 = cross(rs, p);
    let d2 = cross(rs, q);
    let d3 = cross(pq, r);
    let d4 = cross(pq, s);
    (are_opposite(d1, d2) & are_opposite(d3, d4))
        | lies_on(d1, rs, p)
        | lies_on(d2, rs, q)
        | lies_on(d3, pq, r)
        | lies_on(d4, pq, s)
}

// Returns where c lies beside a segment.
pub fn place_beside(segment: Segment, c: Point) -> Place
    ensures { result ≡ place_of segment c }
{
    let d = cross(segment, c);
    let first = floats::min(segment.from.x, segment.to.x);
    let last = floats::max(segment.from.x, segment.to.x);
    Place {
        left: 0.0 < d,
        right: d < 0.0,
        before: c.x < first,
        after: last < c.x,
        y: c.y,
    }
}

// Tells whether a and b are both below p and q, or both above.
fn are_beyond(p: f64, q: f64, a: f64, b: f64) -> bool
    ensures { result ≡ are_beyond p q a b }
{
    let low = floats::min(p, q);
    let high = floats::max(p, q);
    ((a < low) & (b < low)) | ((high < a) & (high < b))
}

// Tells whether the segment between two places lies strictly on one side of this one, and its bounding box beside this
// one's. Two such segments do not touch.
pub fn are_apart(segment: Segment, a: Place, b: Place) -> bool
    ensures { result ≡ are_apart segment a b }
{
    if !((a.left & b.left) | (a.right & b.right)) {
        return false;
    }
    if (a.before & b.before) | (a.after & b.after) {
        return true;
    }
    are_beyond(segment.from.y, segment.to.y, a.y, b.y)
}
