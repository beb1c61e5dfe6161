// Where a point lies beside a closed polygon, and which corner is nearest, exactly over whole numbers.
//
// It answers document 02, "Where may I drill?". A polygon is its corners in order, each an x and a height, one pair
// after another in a flat slice; an edge joins each corner to the next, the last to the first. Corners are taken as the
// point sees them: how far to the right, and how far up. A coordinate is at most 2^27 in magnitude, so an offset at
// most 2^28, a product of two at most 2^56 and a sum of two squares at most 2^57: an i64 holds each of them.
#![tactic(auto)]

ghost use Rattle.std.specs.Prelude.{◌≡◌, ◌<◌, ◌+ℤ◌, ◌*ℤ◌, ◌-ℤ◌};
ghost use Rattle.std.specs.Int.Signed.{lt_z};
ghost use Rattle.polygons.specs.Polygons.{is_same, is_zero_between, lies_on, is_crossed, is_cut_rising, is_cut};
ghost use Rattle.polygons.specs.Polygons.{squared_distance, is_nearer, corner_count, offset_of, is_on, cuts, nearer_of};
ghost use Rattle.polygons.specs.Polygons.{is_on_edge, is_inside, nearest_corner};
ghost use Rattle.polygons.specs.Bounds.{IsCoordinate, IsOffset, IsProduct, AreOffsets, InReach};

// A corner as the point sees it: how far to the right, and how far up.
#[derive(Clone, Copy)]
struct Offset {
    across: i64,
    up: i64,
}

fn difference(a: i64, b: i64) -> i64
    requires { IsCoordinate a × IsCoordinate b }
    ensures { (result ≡ a -ℤ b) × IsOffset result }
{
    a - b
}

fn product(a: i64, b: i64) -> i64
    requires { IsOffset a × IsOffset b }
    ensures { (result ≡ a *ℤ b) × IsProduct result }
{
    a * b
}

fn sum(a: i64, b: i64) -> i64
    requires { IsProduct a × IsProduct b }
    ensures { result ≡ a +ℤ b }
{
    a + b
}

fn is_same(a: i64, b: i64) -> bool
    ensures { result ≡ is_same a b }
{
    a == b
}

fn is_less(a: i64, b: i64) -> bool
    ensures { result ≡ lt_z a b }
{
    a < b
}

fn is_zero_between(a: i64, b: i64) -> bool
    ensures { result ≡ is_zero_between a b }
{
    ((a <= 0) & (0 <= b)) | ((b <= 0) & (0 <= a))
}

// Tells whether an edge whose ends are so far up is crossed at the point's height: its lower end counts, its upper end
// does not.
fn is_crossed(lower: i64, upper: i64) -> bool
    ensures { result ≡ is_crossed lower upper }
{
    (lower <= 0) & (0 < upper)
}

// Tells whether the point lies on the edge from a to b, its ends included.
#[tactic(auto, unfolding(crate::specs::Polygons::lies_on))]
fn lies_on(a: Offset, b: Offset) -> bool
    requires { AreOffsets a × AreOffsets b }
    ensures { result ≡ lies_on a b }
{
    let in_line = is_same(product(a.across, b.up), product(b.across, a.up));
    in_line & is_zero_between(a.across, b.across) & is_zero_between(a.up, b.up)
}

// Tells whether the edge from a lower to an upper end is cut to the right of the point.
#[tactic(auto, unfolding(crate::specs::Polygons::is_cut_rising))]
fn is_cut_rising(lower: Offset, upper: Offset) -> bool
    requires { AreOffsets lower × AreOffsets upper }
    ensures { result ≡ is_cut_rising lower upper }
{
    let from = product(upper.across, lower.up);
    let to = product(lower.across, upper.up);
    is_crossed(lower.up, upper.up) & is_less(from, to)
}

#[tactic(auto, unfolding(crate::specs::Polygons::is_cut))]
fn is_cut(a: Offset, b: Offset) -> bool
    requires { AreOffsets a × AreOffsets b }
    ensures { result ≡ is_cut a b }
{
    is_cut_rising(a, b) | is_cut_rising(b, a)
}

#[tactic(auto, unfolding(crate::specs::Polygons::squared_distance))]
fn squared_distance(a: Offset) -> i64
    requires { AreOffsets a }
    ensures { result ≡ squared_distance a }
{
    let across = product(a.across, a.across);
    let up = product(a.up, a.up);
    sum(across, up)
}

#[tactic(auto, unfolding(crate::specs::Polygons::is_nearer))]
fn is_nearer(a: Offset, b: Offset) -> bool
    requires { AreOffsets a × AreOffsets b }
    ensures { result ≡ is_nearer a b }
{
    is_less(squared_distance(a), squared_distance(b))
}

// Returns corner i as the point sees it.
#[tactic(auto, unfolding(crate::specs::Polygons::offset_of))]
fn offset_of(corners: &[i64], x: i64, height: i64, i: usize) -> Offset
    requires { (i < corner_count corners.now) × InReach corners.now x height }
    ensures { (result ≡ offset_of corners.now x height i) × AreOffsets result }
{
    let across = difference(corners[2 * i], x);
    let up = difference(corners[2 * i + 1], height);
    Offset { across, up }
}

#[tactic(auto, unfolding(crate::specs::Polygons::is_on))]
fn is_on(corners: &[i64], x: i64, height: i64, i: usize) -> bool
    requires { (i < corner_count corners.now) × InReach corners.now x height }
    ensures { result ≡ is_on corners.now x height i }
{
    let n = corners.len() / 2;
    let from = offset_of(corners, x, height, i);
    let to = offset_of(corners, x, height, segments::next_point(n, i));
    lies_on(from, to)
}

#[tactic(auto, unfolding(crate::specs::Polygons::cuts))]
fn cuts(corners: &[i64], x: i64, height: i64, i: usize) -> bool
    requires { (i < corner_count corners.now) × InReach corners.now x height }
    ensures { result ≡ cuts corners.now x height i }
{
    let n = corners.len() / 2;
    let from = offset_of(corners, x, height, i);
    let to = offset_of(corners, x, height, segments::next_point(n, i));
    is_cut(from, to)
}

// Returns the nearer one of the corners `best` and i, or `best` where they are equally far.
#[tactic(auto, unfolding(crate::specs::Polygons::nearer_of))]
fn nearer(corners: &[i64], x: i64, height: i64, best: usize, i: usize) -> usize
    requires { (best < corner_count corners.now) × (i < corner_count corners.now) × InReach corners.now x height }
    ensures { (result ≡ nearer_of corners.now x height best i) × (result < corner_count corners.now) }
{
    if is_nearer(
        offset_of(corners, x, height, i),
        offset_of(corners, x, height, best),
    ) {
        return i;
    }
    best
}

// Tells whether the point lies on an edge.
#[tactic(auto, unfolding(crate::specs::Polygons::is_on_edge, crate::specs::Polygons::some))]
pub fn is_on_edge(corners: &[i64], x: i64, height: i64) -> bool
    requires { InReach corners.now x height }
    ensures { result ≡ is_on_edge corners.now x height }
{
    let n = corners.len() / 2;
    let mut on_edge = false;
    for i in 0..n {
        on_edge = on_edge | is_on(corners, x, height, i);
    }
    on_edge
}

// Tells whether an odd number of edges is cut to the right of the point.
#[tactic(auto, unfolding(crate::specs::Polygons::is_inside, crate::specs::Polygons::count))]
pub fn is_inside(corners: &[i64], x: i64, height: i64) -> bool
    requires { InReach corners.now x height }
    ensures { result ≡ is_inside corners.now x height }
{
    let n = corners.len() / 2;
    let mut cut: usize = 0;
    for i in 0..n {
        cut = cut + cuts(corners, x, height, i) as usize;
    }
    cut % 2 == 1
}

// Returns the position of the nearest corner, counted from 0; of equally near ones the lowest.
#[tactic(auto, unfolding(crate::specs::Polygons::nearest_corner, crate::specs::Polygons::nearest_to))]
pub fn nearest_corner(corners: &[i64], x: i64, height: i64) -> usize
    requires { (0 < corner_count corners.now) × InReach corners.now x height }
    ensures { result ≡ nearest_corner corners.now x height }
{
    let n = corners.len() / 2;
    let mut nearest: usize = 0;
    for i in 1..n {
        nearest = nearer(corners, x, height, nearest, i);
    }
    nearest
}
