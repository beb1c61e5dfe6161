// One piece by the 15-point Gauss-Kronrod rule (quadrature.rs, `rule`; document 01, "Piece and tally").
//
// The rule is QUADPACK's qk15: R. Piessens, E. de Doncker-Kapenga, C. Überhuber and D. Kahaner, QUADPACK: A Subroutine
// Package for Automatic Integration, Springer, 1983. QUADPACK scales the difference of the two sums to estimate the
// error; here the error is the difference itself.
//
// With centre c and half-width h, K and G are the sums of the samples times the Kronrod and the Gauss weights. A
// component's value is h*K and its error |h*(K - G)|. An integrand gives seven components; an area run uses three of
// them, the rest are zero.
#![tactic(auto)]

ghost use Rattle.std.specs.Prelude.{◌≡◌};
ghost use Rattle.floats.specs.Operations.{◌⊖◌, ◌⊗◌, at, tabulate};
ghost use Rattle.floats.specs.Floats.{abs_of};
ghost use Rattle.limits.specs.Limits.{piece_samples};
ghost use Rattle.integrands.specs.Integrands.{sample_of};
ghost use Rattle.quadrature.specs.Rule.{heights_to, kronrod_weight, gauss_weight, measurement_of};
ghost use Rattle.quadrature.specs.Tally.{FoundTo, HoldingTo, EdgesNear, WithinTo, weights_to, plus_weighted};
ghost use Rattle.quadrature.specs.Tally.{tally_of};

use chords::Chords;
use integrands::Integrand;
use limits::{MOST_POINTS, PIECE_SAMPLES};
use planforms::Planform;

// A part of a strip with its integral and that integral's error estimate.
#[derive(Clone, Copy)]
pub struct Piece {
    pub start: f64,
    pub end: f64,
    pub value: [f64; 7],
    pub error: [f64; 7],
}

// The answer of the rule: a piece, and how many samples were taken of it.
#[derive(Clone, Copy)]
pub struct Measurement {
    pub piece: Piece,
    pub samples: usize,
}

// The weighted sums over the samples, and how many samples there are.
#[derive(Clone, Copy)]
struct Tally {
    kronrod: [f64; 7],
    gauss: [f64; 7],
    samples: usize,
}

fn plus_weighted(sum: [f64; 7], weight: f64, y: [f64; 7]) -> [f64; 7]
    ensures { result ≡ plus_weighted sum weight y }
{
    [
        sum[0] + weight * y[0],
        sum[1] + weight * y[1],
        sum[2] + weight * y[2],
        sum[3] + weight * y[3],
        sum[4] + weight * y[4],
        sum[5] + weight * y[5],
        sum[6] + weight * y[6],
    ]
}

// Returns the heights of the samples: the centre, then for each node the minus side, then the plus side.
fn sample_heights(centre: f64, half: f64) -> [f64; PIECE_SAMPLES]
    ensures { result ≡ heights_to 7 centre half }
{
    let x0 = half * gauss_kronrod::node(0);
    let x1 = half * gauss_kronrod::node(1);
    let x2 = half * gauss_kronrod::node(2);
    let x3 = half * gauss_kronrod::node(3);
    let x4 = half * gauss_kronrod::node(4);
    let x5 = half * gauss_kronrod::node(5);
    let x6 = half * gauss_kronrod::node(6);
    [
        centre,
        centre - x0,
        centre + x0,
        centre - x1,
        centre + x1,
        centre - x2,
        centre + x2,
        centre - x3,
        centre + x3,
        centre - x4,
        centre + x4,
        centre - x5,
        centre + x5,
        centre - x6,
        centre + x6,
    ]
}

// Returns the Kronrod weights of the samples, in the same order.
fn kronrod_weights() -> [f64; PIECE_SAMPLES]
    ensures { result ≡ weights_to 7 kronrod_weight }
{
    let w0 = gauss_kronrod::kronrod_weight(0);
    let w1 = gauss_kronrod::kronrod_weight(1);
    let w2 = gauss_kronrod::kronrod_weight(2);
    let w3 = gauss_kronrod::kronrod_weight(3);
    let w4 = gauss_kronrod::kronrod_weight(4);
    let w5 = gauss_kronrod::kronrod_weight(5);
    let w6 = gauss_kronrod::kronrod_weight(6);
    let w7 = gauss_kronrod::kronrod_weight(7);
    [w7, w0, w0, w1, w1, w2, w2, w3, w3, w4, w4, w5, w5, w6, w6]
}

// Returns the Gauss weights of the samples, in the same order. The table's four are those of the nodes 1, 3, 5 and 7;
// an even node's is 0, which is added times the sample as in the Rust.
fn gauss_weights() -> [f64; PIECE_SAMPLES]
    ensures { result ≡ weights_to 7 gauss_weight }
{
    let w1 = gauss_kronrod::gauss_weight(0);
    let w3 = gauss_kronrod::gauss_weight(1);
    let w5 = gauss_kronrod::gauss_weight(2);
    let w7 = gauss_kronrod::gauss_weight(3);
    [
        w7, 0.0, 0.0, w1, w1, 0.0, 0.0, w3, w3, 0.0, 0.0, w5, w5, 0.0, 0.0,
    ]
}

// The least and the largest height of a piece's samples, in metres.
#[derive(Clone, Copy)]
struct Bounds {
    lo: f64,
    hi: f64,
}

fn bounds_m(scale: f64, heights: [f64; PIECE_SAMPLES]) -> Bounds
    ensures { WithinTo piece_samples scale heights result.lo result.hi }
{
    let mut lo = heights[0] * scale;
    let mut hi = lo;
    for i in 1..PIECE_SAMPLES {
        let h = heights[i] * scale;
        if h < lo {
            lo = h;
        }
        if hi < h {
            hi = h;
        }
    }
    Bounds { lo, hi }
}

// Lists the edges of an outline that a height between a piece's least and largest can cross, once for the whole piece,
// and returns how many there are. Another planform has no edges.
fn edges_near(
    integrand: Integrand,
    points: &[f64],
    heights: [f64; PIECE_SAMPLES],
    edges: &mut [u8; MOST_POINTS],
) -> usize
    ensures { EdgesNear integrand points.now heights edges.new result }
{
    let planform = integrand.planform;
    if let Planform::Outline = planform {
        let bounds = bounds_m(integrand.scale, heights);
        return chords::edges_near(points, bounds.lo, bounds.hi, edges);
    }
    0
}

// Returns the chords at each of the heights. They are found before any sample is worked, so that the root and the
// divisions of one chord go on beside those of the next.
fn chords_found(
    integrand: Integrand,
    points: &[f64],
    edges: &[u8],
    heights: [f64; PIECE_SAMPLES],
) -> [Chords; PIECE_SAMPLES]
    requires { HoldingTo piece_samples integrand points.now heights edges.now }
    ensures { FoundTo piece_samples integrand points.now heights result }
{
    let mut found = [Chords::Nothing; PIECE_SAMPLES];
    for i in 0..PIECE_SAMPLES {
        found[i] = integrands::chords_at(integrand, points, edges, heights[i]);
    }
    found
}

// Returns the sums over the fifteen samples, which are counted as they are worked. No sample is tested: every one of an
// accepted fin is finite (document 02, Paper 14).
fn sums(integrand: Integrand, points: &[f64], centre: f64, half: f64) -> Tally
    ensures { result ≡ tally_of (sample_of integrand points.now) centre half }
{
    let heights = sample_heights(centre, half);
    let mut edges = [0; MOST_POINTS];
    let n = edges_near(integrand, points, heights, &mut edges);
    let found = chords_found(integrand, points, &edges[..n], heights);
    let kw = kronrod_weights();
    let gw = gauss_weights();
    let mut kronrod = [0.0; 7];
    let mut gauss = [0.0; 7];
    for j in 0..PIECE_SAMPLES {
        let kind = integrand.kind;
        let scale = integrand.scale;
        let h = heights[j];
        let one = found[j];
        let y = integrands::values_over(one, kind, scale, points, &edges[..n], h);
        // Two lines each: the check does not cover a call's array laid straight into a variable of the loop.
        let k = plus_weighted(kronrod, kw[j], y);
        let g = plus_weighted(gauss, gw[j], y);
        kronrod = k;
        gauss = g;
    }
    Tally {
        kronrod,
        gauss,
        samples: PIECE_SAMPLES,
    }
}

fn scaled(half: f64, k: [f64; 7]) -> [f64; 7]
    ensures { result ≡ tabulate 7 (λ i. half ⊗ at k i) }
{
    [
        half * k[0],
        half * k[1],
        half * k[2],
        half * k[3],
        half * k[4],
        half * k[5],
        half * k[6],
    ]
}

fn difference(half: f64, k: f64, g: f64) -> f64
    ensures { result ≡ abs_of (half ⊗ (k ⊖ g)) }
{
    floats::abs(half * (k - g))
}

fn differences(half: f64, k: [f64; 7], g: [f64; 7]) -> [f64; 7]
    ensures { result ≡ tabulate 7 (λ i. abs_of (half ⊗ (at k i ⊖ at g i))) }
{
    [
        difference(half, k[0], g[0]),
        difference(half, k[1], g[1]),
        difference(half, k[2], g[2]),
        difference(half, k[3], g[3]),
        difference(half, k[4], g[4]),
        difference(half, k[5], g[5]),
        difference(half, k[6], g[6]),
    ]
}

// Returns the piece from start to end, with the number of samples taken of it.
pub fn rule(integrand: Integrand, points: &[f64], start: f64, end: f64) -> Measurement
    ensures { result ≡ measurement_of (sample_of integrand points.now) start end }
{
    let centre = 0.5 * (start + end);
    let half = 0.5 * (end - start);
    let tally = sums(integrand, points, centre, half);
    let k = tally.kronrod;
    let g = tally.gauss;
    let value = scaled(half, k);
    let error = differences(half, k, g);
    let piece = Piece {
        start,
        end,
        value,
        error,
    };
    Measurement {
        piece,
        samples: tally.samples,
    }
}
