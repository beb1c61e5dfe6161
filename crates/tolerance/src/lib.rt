// How pieces stand against the tolerance (quadrature.rs, the middle of `integrate`; document 01, "Piece and tally").
//
// The summed error of each component is held against its bound, max(1e-16, 1e-12 |summed value|). A piece's score is
// its largest error over bound; the worst piece, and the worst component, is the last with the highest. QUADPACK's QAG
// (see `halving`) compares one component's error with max(absolute, relative·|value|) in the same way, without a score.
#![tactic(auto)]

ghost use Rattle.std.specs.Prelude.{◌≡◌, ◌*◌, ◌-◌, ◌<◌, ◌≤◌, length, false};
ghost use Rattle.std.specs.Float.Ieee.{le, ne};
ghost use Rattle.floats.specs.Floats.{max_of};
ghost use Rattle.floats.specs.Operations.{◌⊘◌, at, tabulate, every};
ghost use Rattle.limits.specs.Limits.{piece_numbers};
ghost use Rattle.pieces.specs.Stored.{read_at, pieces_in};
ghost use Rattle.tolerance.specs.Bounds.{bound_for, score_of, last_highest};
ghost use Rattle.tolerance.specs.Steps.{with_piece, sums_of, higher_of, keeps_order, larger_error, seen_with};

use quadrature::Piece;

const ABSOLUTE: f64 = 1e-16;

const RELATIVE: f64 = 1e-12;

// The summed values and errors of each component.
#[derive(Clone, Copy)]
pub struct Sums {
    pub value: [f64; 7],
    pub error: [f64; 7],
}

#[tactic(auto, unfolding(crate::specs::Steps::with_piece))]
fn add_piece(sums: Sums, p: Piece) -> Sums
    ensures { result ≡ with_piece sums p }
{
    let v = sums.value;
    let e = sums.error;
    let pv = p.value;
    let pe = p.error;
    let value = pieces::plus(v, pv);
    let error = pieces::plus(e, pe);
    Sums { value, error }
}

// Returns the sums over the first n pieces, in storage order.
pub fn total(scratch: &[f64], n: usize) -> Sums
    requires { n * piece_numbers ≤ length scratch.now }
    ensures { result ≡ sums_of (pieces_in n scratch.now) }
{
    let mut sums = Sums {
        value: [0.0; 7],
        error: [0.0; 7],
    };
    for i in 0..n {
        sums = add_piece(sums, pieces::read(scratch, i));
    }
    sums
}

fn bound(total: f64) -> f64
    ensures { result ≡ bound_for total }
{
    floats::max(ABSOLUTE, RELATIVE * floats::abs(total))
}

pub fn bounds(total: [f64; 7]) -> [f64; 7]
    ensures { result ≡ tabulate 7 (λ k. bound_for (at total k)) }
{
    [
        bound(total[0]),
        bound(total[1]),
        bound(total[2]),
        bound(total[3]),
        bound(total[4]),
        bound(total[5]),
        bound(total[6]),
    ]
}

#[tactic(auto, unfolding(floats::specs::Operations::every))]
pub fn all_within(e: [f64; 7], b: [f64; 7]) -> bool
    ensures { result ≡ every 7 (λ k. le (at e k) (at b k)) }
{
    (e[0] <= b[0])
        & (e[1] <= b[1])
        & (e[2] <= b[2])
        & (e[3] <= b[3])
        & (e[4] <= b[4])
        & (e[5] <= b[5])
        & (e[6] <= b[6])
}

// Returns the larger of a piece's score so far and its next error over bound.
fn larger(score: f64, e: f64, b: f64) -> f64
    requires { ne score score ≡ false }
    ensures { (result ≡ max_of score (e ⊘ b)) × (ne result result ≡ false) }
{
    let ratio = e / b;
    if score < ratio { ratio } else { score }
}

// Returns a piece's largest error over bound.
fn score(p: Piece, b: [f64; 7]) -> f64
    ensures { result ≡ score_of 7 (at b) p }
{
    let e = p.error;
    let s0 = larger(0.0, e[0], b[0]);
    let s1 = larger(s0, e[1], b[1]);
    let s2 = larger(s1, e[2], b[2]);
    let s3 = larger(s2, e[3], b[3]);
    let s4 = larger(s3, e[4], b[4]);
    let s5 = larger(s4, e[5], b[5]);
    larger(s5, e[6], b[6])
}

// The highest number so far and its place.
#[derive(Clone, Copy)]
struct Highest {
    number: f64,
    place: usize,
}

// Returns the higher number and its place, on equal numbers the later place. A NaN counts as the highest.
#[tactic(auto, unfolding(crate::specs::Steps::higher_of))]
fn higher(highest: Highest, number: f64, place: usize) -> Highest
    ensures { result ≡ higher_of highest number place }
{
    if number != number {
        return Highest { number, place };
    }
    if highest.number <= number {
        Highest { number, place }
    } else {
        highest
    }
}

// The least and the largest bound that keep the order of errors: between them a bound is above 0 and finite.
const SMALLEST: f64 = 1e-300;

const LARGEST: f64 = 1e300;

// Tells whether errors over these bounds stand in the order of the errors.
#[tactic(auto, unfolding(crate::specs::Steps::keeps_order, floats::specs::Operations::every))]
fn keep_order(b: [f64; 7]) -> bool
    ensures { result ≡ keeps_order b }
{
    all_within([SMALLEST; 7], b) & all_within(b, [LARGEST; 7])
}

fn larger_error(m: f64, e: f64) -> f64
    ensures { result ≡ larger_error m e }
{
    if m < e { e } else { m }
}

fn larger_errors(m: [f64; 7], e: [f64; 7]) -> [f64; 7]
    ensures { result ≡ tabulate 7 (λ k. larger_error (at m k) (at e k)) }
{
    [
        larger_error(m[0], e[0]),
        larger_error(m[1], e[1]),
        larger_error(m[2], e[2]),
        larger_error(m[3], e[3]),
        larger_error(m[4], e[4]),
        larger_error(m[5], e[5]),
        larger_error(m[6], e[6]),
    ]
}

// Of the pieces from a place on: the highest score, its last place, and the largest error of each component.
#[derive(Clone, Copy)]
struct Extremes {
    number: f64,
    place: usize,
    errors: [f64; 7],
}

// Returns what is seen with one piece more, before those seen. Where none of its errors is above the largest seen,
// neither is its score, and nothing is divided.
#[tactic(auto, unfolding(crate::specs::Steps::seen_with))]
fn seen_with(seen: Extremes, p: Piece, b: [f64; 7], ordered: bool, place: usize) -> Extremes
    ensures { result ≡ seen_with seen p b ordered place }
{
    let e = p.error;
    let m = seen.errors;
    if ordered & all_within(e, m) {
        return seen;
    }
    let errors = larger_errors(m, e);
    let number = score(p, b);
    if number <= seen.number {
        Extremes {
            number: seen.number,
            place: seen.place,
            errors,
        }
    } else {
        Extremes {
            number,
            place,
            errors,
        }
    }
}

// Returns the place of the worst of n pieces, looked for from the last one down.
pub fn worst(scratch: &[f64], n: usize, b: [f64; 7]) -> usize
    requires { (1 ≤ n) × (n * piece_numbers ≤ length scratch.now) }
    ensures { (result ≡ last_highest (λ i. score_of 7 (at b) (read_at scratch.now i)) (n - 1)) × (result < n) }
{
    let ordered = keep_order(b);
    let end = n - 1;
    let last = pieces::read(scratch, end);
    let errors = last.error;
    let mut seen = Extremes {
        number: score(last, b),
        place: end,
        errors,
    };
    for i in (0..end).rev() {
        seen = seen_with(seen, pieces::read(scratch, i), b, ordered, i);
    }
    seen.place
}

// Returns the last component with the largest error over bound.
pub fn component(e: [f64; 7], b: [f64; 7]) -> usize
    ensures { result ≡ last_highest (λ k. at e k ⊘ at b k) 6 }
{
    let h0 = Highest {
        number: e[0] / b[0],
        place: 0,
    };
    let h1 = higher(h0, e[1] / b[1], 1);
    let h2 = higher(h1, e[2] / b[2], 2);
    let h3 = higher(h2, e[3] / b[3], 3);
    let h4 = higher(h3, e[4] / b[4], 4);
    let h5 = higher(h4, e[5] / b[5], 5);
    let h6 = higher(h5, e[6] / b[6], 6);
    h6.place
}
