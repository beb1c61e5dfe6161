// The principal moments of a tensor: its eigenvalues, ascending (mass.rs, `principal_moments_kg_m2`).
//
// The method is cyclic Jacobi: each sweep turns the planes (0, 1), (0, 2), (1, 2), in that order, into Jᵀ A J with the
// rotation J of Golub and Van Loan, Matrix Computations, algorithm 8.5.1, so that the entry of the plane becomes small.
// As in the Rust, the entry is not set to 0, and both triangles are kept: the sweeps work on nine numbers in columns,
// where row i of column j is number 3 j + i.
#![tactic(auto)]

ghost use Rattle.std.specs.Prelude.{◌≡◌, [], ◌∷◌, ◌<◌};
ghost use Rattle.moments.specs.Moments.{entry_fits, entries_fit, tangent_of, rotation_of, turn_pair, turn_columns};
ghost use Rattle.moments.specs.Moments.{turn_rows, rotate, sweep, off_diagonal, sweeps, insert_moment, ascending};
ghost use Rattle.moments.specs.Moments.{eigenvalues_of, IsMoments, principal_moments_of};

use bodies::{Matrix, Tensor};
use refusals::{Refusal, TensorFault};

// The cosine and the sine of a rotation's angle.
#[derive(Clone, Copy)]
struct Rotation {
    cosine: f64,
    sine: f64,
}

const LARGEST_ENTRY: f64 = 3.273390607896142e150;

const SWEEPS: usize = 32;

// Returns the principal moments of a tensor in kg·m², ascending. One with an entry that is not finite, or over 2^500 in
// magnitude, is refused with 17a.
pub fn principal_moments(tensor: Tensor) -> Result<[f64; 3], Refusal>
    ensures { IsMoments result (principal_moments_of tensor) }
{
    if entries_fit(tensor) {
        return Ok(eigenvalues(tensor));
    }
    Err(Refusal::Tensor(TensorFault::Entry))
}

// Tells whether every entry is finite and at most 2^500 in magnitude.
pub fn entries_fit(tensor: Tensor) -> bool
    ensures { result ≡ entries_fit tensor }
{
    let a = tensor.0;
    for entry in &a {
        if !entry_fits(*entry) {
            return false;
        }
    }
    true
}

fn entry_fits(x: f64) -> bool
    ensures { result ≡ entry_fits x }
{
    floats::is_finite(x) && !(LARGEST_ENTRY < floats::abs(x))
}

// Returns the eigenvalues of a tensor, ascending.
#[tactic(auto, unfolding(crate::specs::Moments::eigenvalues_of))]
pub fn eigenvalues(tensor: Tensor) -> [f64; 3]
    ensures { result ≡ eigenvalues_of tensor }
{
    let diagonal = run_sweeps(tensor.as_matrix());
    let a = diagonal.0;
    sort(a[0], a[4], a[8])
}

// Returns the matrix after sweeps, 32 at most, until the off-diagonal sum is 0.
fn run_sweeps(start: Matrix) -> Matrix
    ensures { result ≡ sweeps 32 start }
{
    let mut matrix = start;
    for _ in 0..SWEEPS {
        if off_diagonal(matrix) == 0.0 {
            return matrix;
        }
        matrix = sweep_once(matrix);
    }
    matrix
}

fn off_diagonal(matrix: Matrix) -> f64
    ensures { result ≡ off_diagonal matrix }
{
    let a = matrix.0;
    floats::abs(a[3]) + floats::abs(a[6]) + floats::abs(a[7])
}

#[tactic(auto, unfolding(crate::specs::Moments::sweep))]
fn sweep_once(matrix: Matrix) -> Matrix
    ensures { result ≡ sweep matrix }
{
    rotate_plane(rotate_plane(rotate_plane(matrix, 0, 1), 0, 2), 1, 2)
}

// Returns Jᵀ A J for the plane (p, q), or the matrix as it is where the entry of the plane is 0.
#[tactic(auto, unfolding(crate::specs::Moments::rotate))]
fn rotate_plane(matrix: Matrix, p: usize, q: usize) -> Matrix
    requires { (p < 3) × (q < 3) }
    ensures { result ≡ rotate p q matrix }
{
    let a = matrix.0;
    let apq = a[3 * q + p];
    if apq == 0.0 {
        return matrix;
    }
    let turn = symmetric_schur(a[3 * p + p], apq, a[3 * q + q]);
    turn_rows(turn_columns(matrix, p, q, turn), p, q, turn)
}

// Returns A J: it turns, in each row, the numbers in columns p and q.
#[tactic(auto, unfolding(crate::specs::Moments::turn_columns))]
fn turn_columns(matrix: Matrix, p: usize, q: usize, turn: Rotation) -> Matrix
    requires { (p < 3) × (q < 3) }
    ensures { result ≡ turn_columns turn p q matrix }
{
    let row0 = turn_pair(matrix, 3 * p, 3 * q, turn);
    let row1 = turn_pair(row0, 3 * p + 1, 3 * q + 1, turn);
    turn_pair(row1, 3 * p + 2, 3 * q + 2, turn)
}

// Returns Jᵀ A: it turns, in each column, the numbers in rows p and q.
#[tactic(auto, unfolding(crate::specs::Moments::turn_rows))]
fn turn_rows(matrix: Matrix, p: usize, q: usize, turn: Rotation) -> Matrix
    requires { (p < 3) × (q < 3) }
    ensures { result ≡ turn_rows turn p q matrix }
{
    let column0 = turn_pair(matrix, p, q, turn);
    let column1 = turn_pair(column0, 3 + p, 3 + q, turn);
    turn_pair(column1, 6 + p, 6 + q, turn)
}

// Returns the matrix where the numbers x at i and y at j have become c x − s y and s x + c y.
#[tactic(auto, unfolding(crate::specs::Moments::turn_pair))]
fn turn_pair(matrix: Matrix, i: usize, j: usize, turn: Rotation) -> Matrix
    requires { (i < 9) × (j < 9) }
    ensures { result ≡ turn_pair turn i j matrix }
{
    let a = matrix.0;
    let x = a[i];
    let y = a[j];
    let mut b = a;
    b[i] = turn.cosine * x - turn.sine * y;
    b[j] = turn.sine * x + turn.cosine * y;
    Matrix(b)
}

// Returns the rotation for the entries app, apq, aqq of a plane.
#[tactic(auto, unfolding(crate::specs::Moments::rotation_of))]
fn symmetric_schur(app: f64, apq: f64, aqq: f64) -> Rotation
    ensures { result ≡ rotation_of app apq aqq }
{
    let t = tangent((aqq - app) / (2.0 * apq));
    let cosine = 1.0 / root::sqrt(1.0 + t * t);
    Rotation {
        cosine,
        sine: t * cosine,
    }
}

// Returns the tangent of the rotation's angle: of the two roots of t² + 2 τ t − 1, the smaller in magnitude.
fn tangent(tau: f64) -> f64
    ensures { result ≡ tangent_of tau }
{
    let root = root::sqrt(1.0 + tau * tau);
    if 0.0 <= tau {
        return 1.0 / (tau + root);
    }
    1.0 / (tau - root)
}

// Returns three numbers, ascending, by insertion. Of two zeros, whose order document 01 leaves free, the first given
// stays first.
#[tactic(auto, unfolding(crate::specs::Moments::insert_moment, crate::specs::Moments::insert_all))]
fn sort(x: f64, y: f64, z: f64) -> [f64; 3]
    ensures { result ≡ ascending (x ∷ y ∷ z ∷ []) }
{
    if y < x {
        return insert_third(y, x, z);
    }
    insert_third(x, y, z)
}

#[tactic(auto, unfolding(crate::specs::Moments::insert_moment))]
fn insert_third(x: f64, y: f64, z: f64) -> [f64; 3]
    ensures { result ≡ insert_moment z (x ∷ y ∷ []) }
{
    if z < x {
        return [z, x, y];
    }
    if z < y {
        return [x, z, y];
    }
    [x, y, z]
}
