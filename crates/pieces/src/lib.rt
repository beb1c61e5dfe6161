// Pieces in the lent scratch (document 01, "Piece and tally"): sixteen numbers each, start, end, seven values, seven
// errors.
#![tactic(auto)]

ghost use Rattle.std.specs.Prelude.{◌≡◌, ◌+◌, ◌*◌, ◌≤◌, length};
ghost use Rattle.floats.specs.Operations.{◌⊕◌, at, tabulate};
ghost use Rattle.limits.specs.Limits.{piece_numbers};
ghost use Rattle.pieces.specs.Stored.{numbers_of, piece_in, read_at, put_at};

use limits::PIECE_NUMBERS;
use quadrature::Piece;

// Returns the piece that sixteen numbers hold.
fn load(s: &[f64]) -> Piece
    requires { length s.now ≡ piece_numbers }
    ensures { result ≡ piece_in s.now }
{
    let value = [s[2], s[3], s[4], s[5], s[6], s[7], s[8]];
    let error = [s[9], s[10], s[11], s[12], s[13], s[14], s[15]];
    Piece {
        start: s[0],
        end: s[1],
        value,
        error,
    }
}

// Writes seven numbers over those of a slice.
fn store_seven(s: &mut [f64], v: [f64; 7])
    requires { length s.old ≡ 7 }
    ensures { s.new ≡ tabulate 7 (at v) }
{
    s.copy_from_slice(&v);
}

fn store(s: &mut [f64], p: Piece)
    requires { length s.old ≡ piece_numbers }
    ensures { s.new ≡ numbers_of p }
{
    let v = p.value;
    let e = p.error;
    s[0] = p.start;
    s[1] = p.end;
    store_seven(&mut s[2..9], v);
    store_seven(&mut s[9..PIECE_NUMBERS], e);
}

// Returns the piece at place i of the scratch.
pub fn read(scratch: &[f64], i: usize) -> Piece
    requires { i * piece_numbers + piece_numbers ≤ length scratch.now }
    ensures { result ≡ read_at scratch.now i }
{
    let o = i * PIECE_NUMBERS;
    let e = o + PIECE_NUMBERS;
    load(&scratch[o..e])
}

pub fn write(scratch: &mut [f64], i: usize, p: Piece)
    requires { i * piece_numbers + piece_numbers ≤ length scratch.old }
    ensures { scratch.new ≡ put_at scratch.old i p }
{
    let o = i * PIECE_NUMBERS;
    let e = o + PIECE_NUMBERS;
    store(&mut scratch[o..e], p)
}

// Returns the sums of seven components and seven others, one by one.
pub fn plus(x: [f64; 7], y: [f64; 7]) -> [f64; 7]
    ensures { result ≡ tabulate 7 (λ k. at x k ⊕ at y k) }
{
    [
        x[0] + y[0],
        x[1] + y[1],
        x[2] + y[2],
        x[3] + y[3],
        x[4] + y[4],
        x[5] + y[5],
        x[6] + y[6],
    ]
}
