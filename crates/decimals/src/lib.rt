// The f64 nearest to ±n / 10^k, of two as near the one with the even last bit (document 02, Paper 2).
//
// Up to 2^53 every whole number is an f64, and so is 10^k = 5^k * 2^k for every k that comes up: one division of f64s
// rounds to the nearest. A larger n is divided in whole numbers by 5^k, which leaves room for 22 binary digits at a
// time, until the quotient has 53, and is then rounded by its rest.
#![tactic(auto)]

ghost use Rattle.std.specs.Prelude.{◌≡◌, false};
ghost use Prim.Native.Nat.{◌+◌, ◌*◌, ◌^◌, ◌≤◌, ◌<◌, compare};
ghost use Rattle.std.specs.Float.{binary64};
ghost use Rattle.std.specs.Float.Ieee.{nearest, round};
ghost use Rattle.floats.specs.Nearest.{IsNearest};
ghost use Rattle.decimals.specs.Decimals.{decimal_of};
ghost use Rattle.decimals.specs.Parts.{WidenedTo, MoreDigits, DividedTo};

// 2^52: the leading one of 53 binary digits, and the weight of a bit pattern's exponent field.
const LEADING: u64 = 0x10_0000_0000_0000;

// 2^53: up to it every whole number is an f64.
const WHOLE: u64 = 0x20_0000_0000_0000;

// Returns the f64 nearest to n / 10^k, with the sign minus where `minus` is true.
pub fn nearest_decimal(minus: bool, n: u64, k: u64) -> f64
    requires { k ≤ 18 }
    ensures { (result ≡ decimal_of minus n k) × IsNearest minus n (10 ^ k) result }
{
    let x = magnitude(n, k);
    if minus { -x } else { x }
}

fn magnitude(n: u64, k: u64) -> f64
    requires { k ≤ 18 }
    ensures { result ≡ round binary64 false n (10 ^ k) }
{
    if WHOLE < n {
        return long_quotient(n, k);
    }
    n as f64 / (five_to(k) as f64 * two_to(k) as f64)
}

// Returns 5^k, as a power of 5^5 times one of at most 5^4.
fn five_to(k: u64) -> u64
    requires { k ≤ 18 }
    ensures { result ≡ 5 ^ k }
{
    high_power(k / 5) * low_power(k % 5)
}

// Returns 5^(5 * j).
fn high_power(j: u64) -> u64
    requires { j ≤ 3 }
    ensures { result ≡ 5 ^ (5 * j) }
{
    match j {
        0 => 1,
        1 => 3_125,
        2 => 9_765_625,
        _ => 30_517_578_125,
    }
}

// Returns 5^j.
fn low_power(j: u64) -> u64
    requires { j ≤ 4 }
    ensures { result ≡ 5 ^ j }
{
    match j {
        0 => 1,
        1 => 5,
        2 => 25,
        3 => 125,
        _ => 625,
    }
}

fn two_to(k: u64) -> u64
    requires { k ≤ 18 }
    ensures { result ≡ 2 ^ k }
{
    1 << k
}

// A divisor `by` that is a given one times 2^shift.
#[derive(Clone, Copy)]
struct Divisor {
    by: u64,
    shift: u64,
}

// Returns d doubled until it goes into n less than 2^53 times.
fn widened(n: u64, d: u64) -> Divisor
    requires { (0 < d) × (d ≤ 2 ^ 42) }
    ensures { WidenedTo n d result.by result.shift }
{
    let q = n / d;
    if q < WHOLE {
        return Divisor { by: d, shift: 0 };
    }
    let shift = (11 - u64::leading_zeros(q)) as u64;
    Divisor {
        by: d << shift,
        shift,
    }
}

// A quotient by some e, worked so far: n * 2^places is quotient * e + rest.
#[derive(Clone, Copy)]
struct Quotient {
    quotient: u64,
    rest: u64,
    places: u64,
}

// Works z more binary digits of the quotient by e.
fn more_digits(v: Quotient, e: u64, z: u64) -> Quotient
    requires { (v.quotient * 2 ^ z < 2 ^ 53) × (v.rest < e) × (e ≤ 2 ^ 42) × (z ≤ 21) × (v.places ≤ 21) }
    ensures { MoreDigits e z v.quotient v.rest v.places result.quotient result.rest result.places }
{
    let t = v.rest << z;
    Quotient {
        quotient: (v.quotient << z) + t / e,
        rest: t % e,
        places: v.places + z,
    }
}

// Returns n / e to 53 binary digits. Those that the whole quotient lacks are worked in two halves, as the rest has room
// for 22 at a time.
fn divided(n: u64, e: u64) -> Quotient
    requires { (2 ^ 53 ≤ n) × (0 < e) × (e ≤ 2 ^ 42) × (n < 2 ^ 53 * e) }
    ensures { DividedTo n e result.quotient result.rest result.places }
{
    let first = Quotient {
        quotient: n / e,
        rest: n % e,
        places: 0,
    };
    let places = (u64::leading_zeros(n / e) - 11) as u64;
    let half = places / 2;
    let v = more_digits(first, e, half);
    more_digits(v, e, places - half)
}

// Returns q + rest / e rounded to the nearest whole number, a tie to the even one.
fn to_nearest(q: u64, rest: u64, e: u64) -> u64
    requires { (q < 2 ^ 53) × (rest < e) × (e ≤ 2 ^ 42) }
    ensures { (result ≡ nearest q (compare (rest * 2) e)) × (result ≤ 2 ^ 53) }
{
    let twice = rest * 2;
    if twice < e {
        return q;
    }
    if e < twice {
        return q + 1;
    }
    q + q % 2
}

// Returns n / 10^k by its binary digits: (1074 + shift - k - places) * 2^52 + q is the bit pattern of q * 2^(shift - k
// - places).
fn long_quotient(n: u64, k: u64) -> f64
    requires { (2 ^ 53 ≤ n) × (k ≤ 18) }
    ensures { result ≡ round binary64 false n (10 ^ k) }
{
    let w = widened(n, five_to(k));
    let e = w.by;
    let v = divided(n, e);
    let q = to_nearest(v.quotient, v.rest, e);
    floats::from_bits((1074 + w.shift - k - v.places) * LEADING + q)
}
