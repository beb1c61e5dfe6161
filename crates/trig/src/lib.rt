// Sine and cosine of every f64, by the steps of document 01 ("Stand-ins", "Sine and cosine of f"); Rust's `sin_cos`.
//
// With m the whole number nearest f·2/π, r = f − m·π/2 lies within an eighth turn of 0; π/2 is taken as A + B, so that
// m·A is exact for the m of ordinary angles. Both series are worked at r, from the last term inwards, and m mod 4 says
// which is the sine, and with which sign.
#![tactic(auto)]

ghost use Rattle.std.specs.Prelude.{◌≡◌, ◌-◌, ◌*◌, ◌^◌, ◌≤◌, ◌<◌};
ghost use Rattle.std.specs.Float.{binary64};
ghost use Rattle.std.specs.Float.Ieee.{of_int};
ghost use Rattle.floats.specs.Operations.{◌⊗◌, whole, at};
ghost use Rattle.trig.specs.Trig.{nearest_whole, signed, m_of, steps, sine_divisors, cosine_divisors, mod_four};
ghost use Rattle.trig.specs.Trig.{quarter_of, by_quarter, sin_of, cos_of};

const TWO_OVER_PI: f64 = 0.6366197723675814;

// A, the f64 with bits 3ff921fb54400000.
const HALF_PI_HIGH: f64 = 1.5707963267341256;

// B, the f64 with bits 3dd0b4611a626331.
const HALF_PI_LOW: f64 = 6.077100506506192e-11;

const SINE_DIVISORS: [f64; 8] = [272.0, 210.0, 156.0, 110.0, 72.0, 42.0, 20.0, 6.0];

const COSINE_DIVISORS: [f64; 8] = [240.0, 182.0, 132.0, 90.0, 56.0, 30.0, 12.0, 2.0];

#[derive(Clone, Copy)]
pub struct SinCos {
    pub sin: f64,
    pub cos: f64,
}

// Returns the sine and the cosine of f radians, or two NaNs where f is not finite. The steps are worked for every f,
// and for an f of very many turns what they give is far from the true sine.
pub fn sin_cos(f: f64) -> SinCos
    ensures { (result.sin ≡ sin_of f) × (result.cos ≡ cos_of f) }
{
    let whole = nearest_whole(f * TWO_OVER_PI);
    let m = whole.m;
    let r = f - m * HALF_PI_HIGH - m * HALF_PI_LOW;
    by_quarter(whole.quarter, r, series(r * r))
}

// Returns the sine's series and the cosine's: from v = 1, v = 1 − (z/d)·v for each divisor d in order. The two go on
// side by side, so that the machine divides both at once.
fn series(z: f64) -> [f64; 2]
    ensures { (at result 0 ≡ steps z sine_divisors (whole 1)) × (at result 1 ≡ steps z cosine_divisors (whole 1)) }
{
    let mut v = [1.0, 1.0];
    for i in 0..8 {
        let sine = 1.0 - z / SINE_DIVISORS[i] * v[0];
        let cosine = 1.0 - z / COSINE_DIVISORS[i] * v[1];
        v = [sine, cosine];
    }
    v
}

// Returns sine and cosine from the two series at r, by m mod 4. In a turn's odd quarters the cosine's series gives the
// sine.
fn by_quarter(quarter: u64, r: f64, both: [f64; 2]) -> SinCos
    requires { quarter < 4 }
    ensures { result ≡ by_quarter quarter (r ⊗ at both 0) (at both 1) }
{
    let place = (quarter % 2) as usize;
    let of_sine = both[place];
    let of_cosine = both[1 - place];
    match quarter {
        0 => SinCos {
            sin: r * of_sine,
            cos: of_cosine,
        },
        1 => SinCos {
            sin: of_sine,
            cos: -(r * of_cosine),
        },
        2 => SinCos {
            sin: -(r * of_sine),
            cos: -of_cosine,
        },
        _ => SinCos {
            sin: -of_sine,
            cos: r * of_cosine,
        },
    }
}

// A whole number m as an f64, and m mod 4.
#[derive(Clone, Copy)]
struct Whole {
    m: f64,
    quarter: u64,
}

// Returns the whole number m nearest q, halves away from zero. It goes by the exponent field of q's bits, which is 1023
// more than the exponent.
fn nearest_whole(q: f64) -> Whole
    ensures { (result.m ≡ m_of q) × (result.quarter ≡ quarter_of q) }
{
    let b = floats::to_bits(q);
    let exponent = b % 0x8000_0000_0000_0000 / 0x10_0000_0000_0000;
    // |q| is below one half: m is 0, and not −0.
    if exponent < 1022 {
        return Whole { m: 0.0, quarter: 0 };
    }
    // q is not finite.
    if exponent == 2047 {
        return Whole {
            m: 0.0 / 0.0,
            quarter: 0,
        };
    }
    // |q| is 2^54 or more: a multiple of 4.
    if 1077 <= exponent {
        return Whole { m: q, quarter: 0 };
    }
    let negative = 0x8000_0000_0000_0000 <= b;
    let n = nearest_magnitude(exponent, 0x10_0000_0000_0000 + b % 0x10_0000_0000_0000);
    let quarter = modulo_four(negative, n);
    // |q| is 2^52 or more: a whole number.
    if 1075 <= exponent {
        return Whole { m: q, quarter };
    }
    let m = signed_number(negative, n);
    Whole { m, quarter }
}

// Returns the whole number nearest x = digits·2^(exponent − 1) / 2^1074, halves up. Below 2^52 it is x + 1/2, cut:
// twice x, cut, then 1 more, halved.
fn nearest_magnitude(exponent: u64, digits: u64) -> u64
    requires { (1022 ≤ exponent) × (exponent < 1077) × (digits < 2 ^ 53) }
    ensures { result ≡ nearest_whole (digits * 2 ^ (exponent - 1)) (2 ^ 1074) }
{
    if exponent < 1075 {
        return ((digits >> (1074 - exponent)) + 1) / 2;
    }
    digits << (exponent - 1075)
}

// Returns n mod 4, or −n mod 4, never negative.
fn modulo_four(negative: bool, n: u64) -> u64
    ensures { result ≡ mod_four (signed negative n) }
{
    let k = n % 4;
    if negative { (4 - k) % 4 } else { k }
}

// Returns n, or −n, as an f64.
fn signed_number(negative: bool, n: u64) -> f64
    requires { (0 < n) × (n ≤ 2 ^ 53) }
    ensures { result ≡ of_int binary64 (signed negative n) }
{
    let m = n as f64;
    if negative { -m } else { m }
}
