// An f64 to some significant digits, correctly rounded, and of two equally near ones to that whose last digit is even:
// the counterpart of reading a decimal.
//
// A unit is 10^-1074. The smallest positive f64, 2^-1074, is 5^1074 units, so every finite f64 is a whole number of
// them, m * 2^j * 5^1074 with an m below 2^53: m * 5^(1074 - j) * 10^j, or m * 2^(j - 1074) * 10^1074. The digits of m
// * 5^k or m * 2^k are worked out, all of them, and the first few are rounded by the rest.
#![tactic(auto)]

ghost use Rattle.std.specs.Prelude.{◌++◌, ◌≡◌, ◌+◌, ◌-◌, ◌*◌, ◌^◌, ◌≤◌, ◌<◌, length, Bool, cond, T, eqb};
ghost use Rattle.floats.specs.Floats.{is_finite};
ghost use Rattle.floats.specs.Operations.{bits};
ghost use Rattle.significant.specs.Significant.{decimal_units_of, digits_of, place_of};
ghost use Rattle.texts.specs.Appended.{Appended};
ghost use Rattle.significant.specs.Printed.{pointed, fraction, exponent_text, scientific, placed, written};
ghost use Rattle.significant.specs.Printed.{magnitude_text, sign_text, signed_text, decimal_text};
ghost use Rattle.significant.specs.Digits.{value, Digits, times_plus, Top, Scales, nearest_digit, Enough, RoundsTo};

// 2^52: the leading one of 53 binary digits, and the weight of a bit pattern's exponent field.
const LEADING: u64 = 0x10_0000_0000_0000;

// 2^63: the weight of a bit pattern's sign.
const SIGN: u64 = 0x8000_0000_0000_0000;

// 10^16: the number is worked with 16 more digits than it has, so that up to 16 can be asked of any number.
const MORE: u64 = 10_000_000_000_000_000;

// Significant digits of an f64: digits * 10^place units.
#[derive(Clone, Copy)]
pub struct Significant {
    pub digits: u64,
    pub place: usize,
}

// Multiplies the number that the digits write, the least significant first, by `by` and adds `plus`, over as many
// digits as there are.
fn times_plus(digits: &mut [u8], by: u64, plus: u64)
    requires { (by ≤ 2 ^ 54) × (plus ≤ 2 ^ 59) }
    ensures { digits.new ≡ times_plus by plus digits.old }
{
    let mut carry = plus;
    for digit in digits.iter_mut() {
        let t = u64::from(*digit) * by + carry;
        *digit = (t % 10) as u8;
        carry = t / 10;
    }
}

// Multiplies the number that the digits write by base^k, where there is room for all of its digits.
fn times_power(digits: &mut [u8], base: u64, k: usize)
    requires { (base ≤ 5) × (0 < base) × Digits digits.old × (value digits.old * base ^ k < 10 ^ length digits.old) }
    ensures { Scales digits.old digits.new (base ^ k) }
{
    let mut left = k;
    while 0 < left {
        // 5^23 is below 2^54.
        let step = left.min(23);
        times_plus(digits, base.pow(step as u32), 0);
        left -= step;
    }
}

// Returns how many digits there are up to the last that is not 0.
fn top(digits: &[u8]) -> usize
    ensures { Top digits.now result }
{
    for i in (0..digits.len()).rev() {
        if digits[i] != 0 {
            return i + 1;
        }
    }
    0
}

// Returns the number that up to 16 digits write.
fn number(digits: &[u8]) -> u64
    requires { Digits digits.now × (length digits.now ≤ 16) }
    ensures { result ≡ value digits.now }
{
    let mut d: u64 = 0;
    for i in (0..digits.len()).rev() {
        d = d * 10 + u64::from(digits[i]);
    }
    d
}

// Rounds the first digits to the nearest whole number of their last place, a tie to the even one, by the digit after
// them and by whether there is more after that.
fn to_nearest(d: u64, next: u8, more: bool) -> u64
    requires { d < 10 ^ 16 }
    ensures { result ≡ nearest_digit d next more }
{
    if next < 5 {
        return d;
    }
    if 5 < next {
        return d + 1;
    }
    if more {
        return d + 1;
    }
    d + d % 2
}

// Returns n digits that may have been rounded up to 10^n, which are then 10^(n - 1) one place higher.
fn carried(d: u64, place: usize, n: usize) -> Significant
    requires { (1 ≤ n) × (n ≤ 16) × (place ≤ 2100) }
    ensures { (result.digits ≡ cond (eqb d (10 ^ n)) (10 ^ (n - 1)) d)
        × (result.place ≡ cond (eqb d (10 ^ n)) (place + 1) place) }
{
    if d == 10u64.pow(n as u32) {
        return Significant {
            digits: 10u64.pow(n as u32 - 1),
            place: place + 1,
        };
    }
    Significant { digits: d, place }
}

// Returns the first n of all digits, rounded. The number that all of them write, times 10^shift, is 10^16 times the
// number of units.
fn rounded(digits: &[u8], n: usize, shift: usize) -> Significant
    requires { Digits digits.now × (1 ≤ n) × (n ≤ 16) × (length digits.now + shift ≤ 2116)
        × Enough (value digits.now) shift }
    ensures { RoundsTo n (value digits.now) shift result.digits result.place }
{
    let c = top(digits);
    if c == 0 {
        return Significant {
            digits: 0,
            place: 0,
        };
    }
    let from = c - n;
    let d = number(&digits[from..c]);
    let last = from - 1;
    let more = 0 < top(&digits[..last]);
    let up = to_nearest(d, digits[last], more);
    carried(up, from + shift - 16, n)
}

// Returns m * base^k * 10^shift units to n digits, worked out in the digits that are lent.
fn spelled(digits: &mut [u8], m: u64, base: u64, k: usize, n: usize, shift: usize) -> Significant
    requires m_bound { (m < 2 ^ 53) × (0 < base) × (base ≤ 5) × (1 ≤ n) × (n ≤ 16) }
    requires digits_len { (length digits.old ≡ 33 + k) × (k + shift ≤ 2083) × (10 ^ 16 ≤ base ^ k * 10 ^ shift) }
    ensures { (result.digits ≡ digits_of n (m * base ^ k * 10 ^ shift))
        × (result.place ≡ place_of n (m * base ^ k * 10 ^ shift)) }
{
    times_plus(digits, 0, m);
    times_plus(digits, MORE, 0);
    times_power(digits, base, k);
    rounded(digits, n, shift)
}

// Returns m * 2^j * 5^1074 units to n digits.
fn worked(m: u64, j: usize, n: usize) -> Significant
    requires { (m < 2 ^ 53) × (j ≤ 2045) × (1 ≤ n) × (n ≤ 16) }
    ensures { (result.digits ≡ digits_of n (m * 2 ^ j * 5 ^ 1074))
        × (result.place ≡ place_of n (m * 2 ^ j * 5 ^ 1074)) }
{
    let mut digits = [0u8; 1107];
    if j < 1074 {
        let k = 1074 - j;
        return spelled(&mut digits[..33 + k], m, 5, k, n, j);
    }
    let k = j - 1074;
    spelled(&mut digits[..33 + k], m, 2, k, n, 1074)
}

// Returns the finite f64 with the bit pattern b to n digits, its sign left out.
fn of_bits(b: u64, n: usize) -> Significant
    requires { T (is_finite (bits b)) × (1 ≤ n) × (n ≤ 16) }
    ensures { (result.digits ≡ digits_of n (decimal_units_of (bits b)))
        × (result.place ≡ place_of n (decimal_units_of (bits b))) }
{
    let field = b % SIGN / LEADING;
    let t = b % LEADING;
    if field == 0 {
        return worked(t, 0, n);
    }
    worked(LEADING + t, (field - 1) as usize, n)
}

// Returns x to n significant digits, its sign left out; zero, and what is not finite, has none.
fn significant_digits(x: f64, n: usize) -> Significant
    requires { (1 ≤ n) × (n ≤ 16) }
    ensures { (result.digits ≡ digits_of n (decimal_units_of x)) × (result.place ≡ place_of n (decimal_units_of x)) }
{
    if floats::is_finite(x) {
        return of_bits(floats::to_bits(x), n);
    }
    worked(0, 0, n)
}

// Appends three texts, one after the other, to the `at` bytes at the start of out, and returns how many bytes there are
// then.
fn put_three(out: &mut [u8], at: usize, a: &[u8], b: &[u8], c: &[u8]) -> usize
    requires { at + (length a.now + (length b.now + length c.now)) ≤ length out.old }
    ensures { Appended out.old at (a.now ++ (b.now ++ c.now)) out.new result }
{
    let first = texts::put_bytes(out, at, a);
    let second = texts::put_bytes(out, first, b);
    texts::put_bytes(out, second, c)
}

// Appends digits with a point after the first i.
#[tactic(auto, unfolding(tokens::specs::Text::text, tokens::specs::Text::codes))]
fn put_pointed(out: &mut [u8], at: usize, ds: &[u8], i: usize) -> usize
    requires { (i ≤ length ds.now) × (at + length ds.now + 1 ≤ length out.old) }
    ensures { Appended out.old at (pointed ds.now i) out.new result }
{
    put_three(out, at, &ds[..i], b".", &ds[i..])
}

// Appends 0, a point, z zeros and digits.
#[tactic(auto, unfolding(tokens::specs::Text::text, tokens::specs::Text::codes))]
fn put_fraction(out: &mut [u8], at: usize, ds: &[u8], z: usize) -> usize
    requires { (z ≤ 3) × (at + length ds.now + 5 ≤ length out.old) }
    ensures { Appended out.old at (fraction ds.now z) out.new result }
{
    let zeros = [48u8; 3];
    put_three(out, at, b"0.", &zeros[..z], ds)
}

// Appends the exponent of ten, w - 1075.
fn put_exponent(out: &mut [u8], at: usize, w: usize) -> usize
    requires { at + 22 ≤ length out.old }
    ensures { Appended out.old at (exponent_text w) out.new result }
{
    if 1075 <= w {
        let e = texts::put_bytes(out, at, b"e");
        return counts::put_count(out, e, (w - 1075) as u64);
    }
    let minus = texts::put_bytes(out, at, b"e-");
    counts::put_count(out, minus, (1075 - w) as u64)
}

// Appends one digit, the point, the others, and the exponent of ten.
fn put_scientific(out: &mut [u8], at: usize, ds: &[u8], w: usize) -> usize
    requires { (1 ≤ length ds.now) × (at + length ds.now + 23 ≤ length out.old) }
    ensures { Appended out.old at (scientific ds.now w) out.new result }
{
    let end = put_pointed(out, at, ds, 1);
    put_exponent(out, end, w)
}

// Appends digits of which w - 1074 stand before the point, with an exponent where all would, or where more than two
// zeros would stand after it.
fn put_placed(out: &mut [u8], at: usize, ds: &[u8], w: usize) -> usize
    requires { (1 ≤ length ds.now) × (at + length ds.now + 23 ≤ length out.old) }
    ensures { Appended out.old at (placed ds.now w) out.new result }
{
    if w <= 1074 {
        if 1072 <= w {
            return put_fraction(out, at, ds, 1074 - w);
        }
        return put_scientific(out, at, ds, w);
    }
    if w - 1074 < ds.len() {
        return put_pointed(out, at, ds, w - 1074);
    }
    put_scientific(out, at, ds, w)
}

// Appends digits with an exponent where `power` asks for it, else only where that is shorter.
fn put_written(out: &mut [u8], at: usize, ds: &[u8], w: usize, power: bool) -> usize
    requires { (1 ≤ length ds.now) × (at + length ds.now + 23 ≤ length out.old) }
    ensures { Appended out.old at (written power ds.now w) out.new result }
{
    if power {
        return put_scientific(out, at, ds, w);
    }
    put_placed(out, at, ds, w)
}

// Appends x * 10^scale, its sign left out.
fn put_magnitude(out: &mut [u8], at: usize, x: f64, n: usize, scale: usize, power: bool) -> usize
    requires { (1 ≤ n) × (n ≤ 16) × (scale ≤ 16) × (at + 43 ≤ length out.old) }
    ensures { Appended out.old at (magnitude_text n scale power x) out.new result }
{
    let s = significant_digits(x, n);
    let mut ds = [0u8; 20];
    let k = counts::put_count(&mut ds, 0, s.digits);
    put_written(out, at, &ds[..k], n + s.place + scale, power)
}

#[tactic(auto, unfolding(tokens::specs::Text::text, tokens::specs::Text::codes))]
fn put_sign(out: &mut [u8], at: usize, x: f64) -> usize
    requires { at + 1 ≤ length out.old }
    ensures { Appended out.old at (sign_text x) out.new result }
{
    if x < 0.0 {
        return texts::put_bytes(out, at, b"-");
    }
    at
}

// Appends x * 10^scale with its sign, for an x that is no NaN and not zero.
fn put_signed(out: &mut [u8], at: usize, x: f64, n: usize, scale: usize, power: bool) -> usize
    requires { (1 ≤ n) × (n ≤ 16) × (scale ≤ 16) × (at + 44 ≤ length out.old) }
    ensures { Appended out.old at (signed_text n scale power x) out.new result }
{
    let start = put_sign(out, at, x);
    if floats::is_finite(x) {
        return put_magnitude(out, start, x, n, scale, power);
    }
    texts::put_bytes(out, start, b"infinite")
}

// Appends x * 10^scale to the `at` bytes at the start of out, to n significant digits, with an exponent where `power`
// asks for it, else only where that is shorter, and returns how many bytes there are then.
#[tactic(auto, unfolding(tokens::specs::Text::text, tokens::specs::Text::codes))]
pub fn put_decimal(out: &mut [u8], at: usize, x: f64, n: usize, scale: usize, power: bool) -> usize
    requires { (1 ≤ n) × (n ≤ 16) × (scale ≤ 16) × (at + 44 ≤ length out.old) }
    ensures { Appended out.old at (decimal_text n scale power x) out.new result }
{
    if x != x {
        return texts::put_bytes(out, at, b"no number");
    }
    if x == 0.0 {
        return texts::put_bytes(out, at, b"0");
    }
    put_signed(out, at, x, n, scale, power)
}
