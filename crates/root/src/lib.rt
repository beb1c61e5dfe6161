// The square root of an f64: the nearest f64, worked from its bit pattern and whole numbers, for every f64.
//
// Document 01, "Stand-ins": "Square root: the nearest f64, stated by squares of whole numbers; ±0 gives itself,
// +infinity itself, negative or NaN gives NaN". A unit is 2^-1074, the smallest positive f64. A positive x of m units
// has the root √(m * 2^1074) units; that radicand is n * 2^52 * 4^k with an n of 53 or 54 binary digits, and the root
// is q * 2^k units, where q is the whole number nearest to √(n * 2^52): q * q - q < n * 2^52 <= q * q + q. The first
// half of its digits is guessed by a cubic in fixed point and the other half worked from it by an exact division.
// Nothing is proved of the guess: where a test of it fails, q is worked digit by digit. Of f64 operations only
// comparisons are used, and the divisions that write infinity and NaN.
#![tactic(auto)]

ghost use Rattle.std.specs.Prelude.{◌≡◌, ◌*◌, ◌^◌, ◌≤◌, ◌<◌, T};
ghost use Rattle.std.specs.Float.Ieee.Positive.{positive};
ghost use Rattle.floats.specs.Operations.{bits};
ghost use Rattle.root.specs.Root.{radicand, near_root, root_of, IsRoot};
ghost use Rattle.root.specs.Scaled.{ScaledTo};

// 2^52: the leading one of 53 binary digits, and the weight of a bit pattern's exponent field.
const LEADING: u64 = 0x10_0000_0000_0000;

// 2^26: the weight of the first half of a root's 53 digits.
const HALF: u64 = 0x400_0000;

// 2^28: the x of a cubic is u / 2^28.
const UNIT: u64 = 0x1000_0000;

// Returns the whole number nearest to √(n * 2^52), one binary digit a turn from two digits of n * 2^52: s * s + rest is
// the part of it that has come in.
fn digit_root(n: u64) -> u64
    requires { (0 < n) × (n < 2 ^ 54) }
    ensures { result ≡ near_root (n * 2 ^ 52) }
{
    let mut left = n;
    let mut s: u64 = 0;
    let mut rest: u64 = 0;
    for _ in 0..53u64 {
        let more = 4 * rest + left / LEADING;
        left = left % LEADING * 4;
        let trial = 4 * s + 1;
        if trial <= more {
            rest = more - trial;
            s = 2 * s + 1;
        } else {
            rest = more;
            s = 2 * s;
        }
    }
    if rest <= s { s } else { s + 1 }
}

// The cubic .0 - (.1 * x + .2 * x² + .3 * x³), in units of 1/32.
#[derive(Clone, Copy)]
struct Cubic(u32, u32, u32, u32);

// Returns the cubic that is √n - 2^26 + 1/2 to within 0.43, in part i of 2^52 <= n < 2^54: sixteen parts up to 2^53,
// then sixteen of the rest. x falls from 1 to 0 along a part. A match is compiled to a table, where a constant array
// would be copied at each call.
fn cubic_at(i: u64) -> Cubic {
    match i {
        0 => Cubic(66_091_854, 65_105_445, 956_024, 30_360),
        1 => Cubic(130_266_751, 63_271_076, 877_617, 26_205),
        2 => Cubic(192_682_425, 61_583_508, 809_363, 22_805),
        3 => Cubic(253_476_082, 60_024_152, 749_514, 19_992),
        4 => Cubic(312_767_965, 58_577_552, 696_691, 17_641),
        5 => Cubic(370_664_158, 57_230_745, 649_788, 15_661),
        6 => Cubic(427_258_815, 55_972_758, 607_921, 13_978),
        7 => Cubic(482_635_955, 54_794_241, 570_363, 12_537),
        8 => Cubic(536_870_930, 53_687_163, 536_516, 11_297),
        9 => Cubic(590_031_627, 52_644_587, 505_889, 10_221),
        10 => Cubic(642_179_460, 51_660_481, 478_068, 9_284),
        11 => Cubic(693_370_208, 50_729_581, 452_705, 8_463),
        12 => Cubic(743_654_711, 49_847_255, 429_508, 7_740),
        13 => Cubic(793_079_459, 49_009_423, 408_226, 7_100),
        14 => Cubic(841_687_101, 48_212_465, 388_645, 6_532),
        15 => Cubic(889_516_869, 47_453_163, 370_580, 6_026),
        16 => Cubic(982_984_843, 92_073_005, 1_352_021, 42_936),
        17 => Cubic(1_073_741_850, 89_478_814, 1_241_137, 37_060),
        18 => Cubic(1_162_010_944, 87_092_232, 1_144_613, 32_251),
        19 => Cubic(1_247_986_158, 84_886_969, 1_059_973, 28_273),
        20 => Cubic(1_331_837_543, 82_841_168, 985_269, 24_949),
        21 => Cubic(1_413_715_125, 80_936_495, 918_941, 22_147),
        22 => Cubic(1_493_752_056, 79_157_434, 859_731, 19_767),
        23 => Cubic(1_572_067_158, 77_490_758, 806_614, 17_731),
        24 => Cubic(1_648_766_996, 75_925_113, 758_749, 15_976),
        25 => Cubic(1_723_947_574, 74_450_688, 715_435, 14_455),
        26 => Cubic(1_797_695_747, 73_058_954, 676_089, 13_130),
        27 => Cubic(1_870_090_397, 71_742_461, 640_222, 11_968),
        28 => Cubic(1_941_203_423, 70_494_664, 607_416, 10_946),
        29 => Cubic(2_011_100_572, 69_309_790, 577_319, 10_041),
        30 => Cubic(2_079_842_158, 68_182_721, 549_627, 9_238),
        _ => Cubic(2_147_483_666, 67_108_906, 524_080, 8_522),
    }
}

// Returns what a cubic takes off at x = u / 2^28: .1 * x + .2 * x² + .3 * x³, times 2^28.
fn decrease(p: Cubic, u: u64) -> u64
    requires { u < 2 ^ 28 }
    ensures { result < 2 ^ 62 }
{
    p.1 as u64 * u + u * u / UNIT * (p.2 as u64 + p.3 as u64 * u / UNIT)
}

// Returns a guess at √(w * (1 + odd)), which has 27 binary digits before its point: the cubic's value, cut to these.
// That is at most one off, but nothing is claimed of it except its range. 2^62 keeps the difference from falling below
// 0, and the remainder drops it.
fn guess(w: u64, odd: u64) -> u64
    requires { (w < 2 ^ 53) × (odd < 2) }
    ensures { (2 ^ 26 ≤ result) × (result < 2 ^ 28) }
{
    let p = cubic_at(w / 0x1_0000_0000_0000 % 16 + 16 * odd);
    let below = decrease(p, UNIT - 1 - w / 0x10_0000 % UNIT);
    (p.0 as u64 * UNIT + 0x4000_0000_0000_0000 - below) / (32 * UNIT) % (2 * HALF) + HALF
}

// Returns the whole number nearest to √(n * 2^52), from a guess h at √n. Where (n - h * h) * 2^25 is h * m + c and q is
// h * 2^26 + m, n * 2^52 - q * q is c * 2^27 - m * m, so that q or q + 1 is nearest. l is m + 2^26, which is not
// negative where h is at most one off, and the difference is u - v. Where h is further off, the root is worked by its
// digits.
fn nearest_root(n: u64, h: u64) -> u64
    requires { (2 ^ 52 ≤ n) × (n < 2 ^ 54) × (2 ^ 26 ≤ h) × (h < 2 ^ 28) }
    ensures { result ≡ near_root (n * 2 ^ 52) }
{
    let square = h * h;
    let top = n + 2 * h;
    if square <= top && top - square <= 4 * h {
        let t = (top - square) * 0x200_0000;
        let l = t / h;
        let c = t % h;
        let q = (h - 1) * HALF + l;
        let u = (l + c) * 0x800_0000;
        let v = l * l + LEADING;
        return q + (v + q < u) as u64;
    }
    digit_root(n)
}

// A radicand of digits * 2^(power + 52), where `digits` has 53 binary digits.
#[derive(Clone, Copy)]
struct Scaled {
    digits: u64,
    power: u64,
}

// Returns the radicand of the positive finite f64 with the bit pattern b. A subnormal's digits are shifted up to 53.
fn scale(b: u64) -> Scaled
    requires { T (positive (bits b)) }
    ensures { ScaledTo (radicand (bits b)) result.digits result.power × (result.power ≤ 3067) }
{
    let field = b % 0x8000_0000_0000_0000 / LEADING;
    let t = b % LEADING;
    if field == 0 {
        let z = (u64::leading_zeros(t) - 11) as u64;
        return Scaled {
            digits: t << z,
            power: 1022 - z,
        };
    }
    Scaled {
        digits: LEADING + t,
        power: field + 1021,
    }
}

// Returns the bit pattern of the root of the positive finite f64 with the bit pattern b: k * 2^52 + q stands for q *
// 2^k units.
fn root_bits(b: u64) -> u64
    requires { T (positive (bits b)) }
    ensures { bits result ≡ root_of (bits b) }
{
    let x = scale(b);
    let w = x.digits;
    let e = x.power;
    e / 2 * LEADING + nearest_root(w * (1 + e % 2), guess(w, e % 2))
}

// Returns the square root of x, the nearest f64. Either zero, +infinity and NaN give themselves, and a negative x NaN.
pub fn sqrt(x: f64) -> f64
    ensures { (result ≡ root_of x) × IsRoot x result }
{
    if 0.0 < x {
        let top = 1.0 / 0.0;
        if x < top {
            return f64::from_bits(root_bits(f64::to_bits(x)));
        }
        return x;
    }
    if x < 0.0 {
        return 0.0 / 0.0;
    }
    x
}
