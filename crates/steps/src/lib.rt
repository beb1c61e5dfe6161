// A length in whole cutter steps of 2^-20 m, exactly.
//
// Document 02, "Where may I drill?": "All is exact in cutter steps of 2^-20 m over whole numbers". A length other than
// zero has a magnitude of 2^-20 to 64 m, so that its exponent field is 1003 to 1029: it is digits * 2^(field - 1075) m
// with 53 binary digits, and a step is 2^(1055 - field) of the last digit's units. A length has at most 2^26 steps.
#![tactic(auto)]

ghost use Rattle.std.specs.Prelude.{◌≡◌, T};
ghost use Rattle.limits.specs.Limits.{shortest, longest, is_within};
ghost use Rattle.steps.specs.Steps.{exact_of, is_whole, steps_of};
ghost use Rattle.steps.specs.Parts.{AreParts, IsLength};

// 2^52: the leading one of 53 binary digits, and the weight of a bit pattern's exponent field.
const LEADING: u64 = 0x10_0000_0000_0000;

// A magnitude of digits / step steps.
#[derive(Clone, Copy)]
struct Parts {
    digits: u64,
    step: u64,
}

// Returns the parts of the magnitude of a length other than zero, from its bit pattern.
fn parts_of_magnitude(magnitude_m: f64) -> Parts
    requires { T (is_within shortest longest magnitude_m) }
    ensures { AreParts magnitude_m result.digits result.step }
{
    let b = floats::to_bits(magnitude_m);
    Parts {
        digits: LEADING + b % LEADING,
        step: 1 << (1055 - b % 0x8000_0000_0000_0000 / LEADING),
    }
}

fn parts_of(length_m: f64) -> Parts
    requires { IsLength length_m }
    ensures { AreParts length_m result.digits result.step }
{
    if length_m == 0.0 {
        return Parts { digits: 0, step: 1 };
    }
    parts_of_magnitude(floats::abs(length_m))
}

// Tells whether a length is a whole number of steps.
pub fn is_whole(length_m: f64) -> bool
    requires { IsLength length_m }
    ensures { result ≡ is_whole (exact_of length_m) }
{
    let s = parts_of(length_m);
    s.digits % s.step == 0
}

// Returns how many steps a length has, a fraction cut off.
pub fn steps(length_m: f64) -> i64
    requires { IsLength length_m }
    ensures { result ≡ steps_of (exact_of length_m) }
{
    let s = parts_of(length_m);
    let n = (s.digits / s.step) as i64;
    if length_m < 0.0 {
        return 0 - n;
    }
    n
}
