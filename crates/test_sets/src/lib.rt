// Sets made up by a row of numbers that looks random, and figures compared bit for bit, for the test programs.
#![tactic(auto)]

use figures::Figures;
use fillets::Fillet;
use fins::FinSet;
use materials::Density;
use planforms::Planform;
use refusals::Verdict;
use sections::Section;

// Returns the next number of a row that looks random (xorshift).
pub fn after(seed: u64) -> u64 {
    let a = seed ^ (seed << 13);
    let b = a ^ (a >> 7);
    b ^ (b << 17)
}

// Returns one of 2^20 numbers from 0 up to, not including, 1.
fn fraction(seed: u64) -> f64 {
    let n = seed % 1048576;
    n as f64 / 1048576.0
}

// Returns one of the whole numbers 0 to 15.
fn whole(seed: u64) -> f64 {
    let n = seed % 16;
    n as f64
}

// Returns an outline from the root's leading edge back to its trailing edge. Its heights come several times, and a few
// last bits apart.
pub fn outline(seed: u64) -> [f64; 32] {
    let mut numbers = [0.0; 32];
    let mut s = seed;
    let mut x = 0.0;
    for k in 1..15 {
        s = after(s);
        x = x + 0.01;
        numbers[2 * k] = x;
        numbers[2 * k + 1] = (1.0 + whole(s)) * 0.02 + whole(s >> 8) * 1.0e-17;
    }
    numbers[30] = x + 0.01;
    numbers
}

fn planform(seed: u64) -> Planform {
    let kind = seed % 4;
    if kind == 0 {
        return Planform::Trapezoid {
            root_chord_m: 0.1 + fraction(seed),
            tip_chord_m: fraction(seed >> 3),
            span_m: 0.05 + fraction(seed >> 5),
            sweep_m: fraction(seed >> 7) - 0.5,
        };
    }
    if kind == 1 {
        return Planform::Ellipse {
            root_chord_m: 0.1 + fraction(seed),
            span_m: 0.05 + fraction(seed >> 3),
        };
    }
    Planform::Outline
}

fn section(seed: u64) -> Section {
    let kind = seed % 3;
    if kind == 0 {
        return Section::Square;
    }
    if kind == 1 {
        return Section::Rounded;
    }
    Section::Airfoil
}

// Returns a set made up by a number. Its count is 0 now and then, which is refused.
pub fn set_of(seed: u64, density: Density) -> FinSet {
    let planform = planform(seed);
    let cross_section = section(seed >> 2);
    let tab = None;
    let fillet = Fillet {
        radius_m: 0.002 * whole(seed >> 17),
        density: Density::Bulk { kg_m3: 1100.0 },
    };
    FinSet {
        count: ((seed >> 20) % 7) as usize,
        planform,
        thickness_m: 0.001 + 0.004 * fraction(seed >> 9),
        cross_section,
        tab,
        fillet,
        cant_rad: 0.01 * fraction(seed >> 13),
        base_angle_rad: 0.0,
        body_radius_m: 0.05,
        density,
    }
}

pub fn wood(seed: u64) -> f64 {
    100.0 + 1000.0 * fraction(seed >> 4)
}

// Returns a refusal's number, or 0, and the two values that go with it.
pub fn reason(verdict: Verdict) -> [usize; 3] {
    match verdict {
        Ok(()) => [0, 0, 0],
        Err(refusal) => {
            let values = refusals::values(refusal);
            [refusals::number(refusal), values[0], values[1]]
        }
    }
}

// Tells whether two lists hold the same f64s, bit for bit.
pub fn same_numbers(a: &[f64], b: &[f64]) -> bool {
    a.len() == b.len()
        && a.iter()
            .zip(b)
            .all(|(x, y)| floats::to_bits(*x) == floats::to_bits(*y))
}

// Bit for bit, as a derived == would not.
pub fn same_figures(a: Figures, b: Figures) -> bool {
    let first = a.verdict;
    let second = b.verdict;
    let v = reason(first);
    let w = reason(second);
    let x = a.body;
    let y = b.body;
    let of_a = x.numbers();
    let of_b = y.numbers();
    let numbers = same_numbers(&of_a, &of_b);
    let counts = (a.intervals == b.intervals) & (a.samples == b.samples);
    numbers & counts & (v[0] == w[0]) & (v[1] == w[1]) & (v[2] == w[2])
}
