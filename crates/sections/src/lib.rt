// The moments of a chord by the section's thickness along it (fins.rs, `chord_moments`). With t(x) the thickness of the
// plate at x, a chord from a to b has
//
//     M_k = ∫ x^k·t(x) dx for k = 0, 1, 2, and T = ∫ t(x)³/12 dx
//
//     square:  t(x) = t
//     rounded: a slab min(t, width) thick, less what semicircular edges of half that as radius take away
//     airfoil: t(x) = 10·t·P(ξ), ξ from 0 to 1 along the chord, P the NACA four-digit thickness polynomial
//
//     P(x) = 0.2969·√x − 0.1260·x − 0.3516·x² + 0.2843·x³ − e·x⁴
//
// P is equation 6.2 of I. H. Abbott and A. E. von Doenhoff, Theory of Wing Sections, Dover, 1959. The tail is closed
// with e = 0.1036, where P(1) = 0, and open with document 01's e = 0.1015 (document 02, Paper 7). PHI is
// 10·∫₀¹ x^j·P dx for j = 0, 1, 2, and PSI is 1000·∫₀¹ P³ dx, each the f64 nearest to its fraction.
#![tactic(auto)]

ghost use Rattle.std.specs.Prelude.{◌≡◌};
ghost use Rattle.sections.specs.Airfoil.{closed_tail, open_tail, airfoil_constants, AreConstants};
ghost use Rattle.sections.specs.ChordMoments.{chord_moments, square_moments, rounded_moments, naca4_moments, tail_of};
ghost use Rattle.sections.specs.Numbered.{section_number, TriesSection};

// The shape of a fin's section along its chord (fins.rs, `FinCrossSection`), the airfoil's tail closed or open.
#[derive(Clone, Copy)]
pub enum Section {
    Square,
    Rounded,
    Airfoil,
    AirfoilOpen,
}

// A number that is no section's.
#[derive(Clone, Copy, Debug)]
pub struct UnknownSection(pub usize);

// The number of a section: 1 square, 2 rounded, 3 airfoil, 4 airfoil-open.
impl From<Section> for usize {
    ghost from_gives = { λ section number. number ≡ section_number section };

    fn from(section: Section) -> usize {
        match section {
            Section::Square => 1,
            Section::Rounded => 2,
            Section::Airfoil => 3,
            Section::AirfoilOpen => 4,
        }
    }
}

// The section of a number; any number but 1 to 4 is no section's.
impl TryFrom<usize> for Section {
    type Error = UnknownSection;

    ghost try_from_gives = { TriesSection };

    #[tactic(auto, unfolding(crate::specs::Numbered::numbered_section))]
    fn try_from(number: usize) -> Result<Section, UnknownSection> {
        match number {
            1 => Ok(Section::Square),
            2 => Ok(Section::Rounded),
            3 => Ok(Section::Airfoil),
            4 => Ok(Section::AirfoilOpen),
            _ => Err(UnknownSection(number)),
        }
    }
}

const PI: f64 = 3.14159265358979323846264338327950288;

// Returns [M_0, M_1, M_2, T] of a chord from a to b at thickness t, or zeros for a width <= 0.
pub fn chord_moments(section: Section, a: f64, b: f64, t: f64) -> [f64; 4]
    ensures { result ≡ chord_moments section a b t }
{
    let c = b - a;
    if c <= 0.0 {
        return [0.0; 4];
    }
    match section {
        Section::Square => square_moments(a, b, c, t),
        Section::Rounded => rounded_moments(a, b, c, t),
        Section::Airfoil | Section::AirfoilOpen => airfoil_moments(tail(section), a, c, t),
    }
}

fn square_moments(a: f64, b: f64, c: f64, t: f64) -> [f64; 4]
    ensures { result ≡ square_moments a b c t }
{
    [
        t * c,
        0.5 * t * (b * b - a * a),
        t * (floats::powi3(b) - floats::powi3(a)) / 3.0,
        floats::powi3(t) * c / 12.0,
    ]
}

// Returns the moments of a rounded chord. d0, d1, d2 are the moments of what one rounded edge takes away, from that
// edge; e0 is the same for the cubed thickness.
fn rounded_moments(a: f64, b: f64, c: f64, t: f64) -> [f64; 4]
    ensures { result ≡ rounded_moments a b c t }
{
    let mid = floats::min(t, c);
    let r = 0.5 * mid;
    let r4 = floats::powi4(r);
    let d0 = r * r * (2.0 - PI / 2.0);
    let d1 = r * d0 - floats::powi3(r) / 3.0;
    let d2 = r * r * d0 - PI * r4 / 8.0;
    let e0 = 8.0 * r4 - 1.5 * PI * r4;
    let m0 = mid * c - 2.0 * d0;
    [
        m0,
        m0 * 0.5 * (a + b),
        mid * (floats::powi3(b) - floats::powi3(a)) / 3.0
            - (a * a * d0 + 2.0 * a * d1 + d2)
            - (b * b * d0 - 2.0 * b * d1 + d2),
        (floats::powi3(mid) * c - 2.0 * e0) / 12.0,
    ]
}

// Returns the moments of an airfoil's chord; k holds the section's constants, PHI and then PSI.
fn airfoil_moments(k: [f64; 4], a: f64, c: f64, t: f64) -> [f64; 4]
    ensures { result ≡ naca4_moments k a c t }
{
    let p0 = k[0];
    let p1 = k[1];
    let p2 = k[2];
    let psi = k[3];
    [
        t * c * p0,
        t * (a * c * p0 + c * c * p1),
        t * (a * a * c * p0 + 2.0 * a * c * c * p1 + floats::powi3(c) * p2),
        floats::powi3(t) * c * psi / 12.0,
    ]
}

// Returns the constants of a section's tail. One call serves both airfoils, so that the code of a chord stays short
// enough to stand in the rule's loop; no other section asks.
fn tail(section: Section) -> [f64; 4]
    ensures { result ≡ airfoil_constants (tail_of section) }
{
    match section {
        Section::Square | Section::Rounded | Section::Airfoil => closed_tail(),
        Section::AirfoilOpen => open_tail(),
    }
}

// Returns the constants of the closed tail. Both sides of each fraction are whole numbers below 2^53, so that one
// division rounds it to the nearest.
fn closed_tail() -> [f64; 4]
    ensures { AreConstants closed_tail result }
{
    [
        40853.0 / 60000.0,
        1067.0 / 3750.0,
        32743.0 / 210000.0,
        152164422844893.0 / 323323000000000.0,
    ]
}

// Returns the constants of the open tail, by one division each too.
fn open_tail() -> [f64; 4]
    ensures { AreConstants open_tail result }
{
    [
        8221.0 / 12000.0,
        8641.0 / 30000.0,
        33373.0 / 210000.0,
        611584192871283.0 / 1293292000000000.0,
    ]
}
