// The integrands of a fin's figures: seven values at a height (fins.rs, the closures of `geometry` and
// `fin_integrals`).
//
// A strip's lengths are divided by the scale, root chord plus span, and so is the height h that comes in. The chords
// are worked in metres, at h·scale, and their ends a and b divided. Summed over the chords, from 0:
//
//     area:  b − a,  (b² − a²)/2,  h·(b − a), and four zeros
//     plate: M_0, M_1, M_2 and T of each chord (`sections::chord_moments`); with r = body radius + h the values are
//            M_0,  r·M_0,  r²·M_0,  M_1,  M_2,  r·M_1,  T
#![tactic(auto)]

ghost use Rattle.std.specs.Prelude.{◌≡◌};
ghost use Rattle.floats.specs.Operations.{◌⊗◌, ◌⊘◌};
ghost use Rattle.planforms.specs.Planforms.{span_of};
ghost use Rattle.chords.specs.Chords.{outline_crossings, paired, ends_of};
ghost use Rattle.chords.specs.Edges.{Holding};
ghost use Rattle.integrands.specs.Integrands.{scale_of, area_integrand, plate_integrand, term_of, plus, sums_over};
ghost use Rattle.integrands.specs.Integrands.{sample_values, values_over, chords_for, HoldingAt, sample_of};

use chords::Chords;
use planforms::Planform;
use sections::Section;

// What is summed over the chords. Thickness and body radius are divided by the scale. An area is a sum of its own and
// no plate left out, so this is no Option.
#[derive(Clone, Copy)]
pub enum Kind {
    Area,
    Plate {
        section: Section,
        thickness: f64,
        body_radius: f64,
    },
}

// The choice among the two integrands, with the planform whose chords it takes; an outline's points lie beside it.
#[derive(Clone, Copy)]
pub struct Integrand {
    pub kind: Kind,
    pub planform: Planform,
    pub scale: f64,
}

// Returns root chord plus span, in metres.
#[tactic(auto, unfolding(crate::specs::Integrands::scale_of))]
pub fn scale_m(planform: Planform, points: &[f64]) -> f64
    ensures { result ≡ scale_of planform points.now }
{
    planforms::root_chord_m(planform, points) + planforms::span_m(planform, points)
}

// Returns the integrand of a planform's area.
pub fn area_integrand(planform: Planform, points: &[f64]) -> Integrand
    ensures { result ≡ area_integrand planform points.now }
{
    Integrand {
        kind: Kind::Area,
        planform,
        scale: scale_m(planform, points),
    }
}

// Returns the integrand of a plate's volume integrals, on a body of the radius given; lengths in metres. The caller
// works the span once a strip, as an outline's takes a pass over its points.
#[tactic(auto, unfolding(crate::specs::Integrands::scale_of))]
pub fn plate_integrand(
    planform: Planform,
    points: &[f64],
    span_m: f64,
    section: Section,
    thickness_m: f64,
    body_radius_m: f64,
) -> Integrand
    requires { span_m ≡ span_of planform points.now }
    ensures { result ≡ plate_integrand planform points.now section thickness_m body_radius_m }
{
    let scale = planforms::root_chord_m(planform, points) + span_m;
    Integrand {
        kind: Kind::Plate {
            section,
            thickness: thickness_m / scale,
            body_radius: body_radius_m / scale,
        },
        planform,
        scale,
    }
}

// Returns the seven values at the height h, which is divided by the scale.
pub fn sample(integrand: Integrand, points: &[f64], h: f64) -> [f64; 7]
    ensures { result ≡ sample_of integrand points.now h }
{
    let kind = integrand.kind;
    let scale = integrand.scale;
    let mut edges = [0; limits::MOST_POINTS];
    let n = chords::edges_near(points, h * scale, h * scale, &mut edges);
    let found = chords_at(integrand, points, &edges[..n], h);
    values_over(found, kind, scale, points, &edges[..n], h)
}

// Returns the chords that the values at the height h are summed over, in metres. Of an outline, the edges listed must
// have every crossing there.
pub fn chords_at(integrand: Integrand, points: &[f64], edges: &[u8], h: f64) -> Chords
    requires { HoldingAt integrand points.now edges.now h }
    ensures { result ≡ chords_for integrand points.now h }
{
    let planform = integrand.planform;
    let scale = integrand.scale;
    chords::chords_at(planform, points, edges, h * scale)
}

// Returns the seven values at the height h over the chords found there. One chord, as most heights have, needs no list
// of ends.
#[tactic(auto, unfolding(crate::specs::Integrands::sums_from, chords::specs::Chords::paired))]
pub fn values_over(
    found: Chords,
    kind: Kind,
    scale: f64,
    points: &[f64],
    edges: &[u8],
    h: f64,
) -> [f64; 7]
    requires { found ≡ Chords.Several → Holding points.now (h ⊗ scale) edges.now }
    ensures { result ≡ values_over kind scale h (paired (ends_of found points.now (h ⊗ scale))) }
{
    match found {
        Chords::One { start_m, end_m } => {
            values(kind, h, add_chord([0.0; 4], kind, scale, h, start_m, end_m))
        }
        Chords::Nothing => values(kind, h, [0.0; 4]),
        Chords::Several => values_over_several(kind, scale, points, edges, h),
    }
}

// Returns the seven values at the height h where an outline is crossed more than twice.
fn values_over_several(kind: Kind, scale: f64, points: &[f64], edges: &[u8], h: f64) -> [f64; 7]
    requires { Holding points.now (h ⊗ scale) edges.now }
    ensures { result ≡ values_over kind scale h (paired (outline_crossings points.now (h ⊗ scale))) }
{
    let mut ends = [0.0; limits::MOST_POINTS];
    let n = chords::crossings_of(points, edges, h * scale, &mut ends);
    values(kind, h, chord_sums(kind, scale, h, &ends[..n]))
}

// Returns the sums over the chords between the ends listed, in metres: start, end, start, end, and so on.
fn chord_sums(kind: Kind, scale: f64, h: f64, ends: &[f64]) -> [f64; 4]
    ensures { result ≡ sums_over kind scale h (paired ends.now) }
{
    let mut sums = [0.0; 4];
    for k in 0..ends.len() / 2 {
        // Two lines: the check does not cover a call's array laid straight into a variable of the loop.
        let more = add_chord(sums, kind, scale, h, ends[2 * k], ends[2 * k + 1]);
        sums = more;
    }
    sums
}

// Adds one more chord to the sums; its ends are divided by the scale here.
fn add_chord(sums: [f64; 4], kind: Kind, scale: f64, h: f64, start_m: f64, end_m: f64) -> [f64; 4]
    ensures { result ≡ plus sums (term_of kind h (start_m ⊘ scale) (end_m ⊘ scale)) }
{
    let t = term(kind, h, start_m / scale, end_m / scale);
    [
        sums[0] + t[0],
        sums[1] + t[1],
        sums[2] + t[2],
        sums[3] + t[3],
    ]
}

// Returns what a chord from a to b adds to the sums.
fn term(kind: Kind, h: f64, a: f64, b: f64) -> [f64; 4]
    ensures { result ≡ term_of kind h a b }
{
    match kind {
        Kind::Area => [b - a, 0.5 * (b * b - a * a), h * (b - a), 0.0],
        Kind::Plate {
            section,
            thickness,
            body_radius: _,
        } => sections::chord_moments(section, a, b, thickness),
    }
}

// Returns the seven values from the sums over the chords at h.
fn values(kind: Kind, h: f64, m: [f64; 4]) -> [f64; 7]
    ensures { result ≡ sample_values kind h m }
{
    match kind {
        Kind::Area => [m[0], m[1], m[2], 0.0, 0.0, 0.0, 0.0],
        Kind::Plate {
            section: _,
            thickness: _,
            body_radius,
        } => {
            let r = body_radius + h;
            [m[0], r * m[0], r * r * m[0], m[1], m[2], r * m[1], m[3]]
        }
    }
}
