// A fin's planform, with its root chord and span (fins.rs, `FinPlanform`).
//
// An outline's points lie beside the enum in a lent slice: x, then height, metres, one pair after another.
#![tactic(auto)]

ghost use Rattle.std.specs.Prelude.{◌≡◌};
ghost use Rattle.planforms.specs.Planforms.{root_chord_of, span_of, last_x, largest_height, pair_count};
ghost use Rattle.planforms.specs.Numbered.{planform_number, lengths_of, planform_of, listed_planform};

// The shape of a fin, its lengths in metres. The sweep is the axial distance from the root's leading edge aft to the
// tip's.
#[derive(Clone, Copy)]
pub enum Planform {
    Trapezoid {
        root_chord_m: f64,
        tip_chord_m: f64,
        span_m: f64,
        sweep_m: f64,
    },
    Ellipse {
        root_chord_m: f64,
        span_m: f64,
    },
    Outline,
}

// How many lengths a trapezoid has, the most of any planform: every planform's are written in so many places, with
// zeros after its own.
pub const LENGTHS: usize = 4;

// Returns the number of a planform's kind: 1 a trapezoid, 2 an ellipse, 3 an outline. The lengths are dropped, so this
// is no conversion.
pub fn number_of(planform: Planform) -> usize
    ensures { result ≡ planform_number planform }
{
    match planform {
        Planform::Trapezoid { .. } => 1,
        Planform::Ellipse { .. } => 2,
        Planform::Outline => 3,
    }
}

// Returns the lengths of a planform: a trapezoid's root chord, tip chord, span and sweep; an ellipse's root chord and
// span; an outline has none here.
pub fn lengths_of(planform: Planform) -> [f64; LENGTHS]
    ensures { result ≡ lengths_of planform }
{
    match planform {
        Planform::Trapezoid {
            root_chord_m,
            tip_chord_m,
            span_m,
            sweep_m,
        } => [root_chord_m, tip_chord_m, span_m, sweep_m],
        Planform::Ellipse {
            root_chord_m,
            span_m,
        } => [root_chord_m, span_m, 0.0, 0.0],
        Planform::Outline => [0.0; LENGTHS],
    }
}

// Returns the planform of a kind's number and lengths; any number but 1, 2 and 3 is no kind's.
// Both are needed, and a TryFrom takes one value.
#[tactic(auto, unfolding(crate::specs::Numbered::planform_of))]
pub fn planform_of(number: usize, lengths: [f64; LENGTHS]) -> Option<Planform>
    ensures { result ≡ planform_of number lengths }
{
    match number {
        1 => Some(Planform::Trapezoid {
            root_chord_m: lengths[0],
            tip_chord_m: lengths[1],
            span_m: lengths[2],
            sweep_m: lengths[3],
        }),
        2 => Some(Planform::Ellipse {
            root_chord_m: lengths[0],
            span_m: lengths[1],
        }),
        3 => Some(Planform::Outline),
        _ => None,
    }
}

// Returns the planform of a kind's number and of lengths that C or Rust lends; any other count of lengths than
// `LENGTHS` is no planform's.
#[tactic(auto, unfolding(crate::specs::Numbered::listed_planform))]
pub fn listed_planform(number: usize, lengths: &[f64]) -> Option<Planform>
    ensures { result ≡ listed_planform number lengths.now }
{
    if lengths.len() == LENGTHS {
        return planform_of(number, [lengths[0], lengths[1], lengths[2], lengths[3]]);
    }
    None
}

// Returns the root chord; of an outline the last point's x, or 0 where there is no point.
#[tactic(auto, unfolding(crate::specs::Planforms::root_chord_of))]
pub fn root_chord_m(planform: Planform, points: &[f64]) -> f64
    ensures { result ≡ root_chord_of planform points.now }
{
    match planform {
        Planform::Trapezoid { root_chord_m, .. } => root_chord_m,
        Planform::Ellipse { root_chord_m, .. } => root_chord_m,
        Planform::Outline => last_x(points),
    }
}

// Returns the span; of an outline the largest height, and at least 0.
#[tactic(auto, unfolding(crate::specs::Planforms::span_of))]
pub fn span_m(planform: Planform, points: &[f64]) -> f64
    ensures { result ≡ span_of planform points.now }
{
    match planform {
        Planform::Trapezoid { span_m, .. } => span_m,
        Planform::Ellipse { span_m, .. } => span_m,
        Planform::Outline => largest_height(points),
    }
}

fn last_x(points: &[f64]) -> f64
    ensures { result ≡ last_x points.now (pair_count points.now) }
{
    let n = points.len() / 2;
    if n == 0 {
        return 0.0;
    }
    points[2 * (n - 1)]
}

#[tactic(auto, unfolding(crate::specs::Planforms::largest_height))]
fn largest_height(points: &[f64]) -> f64
    ensures { result ≡ largest_height points.now (pair_count points.now) }
{
    let n = points.len() / 2;
    let mut largest = 0.0;
    for i in 0..n {
        largest = floats::max(largest, points[2 * i + 1]);
    }
    largest
}
