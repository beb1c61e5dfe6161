// Fillets of glue along both sides of a fin's root (fins.rs, `fillets`, `fillet_section`, `sector`, `span_less_sine`).
//
// A fillet's circle of radius r touches the fin's plane and the body's circle of radius rb. Its centre stands at (c,
// r), c = √(rb² + 2 rb r), and its section is the triangle (0, 0), (c, 0), (c, r) less two circular sectors: the body's
// of angle θ = atan(r/c) and the fillet's of π/2 − θ. With A, S_x, S_xx, S_yy one section's area and moments about the
// body's axis, root chord l and density ρ, the two weigh 2ρAl, and about the origin I_xx = 2ρ(S_yy l + A l³/3), I_yy =
// 2ρ(S_xx l + A l³/3), I_zz = 2ρ(S_xx + S_yy) l, I_xz = ρ S_x l².
#![tactic(auto)]

ghost use Rattle.std.specs.Prelude.{◌≡◌};
ghost use Rattle.fillets.specs.Angles.{halved, angle_series, angle_of};
ghost use Rattle.fillets.specs.FilletSections.{less_moments, span_less_sine_series, span_less_sine_of, sector_with};
ghost use Rattle.fillets.specs.FilletSections.{sector_of, triangle_of, fillet_section_of};
ghost use Rattle.fillets.specs.Numbered.{fillet_figures, fillet_of};
ghost use Rattle.fillets.specs.Fillets.{is_none, is_sound, is_refused, glue_check, ratio_check, about_origin, pair_of};
ghost use Rattle.fillets.specs.Fillets.{fillets_of};

use bodies::{Body, Tensor, Vector};
use materials::Density;
use refusals::{Refusal, Verdict};

const PI: f64 = 3.141592653589793;

// The ratio of radius to body radius below which there is no fillet.
const THINNEST: f64 = 1e-6;

// The ratio of radius to body radius over which a fillet is refused.
const WIDEST: f64 = 1000.0;

// Glue along both sides of each root. With a radius of 0 there is none, and its density is not read.
#[derive(Clone, Copy)]
pub struct Fillet {
    pub radius_m: f64,
    pub density: Density,
}

// How many figures a fillet has.
pub const FILLET_FIGURES: usize = 2;

// Returns a fillet's radius and its density's figure. A fillet's number is its density's.
pub fn figures_of(fillet: Fillet) -> [f64; FILLET_FIGURES]
    ensures { result ≡ fillet_figures fillet }
{
    let density = fillet.density;
    [fillet.radius_m, materials::figure_of(density)]
}

// Returns the fillet of a number, 0 for none or else its density's, and of these figures.
// Both are needed, and a TryFrom takes one value.
#[tactic(auto, unfolding(crate::specs::Numbered::fillet_of))]
pub fn fillet_of(number: usize, figures: [f64; FILLET_FIGURES]) -> Option<Fillet>
    ensures { result ≡ fillet_of number figures }
{
    if number == 0 {
        return Some(Fillet {
            radius_m: 0.0,
            density: Density::Bulk { kg_m3: 0.0 },
        });
    }
    let density = materials::numbered_density(number, figures[1])?;
    Some(Fillet {
        radius_m: figures[0],
        density,
    })
}

// The area of a plane figure, and its moments ∫ x dA, ∫ x² dA and ∫ y² dA.
#[derive(Clone, Copy)]
pub struct AreaMoments {
    pub area_m2: f64,
    pub sx_m3: f64,
    pub sxx_m4: f64,
    pub syy_m4: f64,
}

// Returns the tangent of half the angle whose tangent is t.
fn halved(t: f64) -> f64
    ensures { result ≡ halved t }
{
    t / (1.0 + root::sqrt(1.0 + t * t))
}

// Returns the arc tangent of t divided by t, by z = t·t, from the last of eleven terms inwards.
fn angle_series(z: f64) -> f64
    ensures { result ≡ angle_series z }
{
    let v = 1.0 / 21.0;
    let v = 1.0 / 19.0 - z * v;
    let v = 1.0 / 17.0 - z * v;
    let v = 1.0 / 15.0 - z * v;
    let v = 1.0 / 13.0 - z * v;
    let v = 1.0 / 11.0 - z * v;
    let v = 1.0 / 9.0 - z * v;
    let v = 1.0 / 7.0 - z * v;
    let v = 1.0 / 5.0 - z * v;
    let v = 1.0 / 3.0 - z * v;
    1.0 / 1.0 - z * v
}

// Returns the angle of (c, r) from the first axis, for positive r and c (document 02, Paper 6).
#[tactic(auto, unfolding(crate::specs::Angles::angle_of))]
fn angle(r: f64, c: f64) -> f64
    ensures { result ≡ angle_of r c }
{
    let t = halved(halved(halved(r / c)));
    8.0 * t * angle_series(t * t)
}

// Returns x − sin x by the first seven terms of its series.
fn span_less_sine_series(x: f64) -> f64
    ensures { result ≡ span_less_sine_series x }
{
    let term = floats::powi3(x) / 6.0;
    let sum = 0.0 + term;
    let term = term * (-x * x / 20.0);
    let sum = sum + term;
    let term = term * (-x * x / 42.0);
    let sum = sum + term;
    let term = term * (-x * x / 72.0);
    let sum = sum + term;
    let term = term * (-x * x / 110.0);
    let sum = sum + term;
    let term = term * (-x * x / 156.0);
    let sum = sum + term;
    let term = term * (-x * x / 210.0);
    sum + term
}

// Returns x − sin x, by its series where the difference would cancel.
#[tactic(auto, unfolding(crate::specs::FilletSections::span_less_sine_of))]
fn span_less_sine(x: f64) -> f64
    ensures { result ≡ span_less_sine_of x }
{
    if 0.25 <= floats::abs(x) {
        let turn = trig::sin_cos(x);
        return x - turn.sin;
    }
    span_less_sine_series(x)
}

// Returns a sector's area and moments by the difference of its two angles and half their sum.
fn sector_with(x0: f64, y0: f64, rho: f64, span: f64, middle: f64) -> AreaMoments
    ensures { result ≡ sector_with x0 y0 rho span middle }
{
    let half_span = trig::sin_cos(0.5 * span);
    let half_sum = trig::sin_cos(middle);
    let whole_span = trig::sin_cos(span);
    let lean = span_less_sine(span);
    let sine = whole_span.sin;
    let cos = half_sum.cos;
    let sin = half_sum.sin;
    let area = 0.5 * rho * rho * span;
    let chord = 2.0 * half_span.sin * floats::powi3(rho) / 3.0;
    let sx = chord * cos;
    let sy = chord * sin;
    let fourth = floats::powi4(rho) / 8.0;
    let sxx = fourth * (lean + sine * 2.0 * (cos * cos));
    let syy = fourth * (lean + sine * 2.0 * (sin * sin));
    AreaMoments {
        area_m2: area,
        sx_m3: sx + x0 * area,
        sxx_m4: sxx + 2.0 * x0 * sx + x0 * x0 * area,
        syy_m4: syy + 2.0 * y0 * sy + y0 * y0 * area,
    }
}

// Returns the area of a circular sector about (x0, y0), of radius `rho`, from one angle to another, and its moments
// about the origin.
#[tactic(auto, unfolding(crate::specs::FilletSections::sector_of))]
fn sector(x0: f64, y0: f64, rho: f64, from: f64, to: f64) -> AreaMoments
    ensures { result ≡ sector_of x0 y0 rho from to }
{
    sector_with(x0, y0, rho, to - from, 0.5 * (to + from))
}

// Returns the area and moments of the triangle (0, 0), (c, 0), (c, r).
fn triangle(c: f64, r: f64) -> AreaMoments
    ensures { result ≡ triangle_of c r }
{
    let area = 0.5 * c * r;
    AreaMoments {
        area_m2: area,
        sx_m3: area * 2.0 * c / 3.0,
        sxx_m4: area * c * c / 2.0,
        syy_m4: area * r * r / 6.0,
    }
}

fn less(a: AreaMoments, b: AreaMoments) -> AreaMoments
    ensures { result ≡ less_moments a b }
{
    AreaMoments {
        area_m2: a.area_m2 - b.area_m2,
        sx_m3: a.sx_m3 - b.sx_m3,
        sxx_m4: a.sxx_m4 - b.sxx_m4,
        syy_m4: a.syy_m4 - b.syy_m4,
    }
}

// Returns one fillet's section on one side of a fin, with x outward along the fin, about the body's axis.
#[tactic(auto, unfolding(crate::specs::FilletSections::fillet_section_of))]
fn fillet_section(body_radius_m: f64, radius_m: f64) -> AreaMoments
    ensures { result ≡ fillet_section_of body_radius_m radius_m }
{
    let rb = body_radius_m;
    let r = radius_m;
    let c = root::sqrt(rb * rb + 2.0 * rb * r);
    let theta = angle(r, c);
    let body = sector(0.0, 0.0, rb, 0.0, theta);
    let joint = sector(c, r, r, theta - PI, -0.5 * PI);
    less(less(triangle(c, r), body), joint)
}

// Tells whether there is no fillet: its radius is not above 0, the body's is 0, or it is thinner than a millionth of
// the body's.
#[tactic(auto, unfolding(crate::specs::Fillets::is_none))]
fn is_none(radius_m: f64, body_radius_m: f64) -> bool
    ensures { result ≡ is_none radius_m body_radius_m }
{
    !(0.0 < radius_m) | (body_radius_m == 0.0) | (radius_m / body_radius_m < THINNEST)
}

// Tells whether a section has an area above 0 and finite moments.
#[tactic(auto, unfolding(crate::specs::Fillets::is_sound))]
fn is_sound(s: AreaMoments) -> bool
    ensures { result ≡ is_sound s }
{
    (0.0 < s.area_m2)
        & floats::is_finite(s.sx_m3)
        & floats::is_finite(s.sxx_m4)
        & floats::is_finite(s.syy_m4)
}

// Checks a fillet for 12: its density is asked for any radius above 0.
pub fn check_glue(fillet: Fillet) -> Verdict
    ensures { result ≡ glue_check fillet }
{
    let density = fillet.density;
    if 0.0 < fillet.radius_m {
        return materials::check_density(density);
    }
    Ok(())
}

// Checks a fillet for 22: it is no more than a thousand times as wide as the body, and its section is positive and
// finite, whether its density is zero or not.
#[tactic(auto, unfolding(crate::specs::Fillets::ratio_check))]
pub fn check_ratio(radius_m: f64, body_radius_m: f64) -> Verdict
    ensures { result ≡ ratio_check radius_m body_radius_m }
{
    if is_none(radius_m, body_radius_m) {
        return Ok(());
    }
    let wide = WIDEST < radius_m / body_radius_m;
    let sound = is_sound(fillet_section(body_radius_m, radius_m));
    refusals::refuse_when(wide | !sound, Refusal::FilletRatio)
}

// Returns the tensor of both fillets about the origin.
fn about_origin(kg_m3: f64, s: AreaMoments, l: f64) -> Tensor
    ensures { result ≡ about_origin kg_m3 s l }
{
    let ixz = kg_m3 * s.sx_m3 * l * l;
    let ends = s.area_m2 * floats::powi3(l) / 3.0;
    let xx = 2.0 * kg_m3 * (s.syy_m4 * l + ends);
    let yy = 2.0 * kg_m3 * (s.sxx_m4 * l + ends);
    let zz = 2.0 * kg_m3 * (s.sxx_m4 + s.syy_m4) * l;
    Tensor::symmetric(xx, yy, zz, 0.0, ixz, 0.0)
}

// Returns the body of both fillets, prisms of one section along the root chord l.
#[tactic(auto, unfolding(crate::specs::Fillets::pair_of))]
fn pair(kg_m3: f64, s: AreaMoments, l: f64) -> Body
    ensures { result ≡ pair_of kg_m3 s l }
{
    let centre_m = Vector {
        x: s.sx_m3 / s.area_m2,
        y: 0.0,
        z: -0.5 * l,
    };
    bodies::of_origin_tensor(
        2.0 * kg_m3 * s.area_m2 * l,
        centre_m,
        about_origin(kg_m3, s, l),
    )
}

// Returns the body of the two fillets along one fin's root, at roll angle 0 and no cant, or the empty body where there
// are none. Only bulk is taken.
#[tactic(auto, unfolding(crate::specs::Fillets::fillets_of))]
pub fn fillets(fillet: Fillet, body_radius_m: f64, root_chord_m: f64) -> Body
    ensures { result ≡ fillets_of fillet body_radius_m root_chord_m }
{
    if is_none(fillet.radius_m, body_radius_m) {
        return Body::ZERO;
    }
    let density = fillet.density;
    match density {
        Density::Bulk { kg_m3 } => {
            let section = fillet_section(body_radius_m, fillet.radius_m);
            pair(kg_m3, section, root_chord_m)
        }
        Density::Surface { kg_m2: _ } => Body::ZERO,
        Density::Line { kg_m: _ } => Body::ZERO,
    }
}
