// Several bodies joined into one rigid body (mass.rs, `MassProperties::combine`).
//
// m = Σ mₖ, centre = Σ mₖ cₖ / m, I = Σ [Iₖ + mₖ (|dₖ|² E − dₖ dₖᵀ)] with dₖ = cₖ − centre, the sums in order and from
// +0. A total mass not above 0 takes the mean of the centres, a NaN mass a NaN centre (document 01, "Body"). The steps
// are by value. The bodies lie one after another, in a lent list of structs (document 01, "Places and their forms") or,
// at the library's edge, as their numbers; either is read twice, body by body.
#![tactic(auto)]

ghost use Rattle.std.specs.Prelude.{◌≡◌, ◌+◌, ◌*◌, ◌≤◌, length, fold};
ghost use Rattle.bodies.specs.Layout.{body_numbers};
ghost use Rattle.joins.specs.Flat.{body_at, with_body};
ghost use Rattle.joins.specs.Joins.{sums_of, no_sums, add_body, centre_of, at_centre, add_inertia, join_of, two_bodies};
ghost use Rattle.joins.specs.Joins.{IsJoined, combine_of};
ghost use Rattle.joins.specs.Lists.{join_list};

use bodies::{BODY_NUMBERS, Body, Vector};
use refusals::Refusal;

// What the centre is worked from: total mass, Σ mₖ cₖ, Σ cₖ and how many bodies there are.
#[derive(Clone, Copy)]
pub struct Sums {
    pub mass_kg: f64,
    pub moment: Vector,
    pub positions: Vector,
    pub count: f64,
}

// Joins one to 32 bodies by their numbers. Numbers of none or of more, or of no whole number of bodies, are refused 3.
pub fn combine(numbers: &[f64]) -> Result<Body, Refusal>
    ensures { IsJoined result (combine_of numbers.now) }
{
    if numbers.len() % BODY_NUMBERS != 0 {
        return Err(Refusal::Count);
    }
    let count = numbers.len() / BODY_NUMBERS;
    limits::check_count(count)?;
    Ok(join_numbers(numbers, count))
}

// Joins bodies by their numbers, read where they lie: a list of structs would take longer to fill than to join.
fn join_numbers(numbers: &[f64], count: usize) -> Body
    requires { body_numbers * count ≤ length numbers.now }
    ensures { result ≡ join_of (body_at numbers.now) count }
{
    let mut joined = at_centre(sum_numbers(numbers, count));
    for k in 0..count {
        joined = add_inertia(joined, body_at(numbers, k));
    }
    joined
}

fn sum_numbers(numbers: &[f64], count: usize) -> Sums
    requires { body_numbers * count ≤ length numbers.now }
    ensures { result ≡ sums_of (body_at numbers.now) count }
{
    let mut sums = no_sums();
    for k in 0..count {
        sums = add_body(sums, body_at(numbers, k));
    }
    sums
}

fn body_at(numbers: &[f64], k: usize) -> Body
    requires { body_numbers * k + body_numbers ≤ length numbers.now }
    ensures { result ≡ body_at numbers.now k }
{
    let o = BODY_NUMBERS * k;
    let e = o + BODY_NUMBERS;
    bodies::body_of(&numbers[o..e])
}

// Joins the bodies of a lent list; none are the empty body. How many may be joined is the caller's rule.
pub fn join(bodies: &[Body]) -> Body
    ensures { result ≡ join_list bodies.now }
{
    let sums = add_bodies(no_sums(), bodies);
    add_inertias(at_centre(sums), bodies)
}

// Returns the sums with every body of the list, in order.
fn add_bodies(start: Sums, bodies: &[Body]) -> Sums
    ensures { result ≡ fold add_body start bodies.now }
{
    bodies
        .iter()
        .fold(start, |sums, body| add_body(sums, *body))
}

// Returns the joined body with the tensor of every body of the list, in order.
fn add_inertias(start: Body, bodies: &[Body]) -> Body
    ensures { result ≡ fold add_inertia start bodies.now }
{
    bodies
        .iter()
        .fold(start, |joined, body| add_inertia(joined, *body))
}

// Writes `body` over body k of the slice.
pub fn write_body(bodies: &mut [f64], k: usize, body: Body)
    requires { body_numbers * k + body_numbers ≤ length bodies.old }
    ensures { bodies.new ≡ with_body bodies.old k body }
{
    let start = BODY_NUMBERS * k;
    let end = start + BODY_NUMBERS;
    bodies[start..end].copy_from_slice(&body.numbers());
}

// Returns the sums over no bodies, which every join starts from.
fn no_sums() -> Sums
    ensures { result ≡ no_sums }
{
    let zero = Body::ZERO;
    let mass_kg = zero.mass_kg;
    let origin = zero.centre_m;
    Sums {
        mass_kg,
        moment: origin,
        positions: origin,
        count: 0.0,
    }
}

// Returns the sums with one more body.
fn add_body(sums: Sums, body: Body) -> Sums
    ensures { result ≡ add_body sums body }
{
    let centre_m = body.centre_m;
    let moment = sums.moment.add(centre_m.scale(body.mass_kg));
    let positions = sums.positions.add(centre_m);
    Sums {
        mass_kg: sums.mass_kg + body.mass_kg,
        moment,
        positions,
        count: sums.count + 1.0,
    }
}

// Returns the centre by the sums: the origin for no bodies, as in the Rust.
fn centre(sums: Sums) -> Vector
    ensures { result ≡ centre_of sums }
{
    let mass = sums.mass_kg;
    if mass != mass {
        let nan = 0.0 / 0.0;
        return Vector {
            x: nan,
            y: nan,
            z: nan,
        };
    }
    if 0.0 < mass {
        return sums.moment.divide(mass);
    }
    if 0.0 < sums.count {
        return sums.positions.divide(sums.count);
    }
    let zero = Body::ZERO;
    zero.centre_m
}

// Returns the sums' mass at their centre: the joined body before any tensor is added.
fn at_centre(sums: Sums) -> Body
    ensures { result ≡ at_centre sums }
{
    let zero = Body::ZERO;
    let centre_m = centre(sums);
    let inertia_kg_m2 = zero.inertia_kg_m2;
    Body {
        mass_kg: sums.mass_kg,
        centre_m,
        inertia_kg_m2,
    }
}

// Returns the joined body with the tensor of one more body, about the joined centre.
fn add_inertia(joined: Body, body: Body) -> Body
    ensures { result ≡ add_inertia joined body }
{
    let centre_m = joined.centre_m;
    let inertia_kg_m2 = joined.inertia_kg_m2.add(body.inertia_about(centre_m));
    Body {
        mass_kg: joined.mass_kg,
        centre_m,
        inertia_kg_m2,
    }
}

// Joins two bodies.
pub fn join_two(first: Body, second: Body) -> Body
    ensures { result ≡ join_of (two_bodies first second) 2 }
{
    let sums = add_body(add_body(no_sums(), first), second);
    add_inertia(add_inertia(at_centre(sums), first), second)
}
