// Clusters and removals: copies of one body at places across the axis, joined; a part moved inside a body, or taken off
// it (mass.rs, `Placement`, `copied`, `placed`, `with_part_moved`, `without_part`).
//
// A copy is the body rolled about the axis by its place's angle, then moved by its offset. Places stand in a lent list
// as numbers, x and y of each and, in a list with rolls, the roll after them. Masses and centres have no upper limit,
// so a figure may be infinite or NaN, as the Rust's is. Taking a part off and putting it on again conserves mass only
// up to rounding (docs/DIFFERENCES.md).
#![tactic(auto)]

ghost use Rattle.std.specs.Prelude.{true, false, ◌≡◌, ◌*◌, ◌≤◌, ◌<◌, length, Ok};
ghost use Rattle.bodies.specs.Layout.{body_numbers};
ghost use Rattle.joins.specs.Flat.{with_bodies};
ghost use Rattle.joins.specs.Joins.{joined_of, IsJoined};
ghost use Rattle.placements.specs.Places.{is_here, place_count, is_whole_list, place_at, list_check, place_check};
ghost use Rattle.placements.specs.Places.{places_check};
ghost use Rattle.placements.specs.Copies.{turned_copy, copy_at, placed_of, copies_check, copies_of, copied_of};
ghost use Rattle.placements.specs.Copies.{placed_at_of};
ghost use Rattle.placements.specs.Parts.{part_moved_of, offset_checks, moved_check, moved_of, part_off_of, without_check};
ghost use Rattle.placements.specs.Parts.{without_of};
ghost use Rattle.refusals.specs.Order.{first_of};

use bodies::{BODY_NUMBERS, Body, Vector, offset_tensor};
use limits::check_length;
use refusals::{Refusal, Verdict};

// How many numbers hold a copy for each place that a list may have.
const COPIES_NUMBERS: usize = 32 * BODY_NUMBERS;

// Where one copy sits: turned by the roll about the axis, then moved across it.
#[derive(Clone, Copy)]
pub struct Placement {
    pub offset_x_m: f64,
    pub offset_y_m: f64,
    pub roll_rad: f64,
}

impl Placement {
    // The body where it is: no move, no turn.
    pub const HERE: Placement = Placement {
        offset_x_m: 0.0,
        offset_y_m: 0.0,
        roll_rad: 0.0,
    };

    fn is_here(self) -> bool
        ensures { result ≡ is_here self }
    {
        let here = Placement::HERE;
        (self.offset_x_m == here.offset_x_m)
            & (self.offset_y_m == here.offset_y_m)
            & (self.roll_rad == here.roll_rad)
    }

    // Checks the offset's two numbers, else refuses with 4, then the roll, else refuses with 9.
    fn check(self) -> Verdict
        ensures { result ≡ place_check self }
    {
        check_length(limits::OFFSET, self.offset_x_m)?;
        check_length(limits::OFFSET, self.offset_y_m)?;
        limits::check_angle(limits::ROLL, self.roll_rad)
    }
}

fn turned_copy(body: Body, roll_rad: f64) -> Body
    ensures { result ≡ turned_copy body roll_rad }
{
    if roll_rad == 0.0 {
        return body;
    }
    rotations::rolled(body, roll_rad)
}

fn copy_at(body: Body, place: Placement) -> Body
    ensures { result ≡ copy_at body place }
{
    let offset_m = Vector {
        x: place.offset_x_m,
        y: place.offset_y_m,
        z: 0.0,
    };
    turned_copy(body, place.roll_rad).translated(offset_m)
}

fn count_places(places: &[f64], rolled: bool) -> usize
    ensures { result ≡ place_count rolled places.now }
{
    if rolled {
        return places.len() / 3;
    }
    places.len() / 2
}

fn is_whole_list(places: &[f64], rolled: bool) -> bool
    ensures { result ≡ is_whole_list rolled places.now }
{
    if rolled {
        return places.len() % 3 == 0;
    }
    places.len() % 2 == 0
}

// Returns place k of a list with rolls.
fn rolled_place(places: &[f64], k: usize) -> Placement
    requires { k < place_count true places.now }
    ensures { result ≡ place_at true places.now k }
{
    Placement {
        offset_x_m: places[3 * k],
        offset_y_m: places[3 * k + 1],
        roll_rad: places[3 * k + 2],
    }
}

// Returns place k of a list without rolls.
fn moved_place(places: &[f64], k: usize) -> Placement
    requires { k < place_count false places.now }
    ensures { result ≡ place_at false places.now k }
{
    Placement {
        offset_x_m: places[2 * k],
        offset_y_m: places[2 * k + 1],
        roll_rad: 0.0,
    }
}

fn place_at(places: &[f64], rolled: bool, k: usize) -> Placement
    requires { k < place_count rolled places.now }
    ensures { result ≡ place_at rolled places.now k }
{
    if rolled {
        return rolled_place(places, k);
    }
    moved_place(places, k)
}

// Checks that a list holds a whole number of places, 1 to 32, else refuses with 3.
fn check_list(places: &[f64], rolled: bool) -> Verdict
    ensures { result ≡ list_check rolled places.now }
{
    if !is_whole_list(places, rolled) {
        return Err(Refusal::Count);
    }
    limits::check_count(count_places(places, rolled))
}

fn check_places(places: &[f64], rolled: bool) -> Verdict
    ensures { result ≡ places_check rolled places.now }
{
    let n = count_places(places, rolled);
    for k in 0..n {
        let place = place_at(places, rolled, k);
        place.check()?;
    }
    Ok(())
}

// Checks the body, the list's length and then its places. No place is looked at before the length has passed.
#[tactic(auto, unfolding(crate::specs::Copies::copies_check))]
fn check_copies(body: Body, places: &[f64], rolled: bool) -> Verdict
    ensures { result ≡ copies_check rolled body places.now }
{
    body_check::check(body)?;
    check_list(places, rolled)?;
    check_places(places, rolled)
}

// Writes the copies one after another from the start of a list.
fn write_copies(bodies: &mut [f64], body: Body, places: &[f64], rolled: bool, count: usize)
    requires { (body_numbers * count ≤ length bodies.old) × (count ≤ place_count rolled places.now) }
    ensures { bodies.new ≡ with_bodies (λ k. copy_at body (place_at rolled places.now k)) count
        bodies.old }
{
    for k in 0..count {
        let copy = copy_at(body, place_at(places, rolled, k));
        joins::write_body(bodies, k, copy);
    }
}

fn joined_copies(body: Body, places: &[f64], rolled: bool, count: usize) -> Result<Body, Refusal>
    requires { (count ≤ 32) × (count ≤ place_count rolled places.now) }
    ensures { result ≡ joined_of (λ k. copy_at body (place_at rolled places.now k)) count }
{
    let mut list = [0.0; COPIES_NUMBERS];
    write_copies(&mut list, body, places, rolled, count);
    let end = BODY_NUMBERS * count;
    joins::combine(&list[..end])
}

// Returns the copies joined. A single one that neither moves nor turns is the body itself.
fn placed_copies(body: Body, places: &[f64], rolled: bool) -> Result<Body, Refusal>
    requires { (1 ≤ place_count rolled places.now) × (place_count rolled places.now ≤ 32) }
    ensures { result ≡ Ok
        (placed_of body (place_at rolled places.now) (place_count rolled places.now)) }
{
    let count = count_places(places, rolled);
    let first = place_at(places, rolled, 0);
    if (count == 1) & first.is_here() {
        return Ok(body);
    }
    joined_copies(body, places, rolled, count)
}

#[tactic(auto, unfolding(crate::specs::Copies::copies_of))]
fn copies(body: Body, places: &[f64], rolled: bool) -> Result<Body, Refusal>
    ensures { IsJoined result (copies_of rolled body places.now) }
{
    check_copies(body, places, rolled)?;
    placed_copies(body, places, rolled)
}

// Returns copies of a body joined, one moved across the axis by each x and y of a list.
pub fn copied(body: Body, offsets_m: &[f64]) -> Result<Body, Refusal>
    ensures { IsJoined result (copied_of body offsets_m.now) }
{
    copies(body, offsets_m, false)
}

// Returns copies of a body joined, one at each place of a list: x, y and roll.
pub fn placed(body: Body, places: &[f64]) -> Result<Body, Refusal>
    ensures { IsJoined result (placed_at_of body places.now) }
{
    copies(body, places, true)
}

fn part_moved(whole: Body, part: Body, offset_m: Vector) -> Body
    ensures { result ≡ part_moved_of whole part offset_m }
{
    let from_m = part.centre_m;
    let share = offset_m.scale(part.mass_kg / whole.mass_kg);
    let centre_m = whole.centre_m.add(share);
    let before = offset_tensor(from_m.subtract(centre_m));
    let after = offset_tensor(from_m.add(offset_m).subtract(centre_m));
    let moved = after.subtract(before).scale(part.mass_kg);
    let inertia_kg_m2 = whole.inertia_about(centre_m).add(moved);
    Body {
        mass_kg: whole.mass_kg,
        centre_m,
        inertia_kg_m2,
    }
}

// Checks each number of an offset, else refuses with 4.
fn check_offset(offset_m: Vector) -> Verdict
    ensures { result ≡ first_of (offset_checks offset_m) }
{
    check_length(limits::OFFSET, offset_m.x)?;
    check_length(limits::OFFSET, offset_m.y)?;
    check_length(limits::OFFSET, offset_m.z)
}

#[tactic(auto, unfolding(crate::specs::Parts::moved_check))]
fn check_moved(whole: Body, part: Body, offset_m: Vector) -> Verdict
    ensures { result ≡ moved_check whole part offset_m }
{
    body_check::check(whole)?;
    body_check::check(part)?;
    check_offset(offset_m)?;
    refusals::refuse_when(whole.mass_kg == 0.0, Refusal::NotHeavier)
}

// Returns the whole with one of its parts moved by an offset inside it.
#[tactic(auto, unfolding(crate::specs::Parts::moved_of))]
pub fn with_part_moved(whole: Body, part: Body, offset_m: Vector) -> Result<Body, Refusal>
    ensures { IsJoined result (moved_of whole part offset_m) }
{
    check_moved(whole, part, offset_m)?;
    Ok(part_moved(whole, part, offset_m))
}

fn part_off(whole: Body, part: Body) -> Body
    ensures { result ≡ part_off_of whole part }
{
    let mass_kg = whole.mass_kg - part.mass_kg;
    let of_part = part.centre_m.scale(part.mass_kg);
    let left = whole.centre_m.scale(whole.mass_kg).subtract(of_part);
    let centre_m = left.divide(mass_kg);
    let part_inertia = part.inertia_about(centre_m);
    let inertia_kg_m2 = whole.inertia_about(centre_m).subtract(part_inertia);
    Body {
        mass_kg,
        centre_m,
        inertia_kg_m2,
    }
}

#[tactic(auto, unfolding(crate::specs::Parts::without_check))]
fn check_without(whole: Body, part: Body) -> Verdict
    ensures { result ≡ without_check whole part }
{
    body_check::check(whole)?;
    body_check::check(part)?;
    refusals::refuse_when(whole.mass_kg <= part.mass_kg, Refusal::NotHeavier)
}

// Returns the whole with one of its parts taken off.
#[tactic(auto, unfolding(crate::specs::Parts::without_of))]
pub fn without_part(whole: Body, part: Body) -> Result<Body, Refusal>
    ensures { IsJoined result (without_of whole part) }
{
    check_without(whole, part)?;
    Ok(part_off(whole, part))
}
