// Copies of one body, spaced evenly about the body's axis and joined (fins.rs, the end of `FinSet::mass_properties`).
//
// Copy k of n is the one body turned about the axis by base + 2πk/n. The turned copies lie one after another in a lent
// list, and are joined there (document 01, "Body"). A single copy is turned and joined like any other.
#![tactic(auto)]

ghost use Rattle.std.specs.Prelude.{◌≡◌, ◌≤◌, length};
ghost use Rattle.rings.specs.Rings.{angle_of, TurnsTo, CopiesTo, joined_copies};

use bodies::Body;
use rotations::Quaternion;

const PI: f64 = 3.141592653589793;

fn angle(base_angle_rad: f64, count: usize, k: usize) -> f64
    requires { (count ≤ 32) × (k ≤ 32) }
    ensures { result ≡ angle_of base_angle_rad count k }
{
    base_angle_rad + 2.0 * PI * (k as f64) / (count as f64)
}

// Returns the turn of each copy. All turns are worked before any body is turned, so that one sine's divisions go on
// beside the next one's.
fn turns(base_angle_rad: f64, count: usize) -> [Quaternion; 32]
    requires { count ≤ 32 }
    ensures { TurnsTo count base_angle_rad count result }
{
    let mut all = [Quaternion {
        x: 0.0,
        y: 0.0,
        z: 0.0,
        w: 0.0,
    }; 32];
    for k in 0..count {
        all[k] = Quaternion::from_rotation_z(angle(base_angle_rad, count, k));
    }
    all
}

// Returns the turned copies, one after another.
fn copies(body: Body, base_angle_rad: f64, count: usize) -> [Body; 32]
    requires { count ≤ 32 }
    ensures filled { CopiesTo count body base_angle_rad count result }
    ensures long { length result ≡ 32 }
{
    let all = turns(base_angle_rad, count);
    let zero = Body::ZERO;
    let mut list = [zero; 32];
    for k in 0..count {
        list[k] = rotations::turned(body, all[k]);
    }
    list
}

// Returns the copies joined; their list is lent to the join.
fn joined_copies(body: Body, base_angle_rad: f64, count: usize) -> Body
    requires { count ≤ 32 }
    ensures { result ≡ joined_copies body base_angle_rad count }
{
    let list = copies(body, base_angle_rad, count);
    joins::join(&list[..count])
}

// Returns `count` copies of a body, evenly turned about the body's axis from the base angle, joined. A count other than
// 1 to 32 is the caller's to refuse.
pub fn ring(one: Body, base_angle_rad: f64, count: usize) -> Body
    requires { count ≤ 32 }
    ensures { result ≡ joined_copies one base_angle_rad count }
{
    joined_copies(one, base_angle_rad, count)
}
