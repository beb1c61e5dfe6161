// A body turned about the x or the z axis through the origin by an angle (mass.rs, `rotated` and `rolled`).
//
// The turn is glam's unit quaternion, worked into its matrix R; the centre becomes R c and the tensor R I Rᵀ (document
// 01, "Stand-ins"). Every product is worked, those with the quaternion's zeros too.
#![tactic(auto)]

ghost use Rattle.std.specs.Prelude.{◌≡◌};
ghost use Rattle.rotations.specs.Rotations.{about_x, about_z, matrix_of, turned_of, rotated_xof, rolled_of};

use bodies::{Body, Matrix};

#[derive(Clone, Copy)]
pub struct Quaternion {
    pub x: f64,
    pub y: f64,
    pub z: f64,
    pub w: f64,
}

impl Quaternion {
    // Returns the turn about x by an angle (right-handed: y toward z).
    pub fn from_rotation_x(angle_rad: f64) -> Quaternion
        ensures { result ≡ about_x angle_rad }
    {
        let half = trig::sin_cos(angle_rad / 2.0);
        Quaternion {
            x: half.sin,
            y: 0.0,
            z: 0.0,
            w: half.cos,
        }
    }

    // Returns the turn about z by an angle (right-handed: x toward y).
    pub fn from_rotation_z(angle_rad: f64) -> Quaternion
        ensures { result ≡ about_z angle_rad }
    {
        let half = trig::sin_cos(angle_rad / 2.0);
        Quaternion {
            x: 0.0,
            y: 0.0,
            z: half.sin,
            w: half.cos,
        }
    }

    // Returns the matrix of the turn (glam's `from_quat`).
    pub fn matrix(self) -> Matrix
        ensures { result ≡ matrix_of self }
    {
        let x2 = self.x + self.x;
        let y2 = self.y + self.y;
        let z2 = self.z + self.z;
        let xx2 = self.x * x2;
        let xy2 = self.x * y2;
        let xz2 = self.x * z2;
        let yy2 = self.y * y2;
        let yz2 = self.y * z2;
        let zz2 = self.z * z2;
        let wx2 = self.w * x2;
        let wy2 = self.w * y2;
        let wz2 = self.w * z2;
        Matrix([
            1.0 - (yy2 + zz2),
            xy2 + wz2,
            xz2 - wy2,
            xy2 - wz2,
            1.0 - (xx2 + zz2),
            yz2 + wx2,
            xz2 + wy2,
            yz2 - wx2,
            1.0 - (xx2 + yy2),
        ])
    }
}

// Returns the body turned by a quaternion.
pub fn turned(body: Body, turn: Quaternion) -> Body
    ensures { result ≡ turned_of body turn }
{
    body.rotated(turn.matrix())
}

pub fn rotated_x(body: Body, angle_rad: f64) -> Body
    ensures { result ≡ rotated_xof body angle_rad }
{
    turned(body, Quaternion::from_rotation_x(angle_rad))
}

// Returns the body rolled about the z axis.
pub fn rolled(body: Body, angle_rad: f64) -> Body
    ensures { result ≡ rolled_of body angle_rad }
{
    turned(body, Quaternion::from_rotation_z(angle_rad))
}
