// Rigid bodies: mass, centre of mass and inertia tensor about the centre, and how a body moves and turns (mass.rs,
// `MassProperties`).
//
// Axes are the body's: z along the axis toward the nose, x the zero radial direction, y = z × x. The tensor about a
// point p is I = ∫ (|r|² E − r rᵀ) dm with r = position − p; about another point it is I + m (|d|² E − d dᵀ), d the
// centre less that point. Vectors, matrices and tensors work by component as glam's do (document 01, "Stand-ins"). As
// numbers, in lists of bodies, on lines and in the library, a body is its mass, its centre and its tensor's numbers, in
// that order.
#![tactic(auto)]

ghost use Rattle.std.specs.Prelude.{◌≡◌, ◌≤◌, length};
ghost use Rattle.floats.specs.Operations.{at};
ghost use Rattle.bodies.specs.Vectors.{add_vectors, subtract_vectors, scale_vector, divide_vector};
ghost use Rattle.bodies.specs.Matrices.{times_vector, times_matrix, transpose_of};
ghost use Rattle.bodies.specs.Tensors.{symmetric, tensor, as_matrix, averaged, add_tensors, subtract_tensors};
ghost use Rattle.bodies.specs.Tensors.{scale_tensor, turn_tensor, offset_tensor_of};
ghost use Rattle.bodies.specs.Bodies.{inertia_about_of, translated_of, rotated_of, of_origin_tensor};
ghost use Rattle.bodies.specs.Layout.{tensor_numbers, body_numbers, body_of, numbers_of};

// Three numbers along x, y and z: a place in metres, an offset, or a column of a matrix.
#[derive(Clone, Copy)]
pub struct Vector {
    pub x: f64,
    pub y: f64,
    pub z: f64,
}

// Nine numbers in columns: a rotation, or what is worked from one.
#[derive(Clone, Copy)]
pub struct Matrix(pub [f64; 9]);

// An inertia tensor in kg·m², which is symmetric: six numbers xx, yy, zz, xy, xz, yz.
#[derive(Clone, Copy)]
pub struct Tensor(pub [f64; 6]);

#[derive(Clone, Copy)]
pub struct Body {
    pub mass_kg: f64,
    pub centre_m: Vector,
    pub inertia_kg_m2: Tensor,
}

// How many numbers a tensor has.
pub const TENSOR_NUMBERS: usize = 6;

// How many numbers a body has.
pub const BODY_NUMBERS: usize = 10;

// Returns the tensor that a list's first six numbers make up.
pub fn tensor_of(numbers: &[f64]) -> Tensor
    requires { tensor_numbers ≤ length numbers.now }
    ensures { result ≡ tensor (at numbers.now) }
{
    Tensor([
        numbers[0], numbers[1], numbers[2], numbers[3], numbers[4], numbers[5],
    ])
}

// Returns the body that a list's first ten numbers make up.
pub fn body_of(numbers: &[f64]) -> Body
    requires { body_numbers ≤ length numbers.now }
    ensures { result ≡ body_of (at numbers.now) }
{
    Body {
        mass_kg: numbers[0],
        centre_m: Vector {
            x: numbers[1],
            y: numbers[2],
            z: numbers[3],
        },
        inertia_kg_m2: Tensor([
            numbers[4], numbers[5], numbers[6], numbers[7], numbers[8], numbers[9],
        ]),
    }
}

impl Vector {
    pub fn add(self, other: Vector) -> Vector
        ensures { result ≡ add_vectors self other }
    {
        Vector {
            x: self.x + other.x,
            y: self.y + other.y,
            z: self.z + other.z,
        }
    }

    pub fn subtract(self, other: Vector) -> Vector
        ensures { result ≡ subtract_vectors self other }
    {
        Vector {
            x: self.x - other.x,
            y: self.y - other.y,
            z: self.z - other.z,
        }
    }

    pub fn scale(self, factor: f64) -> Vector
        ensures { result ≡ scale_vector self factor }
    {
        Vector {
            x: self.x * factor,
            y: self.y * factor,
            z: self.z * factor,
        }
    }

    pub fn divide(self, divisor: f64) -> Vector
        ensures { result ≡ divide_vector self divisor }
    {
        Vector {
            x: self.x / divisor,
            y: self.y / divisor,
            z: self.z / divisor,
        }
    }
}

impl Matrix {
    fn transpose(self) -> Matrix
        ensures { result ≡ transpose_of self }
    {
        let a = self.0;
        Matrix([a[0], a[3], a[6], a[1], a[4], a[7], a[2], a[5], a[8]])
    }

    // Returns column 1 times x, plus column 2 times y, plus column 3 times z.
    fn times_vector(self, v: Vector) -> Vector
        ensures { result ≡ times_vector self v }
    {
        let a = self.0;
        Vector {
            x: a[0] * v.x + a[3] * v.y + a[6] * v.z,
            y: a[1] * v.x + a[4] * v.y + a[7] * v.z,
            z: a[2] * v.x + a[5] * v.y + a[8] * v.z,
        }
    }

    // Returns the product by columns: each column of `other` is taken through this matrix.
    fn times(self, other: Matrix) -> Matrix
        ensures { result ≡ times_matrix self other }
    {
        let b = other.0;
        let first = self.times_vector(Vector {
            x: b[0],
            y: b[1],
            z: b[2],
        });
        let second = self.times_vector(Vector {
            x: b[3],
            y: b[4],
            z: b[5],
        });
        let third = self.times_vector(Vector {
            x: b[6],
            y: b[7],
            z: b[8],
        });
        Matrix([
            first.x, first.y, first.z, second.x, second.y, second.z, third.x, third.y, third.z,
        ])
    }
}

impl Tensor {
    // Returns the tensor of three diagonal and three mixed numbers.
    pub fn symmetric(xx: f64, yy: f64, zz: f64, xy: f64, xz: f64, yz: f64) -> Tensor
        ensures { result ≡ symmetric xx yy zz xy xz yz }
    {
        Tensor([xx, yy, zz, xy, xz, yz])
    }

    pub fn add(self, other: Tensor) -> Tensor
        ensures { result ≡ add_tensors self other }
    {
        let a = self.0;
        let b = other.0;
        Tensor([
            a[0] + b[0],
            a[1] + b[1],
            a[2] + b[2],
            a[3] + b[3],
            a[4] + b[4],
            a[5] + b[5],
        ])
    }

    pub fn subtract(self, other: Tensor) -> Tensor
        ensures { result ≡ subtract_tensors self other }
    {
        let a = self.0;
        let b = other.0;
        Tensor([
            a[0] - b[0],
            a[1] - b[1],
            a[2] - b[2],
            a[3] - b[3],
            a[4] - b[4],
            a[5] - b[5],
        ])
    }

    pub fn scale(self, factor: f64) -> Tensor
        ensures { result ≡ scale_tensor self factor }
    {
        let a = self.0;
        Tensor([
            a[0] * factor,
            a[1] * factor,
            a[2] * factor,
            a[3] * factor,
            a[4] * factor,
            a[5] * factor,
        ])
    }

    // Returns the tensor as a matrix: a mixed number stands on both sides of the diagonal.
    pub fn as_matrix(self) -> Matrix
        ensures { result ≡ as_matrix self }
    {
        let a = self.0;
        Matrix([a[0], a[3], a[4], a[3], a[1], a[5], a[4], a[5], a[2]])
    }

    // Returns the diagonal of a matrix, and half the sum of each two opposite entries.
    fn averaged(matrix: Matrix) -> Tensor
        ensures { result ≡ averaged matrix }
    {
        let a = matrix.0;
        let xy = 0.5 * (a[3] + a[1]);
        let xz = 0.5 * (a[6] + a[2]);
        let yz = 0.5 * (a[7] + a[5]);
        Tensor([a[0], a[4], a[8], xy, xz, yz])
    }

    // Returns R I Rᵀ, whose opposite entries are equal up to rounding, and are averaged.
    pub fn turn(self, rotation: Matrix) -> Tensor
        ensures { result ≡ turn_tensor self rotation }
    {
        let product = rotation.times(self.as_matrix());
        Tensor::averaged(product.times(rotation.transpose()))
    }
}

// Returns |d|² E − d dᵀ, the parallel-axis term for unit mass at the offset d.
pub fn offset_tensor(d: Vector) -> Tensor
    ensures { result ≡ offset_tensor_of d }
{
    let square = d.x * d.x + d.y * d.y + d.z * d.z;
    Tensor([
        square - d.x * d.x,
        square - d.y * d.y,
        square - d.z * d.z,
        0.0 - d.x * d.y,
        0.0 - d.x * d.z,
        0.0 - d.y * d.z,
    ])
}

impl Body {
    // The empty body: no mass, at the origin.
    pub const ZERO: Body = Body {
        mass_kg: 0.0,
        centre_m: Vector {
            x: 0.0,
            y: 0.0,
            z: 0.0,
        },
        inertia_kg_m2: Tensor([0.0, 0.0, 0.0, 0.0, 0.0, 0.0]),
    };

    // Returns the tensor about `point_m` instead of the centre.
    pub fn inertia_about(self, point_m: Vector) -> Tensor
        ensures { result ≡ inertia_about_of self point_m }
    {
        let offset = self.centre_m.subtract(point_m);
        let inertia = self.inertia_kg_m2;
        inertia.add(offset_tensor(offset).scale(self.mass_kg))
    }

    // Returns the body moved by `offset_m`: the tensor about the centre stays.
    pub fn translated(self, offset_m: Vector) -> Body
        ensures { result ≡ translated_of self offset_m }
    {
        let centre_m = self.centre_m.add(offset_m);
        let inertia_kg_m2 = self.inertia_kg_m2;
        Body {
            mass_kg: self.mass_kg,
            centre_m,
            inertia_kg_m2,
        }
    }

    // Returns the body turned about the origin by the matrix `rotation`.
    pub fn rotated(self, rotation: Matrix) -> Body
        ensures { result ≡ rotated_of self rotation }
    {
        let centre_m = rotation.times_vector(self.centre_m);
        let inertia_kg_m2 = self.inertia_kg_m2.turn(rotation);
        Body {
            mass_kg: self.mass_kg,
            centre_m,
            inertia_kg_m2,
        }
    }

    // Returns the body as ten numbers.
    pub fn numbers(self) -> [f64; BODY_NUMBERS]
        ensures { result ≡ numbers_of self }
    {
        let centre = self.centre_m;
        let inertia = self.inertia_kg_m2;
        let a = inertia.0;
        [
            self.mass_kg,
            centre.x,
            centre.y,
            centre.z,
            a[0],
            a[1],
            a[2],
            a[3],
            a[4],
            a[5],
        ]
    }
}

// Returns the body of a mass at a centre whose tensor about the origin is `about_origin`: about the centre c that is I
// − m (|c|² E − c cᵀ).
#[tactic(auto, unfolding(crate::specs::Bodies::of_origin_tensor))]
pub fn of_origin_tensor(mass_kg: f64, centre_m: Vector, about_origin: Tensor) -> Body
    ensures { result ≡ of_origin_tensor mass_kg centre_m about_origin }
{
    let zero = Body::ZERO;
    let origin = zero.centre_m;
    let none = zero.inertia_kg_m2;
    let point = Body {
        mass_kg,
        centre_m,
        inertia_kg_m2: none,
    };
    let inertia_kg_m2 = about_origin.subtract(point.inertia_about(origin));
    Body {
        mass_kg,
        centre_m,
        inertia_kg_m2,
    }
}
