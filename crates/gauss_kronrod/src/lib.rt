// The tables of the 7-15 Gauss-Kronrod rule, QUADPACK's qk15, as the Rust's quadrature.rs has them: on −1 to 1
//
//     K = Σ w_i f(±x_i),   G = Σ v_j f(±x_{2j+1}),   the centre x_7 = 0 counted once.
//
// Document 01, "Piece and tally": each rule gives the integral of the even powers within 2^-48, the Kronrod rule up to
// the 22nd, the Gauss rule up to the 12th (proofs/RuleMoments.antt). Past the end of a table the answer is a NaN.
#![tactic(auto)]

ghost use Rattle.std.specs.Prelude.{◌≡◌};
ghost use Rattle.floats.specs.Operations.{at};
ghost use Rattle.gauss_kronrod.specs.Tables.{nodes, kronrod_weights, gauss_weights};

// The nodes, by the published digits: each constant is the nearest f64. The fifth node is QUADPACK's: the Rust has
// other digits from the 26th place on, and the same f64.
const NODES: [f64; 8] = [
    0.991_455_371_120_812_639_206_854_697_526_329,
    0.949_107_912_342_758_524_526_189_684_047_851,
    0.864_864_423_359_769_072_789_712_788_640_926,
    0.741_531_185_599_394_439_863_864_773_280_788,
    0.586_087_235_467_691_130_294_144_838_258_730,
    0.405_845_151_377_397_166_906_606_412_076_961,
    0.207_784_955_007_898_467_600_689_403_773_245,
    0.0,
];

// The Kronrod weights of the nodes, by the published digits.
const KRONROD_WEIGHTS: [f64; 8] = [
    0.022_935_322_010_529_224_963_732_008_058_970,
    0.063_092_092_629_978_553_290_700_663_189_204,
    0.104_790_010_322_250_183_839_876_322_541_518,
    0.140_653_259_715_525_918_745_189_590_510_238,
    0.169_004_726_639_267_902_826_583_426_598_550,
    0.190_350_578_064_785_409_913_256_402_421_014,
    0.204_432_940_075_298_892_414_161_999_234_649,
    0.209_482_141_084_727_828_012_999_174_891_714,
];

// The Gauss weights of the nodes 1, 3, 5 and 7, by the published digits.
const GAUSS_WEIGHTS: [f64; 4] = [
    0.129_484_966_168_869_693_270_611_432_679_082,
    0.279_705_391_489_276_667_901_467_771_423_780,
    0.381_830_050_505_118_944_950_369_775_488_975,
    0.417_959_183_673_469_387_755_102_040_816_327,
];

// Returns node i of the rule, from the largest, node 0, to the centre, node 7.
pub fn node(i: usize) -> f64
    ensures { result ≡ at nodes i }
{
    if i < 8 { NODES[i] } else { 0.0 / 0.0 }
}

// Returns the Kronrod weight of node i.
pub fn kronrod_weight(i: usize) -> f64
    ensures { result ≡ at kronrod_weights i }
{
    if i < 8 { KRONROD_WEIGHTS[i] } else { 0.0 / 0.0 }
}

// Returns the Gauss weight of node 2·j + 1: the table's four are those of the nodes 1, 3, 5 and 7.
pub fn gauss_weight(j: usize) -> f64
    ensures { result ≡ at gauss_weights j }
{
    if j < 4 { GAUSS_WEIGHTS[j] } else { 0.0 / 0.0 }
}
