// A material's density, with its units in the case (material.rs, `Density`), and its check. Only bulk is taken.
#![tactic(auto)]

ghost use Rattle.std.specs.Prelude.{◌≡◌};
ghost use Rattle.materials.specs.Materials.{density_check};
ghost use Rattle.materials.specs.Numbered.{density_number, density_figure, numbered_density};

use refusals::{Refusal, Verdict};

#[derive(Clone, Copy)]
pub enum Density {
    Bulk { kg_m3: f64 },
    Surface { kg_m2: f64 },
    Line { kg_m: f64 },
}

// Returns the number of a density's kind: 1 bulk, 2 surface, 3 line. The figure is dropped, so this is no conversion.
pub fn number_of(density: Density) -> usize
    ensures { result ≡ density_number density }
{
    match density {
        Density::Bulk { kg_m3: _ } => 1,
        Density::Surface { kg_m2: _ } => 2,
        Density::Line { kg_m: _ } => 3,
    }
}

// Returns a density's figure, in the units of its kind.
pub fn figure_of(density: Density) -> f64
    ensures { result ≡ density_figure density }
{
    match density {
        Density::Bulk { kg_m3 } => kg_m3,
        Density::Surface { kg_m2 } => kg_m2,
        Density::Line { kg_m } => kg_m,
    }
}

// Returns the density of a kind's number and a figure; any number but 1, 2 and 3 is no kind's.
// Both are needed, and a TryFrom takes one value.
#[tactic(auto, unfolding(crate::specs::Numbered::numbered_density))]
pub fn numbered_density(number: usize, density: f64) -> Option<Density>
    ensures { result ≡ numbered_density number density }
{
    match number {
        1 => Some(Density::Bulk { kg_m3: density }),
        2 => Some(Density::Surface { kg_m2: density }),
        3 => Some(Density::Line { kg_m: density }),
        _ => None,
    }
}

// The least and the largest bulk density other than zero: 2^-10 and 2^15.
const LIGHTEST_KG_M3: f64 = 0.0009765625;

const HEAVIEST_KG_M3: f64 = 32768.0;

// Checks that a density is bulk and within its limits, else refuses with 12.
pub fn check_density(density: Density) -> Verdict
    ensures { result ≡ density_check density }
{
    match density {
        Density::Bulk { kg_m3 } => {
            let within = (kg_m3 == 0.0) | ((LIGHTEST_KG_M3 <= kg_m3) & (kg_m3 <= HEAVIEST_KG_M3));
            refusals::refuse_unless(within, Refusal::Density)
        }
        Density::Surface { kg_m2: _ } => Err(Refusal::Density),
        Density::Line { kg_m: _ } => Err(Refusal::Density),
    }
}
