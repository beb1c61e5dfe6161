// A set of fins, and every check of it before the strips (fins.rs, `FinSet::validate` and the checks of `single_fin`).
//
// Document 01, "Order": 1, 2, 3; the planform; thickness; cant, base angle; the tab with 10; body radius; 11; 12; and
// document 02's 21 directly after the thickness, a fillet's radius before the tab, its density and 22 after the
// plate's. Each check stands for itself, and the first refusal is the answer.
#![tactic(auto)]

ghost use Rattle.std.specs.Prelude.{◌≡◌};
ghost use Rattle.refusals.specs.Given.{IsVerdict};
ghost use Rattle.refusals.specs.Order.{first_of};
ghost use Rattle.fins.specs.Fins.{slab_check, tab_check, depth_check, plate_checks, mount_checks, fillet_checks};
ghost use Rattle.fins.specs.Fins.{own_check, set_check, area_check};
ghost use Rattle.fins.specs.Numbered.{tab_number, tab_figures, tab_of, numbered_set, numbers_of, counts_of, SetRoom};
ghost use Rattle.fins.specs.Numbered.{set_in, listed_set, known_set};

use fillets::{FILLET_FIGURES, Fillet};
use limits::{check_angle, check_length};
use materials::Density;
use planforms::{LENGTHS, Planform};
use refusals::{Refusal, Verdict};
use sections::Section;

// A rectangular tab below each root: its depth, its length, and how far aft of the root's leading edge it starts.
#[derive(Clone, Copy)]
pub struct FinTab {
    pub height_m: f64,
    pub length_m: f64,
    pub offset_m: f64,
}

// Identical fins spaced evenly around a body. An outline's points lie beside the set.
#[derive(Clone, Copy)]
pub struct FinSet {
    pub count: usize,
    pub planform: Planform,
    pub thickness_m: f64,
    pub cross_section: Section,
    pub tab: Option<FinTab>,
    pub fillet: Fillet,
    pub cant_rad: f64,
    pub base_angle_rad: f64,
    pub body_radius_m: f64,
    pub density: Density,
}

// How many figures a tab has.
pub const TAB_FIGURES: usize = 3;

// Returns 0 for no tab, 1 for one. The figures are dropped, so this is no conversion.
fn tab_number(tab: Option<FinTab>) -> usize
    ensures { result ≡ tab_number tab }
{
    match tab {
        None => 0,
        Some(_) => 1,
    }
}

// Returns the height, length and offset of a tab, or zeros where there is none.
fn tab_figures(tab: Option<FinTab>) -> [f64; TAB_FIGURES]
    ensures { result ≡ tab_figures tab }
{
    match tab {
        None => [0.0; TAB_FIGURES],
        Some(tab) => [tab.height_m, tab.length_m, tab.offset_m],
    }
}

// Returns no tab for 0, and for 1 the one of these figures; any other number says neither.
// A TryFrom takes one value, and this takes two.
#[tactic(auto, unfolding(crate::specs::Numbered::tab_of))]
pub fn tab_of(number: usize, figures: [f64; TAB_FIGURES]) -> Option<Option<FinTab>>
    ensures { result ≡ tab_of number figures }
{
    match number {
        0 => Some(None),
        1 => Some(Some(FinTab {
            height_m: figures[0],
            length_m: figures[1],
            offset_m: figures[2],
        })),
        _ => None,
    }
}

// Returns the set of these parts, where all of them are known.
pub fn numbered_set(
    count: usize,
    planform: Option<Planform>,
    thickness_m: f64,
    section: Option<Section>,
    tab: Option<Option<FinTab>>,
    fillet: Option<Fillet>,
    cant_rad: f64,
    base_angle_rad: f64,
    body_radius_m: f64,
    density: Option<Density>,
) -> Option<FinSet>
    ensures { result ≡ numbered_set count planform thickness_m section tab fillet
        cant_rad base_angle_rad body_radius_m density }
{
    Some(FinSet {
        count,
        planform: planform?,
        thickness_m,
        cross_section: section?,
        tab: tab?,
        fillet: fillet?,
        cant_rad,
        base_angle_rad,
        body_radius_m,
        density: density?,
    })
}

// How many numbers a set has in two lists, as C, Rust and a job's memory hold it.
pub const SET_NUMBERS: usize = LENGTHS + 5 + TAB_FIGURES + FILLET_FIGURES;

// How many counts a set has in these lists.
pub const SET_COUNTS: usize = 6;

// Returns the lengths and figures of a set.
pub fn numbers_of(set: FinSet) -> [f64; SET_NUMBERS]
    ensures { result ≡ numbers_of set }
{
    let planform = set.planform;
    let l = planforms::lengths_of(planform);
    let density = set.density;
    let plate = materials::figure_of(density);
    let tab = set.tab;
    let t = tab_figures(tab);
    let fillet = set.fillet;
    let f = fillets::figures_of(fillet);
    [
        l[0],
        l[1],
        l[2],
        l[3],
        set.thickness_m,
        set.cant_rad,
        set.base_angle_rad,
        set.body_radius_m,
        plate,
        t[0],
        t[1],
        t[2],
        f[0],
        f[1],
    ]
}

// Returns how many fins a set has, and the numbers of its parts.
pub fn counts_of(set: FinSet) -> [usize; SET_COUNTS]
    ensures { result ≡ counts_of set }
{
    let planform = set.planform;
    let section = set.cross_section;
    let tab = set.tab;
    let density = set.density;
    let fillet = set.fillet;
    let glue = fillet.density;
    [
        set.count,
        planforms::number_of(planform),
        usize::from(section),
        tab_number(tab),
        materials::number_of(density),
        materials::number_of(glue),
    ]
}

// Returns the set that two lists begin with.
pub fn set_in(numbers: &[f64], counts: &[usize]) -> Option<FinSet>
    requires { SetRoom numbers.now counts.now }
    ensures { result ≡ set_in numbers.now counts.now }
{
    numbered_set(
        counts[0],
        planforms::planform_of(counts[1], [numbers[0], numbers[1], numbers[2], numbers[3]]),
        numbers[4],
        Section::try_from(counts[2]).ok(),
        tab_of(counts[3], [numbers[9], numbers[10], numbers[11]]),
        fillets::fillet_of(counts[5], [numbers[12], numbers[13]]),
        numbers[5],
        numbers[6],
        numbers[7],
        materials::numbered_density(counts[4], numbers[8]),
    )
}

// Returns the set that two lists are; lists of another length are no set's.
#[tactic(auto, unfolding(crate::specs::Numbered::listed_set))]
pub fn listed_set(numbers: &[f64], counts: &[usize]) -> Option<FinSet>
    ensures { result ≡ listed_set numbers.now counts.now }
{
    if numbers.len() != SET_NUMBERS {
        return None;
    }
    if counts.len() != SET_COUNTS {
        return None;
    }
    set_in(numbers, counts)
}

// Returns the set where there is one, and else one of no fins, which is refused.
pub fn known_set(set: Option<FinSet>) -> FinSet
    ensures { result ≡ known_set set }
{
    match set {
        Some(set) => set,
        None => FinSet {
            count: 0,
            planform: Planform::Outline,
            thickness_m: 0.0,
            cross_section: Section::Square,
            tab: None,
            fillet: Fillet {
                radius_m: 0.0,
                density: Density::Bulk { kg_m3: 0.0 },
            },
            cant_rad: 0.0,
            base_angle_rad: 0.0,
            body_radius_m: 0.0,
            density: Density::Bulk { kg_m3: 0.0 },
        },
    }
}

// Checks the lengths of a tab, and 10: it lies along the root chord.
fn check_slab(height_m: f64, length_m: f64, offset_m: f64, root_chord_m: f64) -> Verdict
    ensures { result ≡ slab_check height_m length_m offset_m root_chord_m }
{
    let off_root = (offset_m < 0.0) | (root_chord_m * (1.0 + 1e-12) < offset_m + length_m);
    check_length(limits::TAB_HEIGHT, height_m)?;
    check_length(limits::TAB_LENGTH, length_m)?;
    check_length(limits::TAB_OFFSET, offset_m)?;
    refusals::refuse_when(off_root, Refusal::TabOffRoot)
}

#[tactic(auto, unfolding(crate::specs::Fins::tab_check))]
fn check_tab(tab: Option<FinTab>, root_chord_m: f64) -> Verdict
    ensures { result ≡ tab_check tab root_chord_m }
{
    match tab {
        None => Ok(()),
        Some(tab) => check_slab(tab.height_m, tab.length_m, tab.offset_m, root_chord_m),
    }
}

// Checks 11: the tab reaches no deeper than the body's axis.
#[tactic(auto, unfolding(crate::specs::Fins::depth_check))]
fn check_depth(tab: Option<FinTab>, body_radius_m: f64) -> Verdict
    ensures { result ≡ depth_check tab body_radius_m }
{
    match tab {
        None => Ok(()),
        Some(tab) => refusals::refuse_when(body_radius_m < tab.height_m, Refusal::TabTooDeep),
    }
}

// Checks thickness with 21, cant and base angle.
fn check_plate(root_chord_m: f64, thickness_m: f64, cant_rad: f64, base_angle_rad: f64) -> Verdict
    ensures { result ≡ first_of (plate_checks root_chord_m thickness_m cant_rad base_angle_rad) }
{
    let over_root = root_chord_m < thickness_m;
    check_length(limits::THICKNESS, thickness_m)?;
    refusals::refuse_when(over_root, Refusal::ThicknessOverRoot)?;
    check_angle(limits::CANT, cant_rad)?;
    check_angle(limits::BASE_ANGLE, base_angle_rad)
}

// Checks the fillet's radius, the tab, the body radius, how deep the tab reaches, and the density.
fn check_mount(
    tab: Option<FinTab>,
    fillet_radius_m: f64,
    root_chord_m: f64,
    body_radius_m: f64,
    density: Density,
) -> Verdict
    ensures { result ≡ first_of (mount_checks tab fillet_radius_m root_chord_m body_radius_m density) }
{
    check_length(limits::FILLET_RADIUS, fillet_radius_m)?;
    check_tab(tab, root_chord_m)?;
    check_length(limits::BODY_RADIUS, body_radius_m)?;
    check_depth(tab, body_radius_m)?;
    materials::check_density(density)
}

// Checks the fillet's density and 22.
fn check_fillet(fillet: Fillet, body_radius_m: f64) -> Verdict
    ensures { result ≡ first_of (fillet_checks fillet body_radius_m) }
{
    fillets::check_glue(fillet)?;
    fillets::check_ratio(fillet.radius_m, body_radius_m)
}

// Checks the set itself, whatever the interval limit and the scratch: 3, the planform, and so on to 22. The first
// refusal is the answer.
#[tactic(auto, using(refusals::proofs::Given::is_answer, crate::proofs::Groups::own_check_by_group))]
pub fn check_own(set: FinSet, points: &[f64]) -> Verdict
    ensures { IsVerdict result (own_check set points.now) }
{
    let planform = set.planform;
    let tab = set.tab;
    let fillet = set.fillet;
    let density = set.density;
    limits::check_count(set.count)?;
    outlines::check_planform(planform, points)?;
    let root_chord_m = planforms::root_chord_m(planform, points);
    check_plate(
        root_chord_m,
        set.thickness_m,
        set.cant_rad,
        set.base_angle_rad,
    )?;
    check_mount(
        tab,
        fillet.radius_m,
        root_chord_m,
        set.body_radius_m,
        density,
    )?;
    check_fillet(fillet, set.body_radius_m)
}

// Checks a set before its strips: the interval limit, the length of the lent scratch, and the set itself.
#[tactic(auto, using(refusals::proofs::Given::is_answer), unfolding(crate::specs::Fins::set_check, crate::specs::Fins::own_check))]
pub fn check_set(set: FinSet, points: &[f64], limit: usize, scratch_len: usize) -> Verdict
    ensures { IsVerdict result (set_check set points.now limit scratch_len) }
{
    limits::check_limit(limit)?;
    limits::check_scratch(limit, scratch_len)?;
    check_own(set, points)
}

// Checks a planform whose area alone is asked: the interval limit, the length of the lent scratch, and the planform.
#[tactic(auto, using(refusals::proofs::Given::is_answer), unfolding(crate::specs::Fins::area_check))]
pub fn check_area(planform: Planform, points: &[f64], limit: usize, scratch_len: usize) -> Verdict
    ensures { IsVerdict result (area_check planform points.now limit scratch_len) }
{
    limits::check_limit(limit)?;
    limits::check_scratch(limit, scratch_len)?;
    outlines::check_planform(planform, points)
}
