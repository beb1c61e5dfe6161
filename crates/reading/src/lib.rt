// What a line asks (docs/FORMS.md), read once into a value of its own type.
//
// The word after the first bracket says which form a line is, and the form is read from its beginning, one part after
// another; a line that does not fit, or goes on after the last bracket, is no form.
#![tactic(auto)]

ghost use Rattle.std.specs.Prelude.{true, ◌≡◌, ◌≤◌, length, take, drop};
ghost use Rattle.floats.specs.Operations.{at};
ghost use Rattle.refusals.specs.declared.Refusal.{Refusal};
ghost use Rattle.tokens.specs.Tokens.{line_bytes};
ghost use Rattle.templates.specs.Cursors.{Room, reading_at, Takes};
ghost use Rattle.planforms.specs.Numbered.{planform_of};
ghost use Rattle.materials.specs.Numbered.{numbered_density};
ghost use Rattle.reading.specs.Parts.{take_planform, take_density, take_set, set_parts_of, set_of};
ghost use Rattle.reading.specs.Lines.{pick_form, form_named, set_asked, submit_asked, area_asked, drill_asked};
ghost use Rattle.reading.specs.Lines.{tubes_asked, density_asked, set_read, submit_read, area_read, drill_read};
ghost use Rattle.reading.specs.Lines.{tubes_read, closing_read, density_read, progress_read, plain_read, list_read};
ghost use Rattle.reading.specs.Lines.{form_read, line_read, word_of};
ghost use Rattle.reading.specs.Reads.{refused_line, end_of, Reads, IsWordOf};

use fins::FinSet;
use materials::Density;
use planforms::Planform;
use refusals::Refusal;
use sections::Section;
use templates::{Cursor, same_bytes};
use tokens::{LINE_BYTES, TokenRange};
use tubes::TubeFinSet;

// The longer forms that have figures alone, as docs/FORMS.md writes them; of those with copies and places, what stands
// before these.
const CHECK: [u8; 53] = *b"(check (mass F) (centre F F F) (inertia F F F F F F))";

const COPIED: [u8; 60] = *b"(copied (body (mass F) (centre F F F) (inertia F F F F F F))";

const PLACED: [u8; 60] = *b"(placed (body (mass F) (centre F F F) (inertia F F F F F F))";

const MOVED: [u8; 128] =
    *b"(moved (body (mass F) (centre F F F) (inertia F F F F F F)) (body (mass F) (centre F F F) (inertia F F F F F F)) (offset F F F))";

const WITHOUT: [u8; 115] =
    *b"(without (body (mass F) (centre F F F) (inertia F F F F F F)) (body (mass F) (centre F F F) (inertia F F F F F F)))";

// What a line asks, or why it is refused. `points` is how many of the line's first figures are its planform's. Points
// to join, a tensor, bodies and places are not kept here: they are all of the line's figures.
#[derive(Clone, Copy)]
pub enum Asked {
    Refused(Refusal),
    Set {
        limit: usize,
        set: FinSet,
        points: usize,
    },
    Area {
        limit: usize,
        planform: Planform,
        points: usize,
    },
    Join,
    Moments,
    Check,
    Tubes {
        set: TubeFinSet,
        body_radius_m: f64,
    },
    Closing {
        count: usize,
        body_radius_m: f64,
    },
    Drill {
        planform: Planform,
        points: usize,
        x_m: f64,
        height_m: f64,
    },
    Copied,
    Placed,
    Moved,
    Without,
    Submit {
        screen: usize,
        limit: usize,
        set: FinSet,
        points: usize,
    },
    Density {
        screen: usize,
        density: Density,
    },
    Turn,
    Progress {
        screen: usize,
    },
}

// A line that was read: what it asks, and how many figures it has, which stand at the start of a lent slice.
#[derive(Clone, Copy)]
pub struct Line {
    pub asked: Asked,
    pub figures: usize,
}

#[derive(Clone, Copy)]
pub enum Form {
    Set,
    Area,
    Join,
    Moments,
    Check,
    Tubes,
    Closing,
    Drill,
    Copied,
    Placed,
    Moved,
    Without,
    Submit,
    Density,
    Turn,
    Progress,
    NoForm,
}

// The parts of a set by their numbers, and how many figures stand before those of the thickness (`points`, the
// planform's own), of the tab, of the fillet, of cant, base and radius, and of the density.
#[derive(Clone, Copy)]
pub struct SetParts {
    pub limit: usize,
    pub count: usize,
    pub planform: usize,
    pub points: usize,
    pub section: usize,
    pub tab: usize,
    pub before_tab: usize,
    pub fillet: usize,
    pub before_fillet: usize,
    pub before_cant: usize,
    pub density: usize,
    pub before_density: usize,
}

// Where reading stands after a set, and the set's parts.
#[derive(Clone, Copy)]
struct SetRead {
    end: Cursor,
    parts: SetParts,
}

// Returns figure i, or a NaN past the end.
fn figure(values: &[f64], i: usize) -> f64
    ensures { result ≡ at values.now i }
{
    if i < values.len() {
        return values[i];
    }
    0.0 / 0.0
}

// Returns the first `count` figures of a line, or all where there are fewer.
pub fn first(values: &[f64], count: usize) -> &[f64]
    ensures { result.now ≡ take count values.now }
{
    let end = count.min(values.len());
    &values[..end]
}

// Returns the figures from a place on.
pub fn behind(values: &[f64], from: usize) -> &[f64]
    ensures { result.now ≡ drop from values.now }
{
    let first = from.min(values.len());
    &values[first..]
}

// ---- parts

fn take_planform(line: &[u8], c: Cursor, values: &mut [f64]) -> Cursor
    requires { Room line.now values.old c }
    ensures { Takes take_planform line.now values.old values.new c result }
{
    templates::take_one_of(
        line,
        c,
        b"(trapezoid F F F F)|(ellipse F F)|(outline F..)",
        values,
    )
}

fn take_density(line: &[u8], c: Cursor, values: &mut [f64]) -> Cursor
    requires { Room line.now values.old c }
    ensures { Takes take_density line.now values.old values.new c result }
{
    templates::take_one_of(line, c, b"(bulk F)|(surface F)|(line F)", values)
}

// Reads a whole set, and returns where reading stands then, with the set's parts.
fn take_set(line: &[u8], c: Cursor, values: &mut [f64]) -> SetRead
    requires { Room line.now values.old c }
    ensures takes { Takes take_set line.now values.old values.new c result.end }
    ensures parts_value { result.end.ok ≡ true → result.parts ≡ set_parts_of (reading_at line.now values.old c) }
{
    let limit = templates::take_text(line, c, b"(set (limit N)", values);
    let count = templates::take_text(line, limit, b"(count N)", values);
    let planform = take_planform(line, count, values);
    let thickness = templates::take_text(line, planform, b"(thickness F) (section", values);
    let section = templates::take_one_of(
        line,
        thickness,
        b"square|rounded|airfoil|airfoil-open",
        values,
    );
    let between = templates::take_text(line, section, b")", values);
    let tab = templates::take_optional(line, between, b"(tab F F F)", values);
    let fillet = templates::take_optional(
        line,
        tab,
        b"(fillet F (bulk F))|(fillet F (surface F))|(fillet F (line F))",
        values,
    );
    let radius = templates::take_text(line, fillet, b"(cant F) (base F) (radius F)", values);
    let density = take_density(line, radius, values);
    let end = templates::take_text(line, density, b")", values);
    let parts = SetParts {
        limit: limit.number,
        count: count.number,
        planform: planform.number,
        points: planform.figures,
        section: section.number,
        tab: tab.number,
        before_tab: between.figures,
        fillet: fillet.number,
        before_fillet: tab.figures,
        before_cant: fillet.figures,
        density: density.number,
        before_density: radius.figures,
    };
    SetRead { end, parts }
}

// ---- what the parts make up

fn planform_in(number: usize, figures: &[f64]) -> Option<Planform>
    ensures { result ≡ planform_of number figures.now }
{
    let lengths = [
        figure(figures, 0),
        figure(figures, 1),
        figure(figures, 2),
        figure(figures, 3),
    ];
    planforms::planform_of(number, lengths)
}

fn set_in(p: SetParts, figures: &[f64]) -> Option<FinSet>
    ensures { result ≡ set_of p figures.now }
{
    let planform = planform_in(p.planform, figures);
    let section = Section::try_from(p.section).ok();
    let slab = behind(figures, p.before_tab);
    let tab = fins::tab_of(p.tab, [figure(slab, 0), figure(slab, 1), figure(slab, 2)]);
    let glue = behind(figures, p.before_fillet);
    let fillet = fillets::fillet_of(p.fillet, [figure(glue, 0), figure(glue, 1)]);
    let angles = behind(figures, p.before_cant);
    let density = materials::numbered_density(p.density, figure(figures, p.before_density));
    fins::numbered_set(
        p.count,
        planform,
        figure(figures, p.points),
        section,
        tab,
        fillet,
        figure(angles, 0),
        figure(angles, 1),
        figure(angles, 2),
        density,
    )
}

fn set_asked(p: SetParts, figures: &[f64]) -> Asked
    ensures { result ≡ set_asked p.limit p.points (set_of p figures.now) }
{
    match set_in(p, figures) {
        Some(set) => Asked::Set {
            limit: p.limit,
            set,
            points: p.points,
        },
        None => Asked::Refused(Refusal::NoForm),
    }
}

fn submit_asked(screen: usize, p: SetParts, figures: &[f64]) -> Asked
    ensures { result ≡ submit_asked screen p.limit p.points (set_of p figures.now) }
{
    match set_in(p, figures) {
        Some(set) => Asked::Submit {
            screen,
            limit: p.limit,
            set,
            points: p.points,
        },
        None => Asked::Refused(Refusal::NoForm),
    }
}

fn area_asked(limit: usize, planform: usize, points: usize, figures: &[f64]) -> Asked
    ensures { result ≡ area_asked limit points (planform_of planform figures.now) }
{
    match planform_in(planform, figures) {
        Some(planform) => Asked::Area {
            limit,
            planform,
            points,
        },
        None => Asked::Refused(Refusal::NoForm),
    }
}

// Returns what a line asks about a point, whose two figures stand after the planform's.
fn drill_asked(planform: usize, points: usize, figures: &[f64]) -> Asked
    ensures { result ≡ drill_asked points (planform_of planform figures.now) figures.now }
{
    let point = behind(figures, points);
    match planform_in(planform, figures) {
        Some(planform) => {
            Asked::Drill {
                planform,
                points,
                x_m: figure(point, 0),
                height_m: figure(point, 1),
            }
        }
        None => Asked::Refused(Refusal::NoForm),
    }
}

// Returns what a line asks about a ring of tubes. Its figures are length, outer radius, wall, base angle, body radius
// and density, in this order.
fn tubes_asked(count: usize, density: usize, figures: &[f64]) -> Asked
    ensures { result ≡ tubes_asked count (numbered_density density (at figures.now 5)) figures.now }
{
    match materials::numbered_density(density, figure(figures, 5)) {
        Some(density) => Asked::Tubes {
            set: TubeFinSet {
                count,
                length_m: figure(figures, 0),
                outer_radius_m: figure(figures, 1),
                thickness_m: figure(figures, 2),
                base_angle_rad: figure(figures, 3),
                density,
            },
            body_radius_m: figure(figures, 4),
        },
        None => Asked::Refused(Refusal::NoForm),
    }
}

fn density_asked(screen: usize, density: usize, figures: &[f64]) -> Asked
    ensures { result ≡ density_asked screen (numbered_density density (at figures.now 0)) }
{
    match materials::numbered_density(density, figure(figures, 0)) {
        Some(density) => Asked::Density { screen, density },
        None => Asked::Refused(Refusal::NoForm),
    }
}

// ---- forms

fn refused(refusal: Refusal) -> Line
    ensures { result ≡ refused_line refusal }
{
    Line {
        asked: Asked::Refused(refusal),
        figures: 0,
    }
}

// Returns what is asked, or the refusal: 18 where the form was not read to its end or a token of the line is left, then
// 19 where a word that is no figure stood in a figure's place.
fn end_form(line: &[u8], c: Cursor, asked: Asked) -> Line
    ensures { result ≡ end_of line.now c asked }
{
    if !c.ok {
        return refused(Refusal::NoForm);
    }
    let at = c.at;
    let found = tokens::next_token(line, at);
    if found.from < found.to {
        return refused(Refusal::NoForm);
    }
    if c.spoiled {
        return refused(Refusal::NoFigure);
    }
    Line {
        asked,
        figures: c.figures,
    }
}

fn read_set(line: &[u8], values: &mut [f64]) -> Line
    requires { (length line.now ≤ line_bytes) × (length line.now ≤ length values.old) }
    ensures { Reads values.new result (set_read line.now) }
{
    let set = take_set(line, templates::line_start(), values);
    let all = set.end;
    let n = all.figures;
    end_form(line, all, set_asked(set.parts, &values[..n]))
}

fn read_submit(line: &[u8], values: &mut [f64]) -> Line
    requires { (length line.now ≤ line_bytes) × (length line.now ≤ length values.old) }
    ensures { Reads values.new result (submit_read line.now) }
{
    let screen = templates::take_text(line, templates::line_start(), b"(submit N", values);
    let set = take_set(line, screen, values);
    let all = templates::take_text(line, set.end, b")", values);
    let n = all.figures;
    end_form(
        line,
        all,
        submit_asked(screen.number, set.parts, &values[..n]),
    )
}

fn read_area(line: &[u8], values: &mut [f64]) -> Line
    requires { (length line.now ≤ line_bytes) × (length line.now ≤ length values.old) }
    ensures { Reads values.new result (area_read line.now) }
{
    let limit = templates::take_text(line, templates::line_start(), b"(area (limit N)", values);
    let planform = take_planform(line, limit, values);
    let all = templates::take_text(line, planform, b")", values);
    let n = all.figures;
    end_form(
        line,
        all,
        area_asked(
            limit.number,
            planform.number,
            planform.figures,
            &values[..n],
        ),
    )
}

fn read_drill(line: &[u8], values: &mut [f64]) -> Line
    requires { (length line.now ≤ line_bytes) × (length line.now ≤ length values.old) }
    ensures { Reads values.new result (drill_read line.now) }
{
    let head = templates::take_text(line, templates::line_start(), b"(drill", values);
    let planform = take_planform(line, head, values);
    let all = templates::take_text(line, planform, b"(at F F))", values);
    let n = all.figures;
    end_form(
        line,
        all,
        drill_asked(planform.number, planform.figures, &values[..n]),
    )
}

fn read_tubes(line: &[u8], values: &mut [f64]) -> Line
    requires { (length line.now ≤ line_bytes) × (length line.now ≤ length values.old) }
    ensures { Reads values.new result (tubes_read line.now) }
{
    let count = templates::take_text(
        line,
        templates::line_start(),
        b"(tubes (count N) (length F) (outer F) (wall F) (base F) (radius F)",
        values,
    );
    let density = take_density(line, count, values);
    let all = templates::take_text(line, density, b")", values);
    let n = all.figures;
    end_form(
        line,
        all,
        tubes_asked(count.number, density.number, &values[..n]),
    )
}

fn read_density(line: &[u8], values: &mut [f64]) -> Line
    requires { (length line.now ≤ line_bytes) × (length line.now ≤ length values.old) }
    ensures { Reads values.new result (density_read line.now) }
{
    let screen = templates::take_text(line, templates::line_start(), b"(density N", values);
    let density = take_density(line, screen, values);
    let all = templates::take_text(line, density, b")", values);
    let n = all.figures;
    end_form(
        line,
        all,
        density_asked(screen.number, density.number, &values[..n]),
    )
}

fn read_progress(line: &[u8], values: &mut [f64]) -> Line
    requires { (length line.now ≤ line_bytes) × (length line.now ≤ length values.old) }
    ensures { Reads values.new result (progress_read line.now) }
{
    let all = templates::take_text(line, templates::line_start(), b"(progress N)", values);
    end_form(line, all, Asked::Progress { screen: all.number })
}

fn read_closing(line: &[u8], values: &mut [f64]) -> Line
    requires { (length line.now ≤ line_bytes) × (length line.now ≤ length values.old) }
    ensures { Reads values.new result (closing_read line.now) }
{
    let all = templates::take_text(
        line,
        templates::line_start(),
        b"(closing (count N) (radius F))",
        values,
    );
    let n = all.figures;
    let body_radius_m = figure(&values[..n], 0);
    end_form(
        line,
        all,
        Asked::Closing {
            count: all.number,
            body_radius_m,
        },
    )
}

// Reads a form that has figures alone, by one template.
fn read_plain(line: &[u8], template: &[u8], asked: Asked, values: &mut [f64]) -> Line
    requires { (length line.now ≤ line_bytes) × (length line.now ≤ length values.old) }
    ensures { Reads values.new result (plain_read template.now asked line.now) }
{
    let all = templates::take_text(line, templates::line_start(), template, values);
    end_form(line, all, asked)
}

// Reads a form whose last part may stand there any number of times.
fn read_list(line: &[u8], head: &[u8], each: &[u8], asked: Asked, values: &mut [f64]) -> Line
    requires { (length line.now ≤ line_bytes) × (length line.now ≤ length values.old) }
    ensures { Reads values.new result (list_read head.now each.now asked line.now) }
{
    let first = templates::take_text(line, templates::line_start(), head, values);
    let parts = templates::take_each(line, first, each, values);
    let all = templates::take_text(line, parts, b")", values);
    end_form(line, all, asked)
}

// ---- lines

// Returns where the word after the line's first bracket stands, an empty range where there is none.
fn word_of(line: &[u8]) -> TokenRange
    ensures { IsWordOf line.now result }
{
    let bracket = tokens::next_token(line, 0);
    if bracket.to <= bracket.from {
        return bracket;
    }
    tokens::next_token(line, bracket.to)
}

// Returns `form` where the word is this name, else `other`.
fn form_or(word: &[u8], name: &[u8], form: Form, other: Form) -> Form
    ensures { result ≡ pick_form word.now name.now form other }
{
    if same_bytes(word, name) { form } else { other }
}

// Returns the form that a word names.
fn form_named(word: &[u8]) -> Form
    ensures { result ≡ form_named word.now }
{
    let progress = form_or(word, b"progress", Form::Progress, Form::NoForm);
    let turn = form_or(word, b"turn", Form::Turn, progress);
    let density = form_or(word, b"density", Form::Density, turn);
    let submit = form_or(word, b"submit", Form::Submit, density);
    let without = form_or(word, b"without", Form::Without, submit);
    let moved = form_or(word, b"moved", Form::Moved, without);
    let placed = form_or(word, b"placed", Form::Placed, moved);
    let copied = form_or(word, b"copied", Form::Copied, placed);
    let drill = form_or(word, b"drill", Form::Drill, copied);
    let closing = form_or(word, b"closing", Form::Closing, drill);
    let tubes = form_or(word, b"tubes", Form::Tubes, closing);
    let check = form_or(word, b"check", Form::Check, tubes);
    let moments = form_or(word, b"moments", Form::Moments, check);
    let join = form_or(word, b"join", Form::Join, moments);
    let area = form_or(word, b"area", Form::Area, join);
    form_or(word, b"set", Form::Set, area)
}

// Reads a line as a form.
fn read_form(form: Form, line: &[u8], values: &mut [f64]) -> Line
    requires { (length line.now ≤ line_bytes) × (length line.now ≤ length values.old) }
    ensures { Reads values.new result (form_read form line.now) }
{
    match form {
        Form::Set => read_set(line, values),
        Form::Area => read_area(line, values),
        Form::Join => read_list(line, b"(join", b"(point F F F F)", Asked::Join, values),
        Form::Moments => read_plain(line, b"(moments F F F F F F)", Asked::Moments, values),
        Form::Check => read_plain(line, &CHECK, Asked::Check, values),
        Form::Tubes => read_tubes(line, values),
        Form::Closing => read_closing(line, values),
        Form::Drill => read_drill(line, values),
        Form::Copied => read_list(line, &COPIED, b"(offset F F)", Asked::Copied, values),
        Form::Placed => read_list(line, &PLACED, b"(place F F F)", Asked::Placed, values),
        Form::Moved => read_plain(line, &MOVED, Asked::Moved, values),
        Form::Without => read_plain(line, &WITHOUT, Asked::Without, values),
        Form::Submit => read_submit(line, values),
        Form::Density => read_density(line, values),
        Form::Turn => read_plain(line, b"(turn)", Asked::Turn, values),
        Form::Progress => read_progress(line, values),
        Form::NoForm => refused(Refusal::NoForm),
    }
}

// Reads what a line asks. Its figures go to the start of `values`, which has room for one for each byte of a line that
// is not too long.
pub fn read_line(line: &[u8], values: &mut [f64]) -> Line
    requires { length line.now ≤ line_bytes → length line.now ≤ length values.old }
    ensures { Reads values.new result (line_read line.now) }
{
    if LINE_BYTES < line.len() {
        return refused(Refusal::NoForm);
    }
    let found = word_of(line);
    let from = found.from;
    let to = found.to;
    let form = form_named(&line[from..to]);
    read_form(form, line, values)
}
