// A block's text filled in, byte by byte: a mark gives way to the next figure or count, and every other byte stands for
// itself.
ghost use Rattle.std.specs.Prelude.{[], ◌≡◌, ◌+◌, ◌≤◌, length};
ghost use Rattle.std.specs.Float.{nan};
ghost use Rattle.floats.specs.Operations.{at};
ghost use Rattle.texts.specs.Appended.{Appended};
ghost use Rattle.blocks.specs.Filled.{is_figure_mark, figure_as, plain, filled, room, plain_most};
ghost use Rattle.blocks.specs.Cards.{largest_from, beside_from, mass_figures, mass_line, moment_figures, moment_line};
ghost use Rattle.blocks.specs.Cards.{all_zero, mixed_text};
ghost use Rattle.blocks.specs.Cards.{is_body_mark, body_piece, body_most, card, card_most};
ghost use Rattle.blocks.specs.Steps.{HasRoom, PutsPiece};

use crate::sentences;

// How many significant digits a figure of a block has.
const DIGITS: usize = 6;

// Where filling stands: how many bytes are written, and how many figures and counts have been used. `answers` fills in
// its own templates: one function for both would need a trait with laws of marks, room and pieces, longer than the two.
#[derive(Clone, Copy)]
pub(crate) struct Place {
    pub(crate) n: usize,
    pub(crate) figures: usize,
    pub(crate) counts: usize,
}

// Tells whether a byte is a figure's mark: G (71) or F (70).
fn is_figure_mark(b: u8) -> bool
    ensures { result ≡ is_figure_mark b }
{
    b == 71 || b == 70
}

// Appends a figure as its mark asks: times a thousand for G (71), which makes kilograms grams and metres millimetres,
// and as it is for F (70).
fn put_figure(out: &mut [u8], n: usize, b: u8, x: f64) -> usize
    requires { n + 44 ≤ length out.old }
    ensures { Appended out.old n (figure_as b x) out.new result }
{
    if b == 71 {
        return significant::put_decimal(out, n, x, DIGITS, 3, false);
    }
    significant::put_decimal(out, n, x, DIGITS, 0, false)
}

// Appends what one byte of a text stands for: the next figure for a figure's mark, the next count for N (78), or
// nothing where none is left; any other byte stands for itself.
fn put_piece(out: &mut [u8], p: Place, b: u8, figures: &[f64], counts: &[u64]) -> Place
    requires { HasRoom plain_most out.old p b figures.now counts.now }
    ensures { PutsPiece plain out.old out.new p result b figures.now counts.now }
{
    let n = p.n;
    let i = p.figures;
    let j = p.counts;
    if is_figure_mark(b) {
        if figures.len() <= i {
            return p;
        }
        let end = put_figure(out, n, b, figures[i]);
        let next = i + 1;
        return Place {
            n: end,
            figures: next,
            counts: j,
        };
    }
    if b == 78 {
        if counts.len() <= j {
            return p;
        }
        let end = counts::put_count(out, n, counts[j]);
        let next = j + 1;
        return Place {
            n: end,
            figures: i,
            counts: next,
        };
    }
    out[n] = b;
    let end = n + 1;
    Place {
        n: end,
        figures: i,
        counts: j,
    }
}

// Appends a text whose only marks are those of figures and counts. One function for this and `put_card` would need the
// same trait, for a loop of three lines.
fn put_plain(out: &mut [u8], n: usize, template: &[u8], figures: &[f64], counts: &[u64]) -> usize
    requires { n + room plain_most template.now ≤ length out.old }
    ensures { Appended out.old n
        (filled plain template.now figures.now counts.now) out.new result }
{
    let mut p = Place {
        n,
        figures: 0,
        counts: 0,
    };
    for b in template {
        p = put_piece(out, p, *b, figures, counts);
    }
    p.n
}

// Returns the figure at place k, or a NaN past the end.
fn figure_at(figures: &[f64], k: usize) -> f64
    ensures { result ≡ at figures.now k }
{
    if k < figures.len() {
        return figures[k];
    }
    0.0 / 0.0
}

// Returns the largest magnitude of three figures, from place k on.
fn largest_from(figures: &[f64], k: usize) -> f64
    requires { k ≤ 4 }
    ensures { result ≡ largest_from figures.now k }
{
    let x = floats::abs(figure_at(figures, k));
    let y = floats::abs(figure_at(figures, k + 1));
    let z = floats::abs(figure_at(figures, k + 2));
    floats::max(floats::max(x, y), z)
}

// Returns the figure at place i, or 0 where it is below 2^-40 of the largest of the three from place k on, as the noise
// of rounding is.
fn beside_from(figures: &[f64], k: usize, i: usize) -> f64
    requires { k ≤ 4 }
    ensures { result ≡ beside_from figures.now k i }
{
    let x = figure_at(figures, i);
    let size = floats::abs(x);
    let largest = largest_from(figures, k);
    if size * 1099511627776.0 < largest {
        return 0.0;
    }
    x
}

// Returns the mass, and how far aft the balance point lies: z points to the nose.
fn mass_figures(figures: &[f64]) -> [f64; 2]
    ensures { result ≡ mass_figures figures.now }
{
    let z = beside_from(figures, 1, 3);
    [figure_at(figures, 0), -z]
}

// Appends the mass, and the balance point's line up to the name of the origin.
fn put_mass(out: &mut [u8], n: usize, figures: &[f64]) -> usize
    requires { n + 130 ≤ length out.old }
    ensures { Appended out.old n (filled plain mass_line (mass_figures figures.now) [])
        out.new result }
{
    let shown = mass_figures(figures);
    let counts: [u64; 0] = [];
    put_plain(
        out,
        n,
        b"mass G g\nbalance point G mm aft of ",
        &shown,
        &counts,
    )
}

// Returns x and y of the balance point, and the moments about z, x and y.
fn moment_figures(figures: &[f64]) -> [f64; 5]
    ensures { result ≡ moment_figures figures.now }
{
    [
        beside_from(figures, 1, 1),
        beside_from(figures, 1, 2),
        beside_from(figures, 4, 6),
        beside_from(figures, 4, 4),
        beside_from(figures, 4, 5),
    ]
}

// Appends the rest of the balance point's line, and the moments about that point.
fn put_moments(out: &mut [u8], n: usize, figures: &[f64]) -> usize
    requires { n + 330 ≤ length out.old }
    ensures { Appended out.old n (filled plain moment_line (moment_figures figures.now) [])
        out.new result }
{
    let shown = moment_figures(figures);
    let counts: [u64; 0] = [];
    put_plain(
        out,
        n,
        b", off the axis by G mm in x and G mm in y\n\
        moments about it: roll (zz) F, pitch (xx) F, yaw (yy) F kg\xc2\xb7m\xc2\xb2\n",
        &shown,
        &counts,
    )
}

fn all_zero(a: f64, b: f64, c: f64) -> bool
    ensures { result ≡ all_zero a b c }
{
    a == 0.0 && b == 0.0 && c == 0.0
}

// Appends the tensor's mixed entries, unless all of them are noise beside the diagonal.
fn put_mixed(out: &mut [u8], n: usize, figures: &[f64]) -> usize
    requires { n + 200 ≤ length out.old }
    ensures { Appended out.old n (mixed_text figures.now) out.new result }
{
    let xy = beside_from(figures, 4, 7);
    let xz = beside_from(figures, 4, 8);
    let yz = beside_from(figures, 4, 9);
    if all_zero(xy, xz, yz) {
        return n;
    }
    let shown = [xy, xz, yz];
    let counts: [u64; 0] = [];
    put_plain(
        out,
        n,
        b"mixed entries of the tensor: xy F, xz F, yz F kg\xc2\xb7m\xc2\xb2\n",
        &shown,
        &counts,
    )
}

// Tells whether a byte is a mark of a body: B (66), C (67) or D (68).
fn is_body_mark(b: u8) -> bool
    ensures { result ≡ is_body_mark b }
{
    b == 66 || b == 67 || b == 68
}

// Appends the part of a body that a mark asks for: the mass for B (66), the moments for C (67), the mixed entries for D
// (68).
fn put_body(out: &mut [u8], n: usize, b: u8, figures: &[f64]) -> usize
    requires { n + body_most b ≤ length out.old }
    ensures { Appended out.old n (body_piece b figures.now) out.new result }
{
    if b == 66 {
        return put_mass(out, n, figures);
    }
    if b == 67 {
        return put_moments(out, n, figures);
    }
    put_mixed(out, n, figures)
}

// Appends what one byte of a block's text stands for: a part of a body, a refusal with its sentence for R (82), or what
// the byte is in a text without these marks.
fn put_mark(out: &mut [u8], p: Place, b: u8, figures: &[f64], counts: &[u64]) -> Place
    requires { HasRoom card_most out.old p b figures.now counts.now }
    ensures { PutsPiece card out.old out.new p result b figures.now counts.now }
{
    let i = p.figures;
    let j = p.counts;
    if is_body_mark(b) {
        let end = put_body(out, p.n, b, &figures[i..]);
        return Place {
            n: end,
            figures: i,
            counts: j,
        };
    }
    if b == 82 {
        if counts.len() <= j {
            return p;
        }
        let end = sentences::put_refusal(out, p.n, counts[j]);
        let next = j + 1;
        return Place {
            n: end,
            figures: i,
            counts: next,
        };
    }
    put_piece(out, p, b, figures, counts)
}

// Appends a block's text with its marks filled in, and returns how many bytes there are then.
pub(crate) fn put_card(
    out: &mut [u8],
    n: usize,
    template: &[u8],
    figures: &[f64],
    counts: &[u64],
) -> usize
    requires { n + room card_most template.now ≤ length out.old }
    ensures { Appended out.old n
        (filled card template.now figures.now counts.now) out.new result }
{
    let mut p = Place {
        n,
        figures: 0,
        counts: 0,
    };
    for b in template {
        p = put_mark(out, p, *b, figures, counts);
    }
    p.n
}
