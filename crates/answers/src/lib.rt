// The card's answers (docs/FORMS.md), appended to a lent buffer.
//
// An answer is a template, filled in: `F` gives way to the next figure, `N` to the next count. None is longer than
// ANSWER_BYTES.
#![tactic(auto)]

ghost use Rattle.std.specs.Prelude.{◌≡◌, ◌+◌, ◌≤◌, length};
ghost use Rattle.texts.specs.Appended.{Appended};
ghost use Rattle.answers.specs.Filled.{filled, room};
ghost use Rattle.answers.specs.Answers.{AnswerFits, template, text_of};
ghost use Rattle.answers.specs.Places.{HasRoom, PutPiece};

// How many bytes an answer may have.
pub const ANSWER_BYTES: usize = 320;

// The templates of the longer answers, as docs/FORMS.md writes them.
const FIGURES: [u8; 81] =
    *b"(figures (mass F) (centre F F F) (inertia F F F F F F) (intervals N) (samples N))";

const AREA: [u8; 56] = *b"(area (area F) (centroid F F) (intervals N) (samples N))";

const JOINED: [u8; 54] = *b"(joined (mass F) (centre F F F) (inertia F F F F F F))";

const RING: [u8; 52] = *b"(ring (mass F) (centre F F F) (inertia F F F F F F))";

const BODY: [u8; 52] = *b"(body (mass F) (centre F F F) (inertia F F F F F F))";

const DONE: [u8; 90] =
    *b"(done N (figures (mass F) (centre F F F) (inertia F F F F F F) (intervals N) (samples N)))";

const PROGRESS: [u8; 58] = *b"(progress (worked N) (strips N) (intervals N) (samples N))";

// The answers that docs/FORMS.md lists, by what they tell.
#[derive(Clone, Copy)]
pub enum Shape {
    Figures,
    Area,
    Joined,
    Ring,
    Body,
    Closing,
    Inside,
    Edge,
    Outside,
    Moments,
    Sound,
    Taken,
    Idle,
    More,
    Done,
    DoneRefused,
    Progress,
    Refused,
}

// An answer: its shape, and the figures and counts that its template takes, from the first on. Those that the template
// does not reach are not printed.
#[derive(Clone, Copy)]
pub struct Reply {
    pub shape: Shape,
    pub figures: [f64; 10],
    pub counts: [u64; 4],
}

// Where printing stands: how many bytes are written, and how many figures and counts have been used. `blocks` fills in
// its own texts: one function for both would need a trait with laws of marks, room and pieces, longer than the two.
#[derive(Clone, Copy)]
struct Place {
    n: usize,
    figures: usize,
    counts: usize,
}

// Appends what one byte of a template stands for: the next figure for `F` (70), the next count for `N` (78), or nothing
// where none is left; any other byte stands for itself.
fn put_piece(out: &mut [u8], p: Place, b: u8, figures: &[f64], counts: &[u64]) -> Place
    requires { HasRoom out.old p b figures.now counts.now }
    ensures { PutPiece out.old out.new p result b figures.now counts.now }
{
    let n = p.n;
    let i = p.figures;
    let j = p.counts;
    if b == 70 {
        if figures.len() <= i {
            return p;
        }
        let end = hexadecimal::put_figure(out, n, figures[i]);
        let next = i + 1;
        return Place {
            n: end,
            figures: next,
            counts: j,
        };
    }
    if b == 78 {
        if counts.len() <= j {
            return p;
        }
        let end = counts::put_count(out, n, counts[j]);
        let next = j + 1;
        return Place {
            n: end,
            figures: i,
            counts: next,
        };
    }
    out[n] = b;
    let end = n + 1;
    Place {
        n: end,
        figures: i,
        counts: j,
    }
}

// Appends a template, filled in, to the n bytes at the start of out, and returns how many there are then.
pub fn put_filled(
    out: &mut [u8],
    n: usize,
    template: &[u8],
    figures: &[f64],
    counts: &[u64],
) -> usize
    requires { n + room template.now ≤ length out.old }
    ensures { Appended out.old n
        (filled template.now figures.now counts.now) out.new result }
{
    let mut p = Place {
        n,
        figures: 0,
        counts: 0,
    };
    for b in template {
        p = put_piece(out, p, *b, figures, counts);
    }
    p.n
}

// Returns the template of an answer of this shape.
#[tactic(auto, unfolding(tokens::specs::Text::text, tokens::specs::Text::codes))]
fn template(shape: Shape) -> &'static [u8]
    ensures { result.now ≡ template shape }
{
    match shape {
        Shape::Figures => &FIGURES,
        Shape::Area => &AREA,
        Shape::Joined => &JOINED,
        Shape::Ring => &RING,
        Shape::Body => &BODY,
        Shape::Closing => b"(closing F)",
        Shape::Inside => b"(inside N)",
        Shape::Edge => b"(edge N)",
        Shape::Outside => b"(outside N)",
        Shape::Moments => b"(moments F F F)",
        Shape::Sound => b"(sound)",
        Shape::Taken => b"(taken)",
        Shape::Idle => b"(idle)",
        Shape::More => b"(more N)",
        Shape::Done => &DONE,
        Shape::DoneRefused => b"(done N (refused N))",
        Shape::Progress => &PROGRESS,
        Shape::Refused => b"(refused N)",
    }
}

// Appends an answer to the n bytes at the start of out, and returns how many there are then.
pub fn put_reply(out: &mut [u8], n: usize, reply: Reply) -> usize
    requires { AnswerFits out.old n }
    ensures { Appended out.old n (text_of reply) out.new result }
{
    put_filled(out, n, template(reply.shape), &reply.figures, &reply.counts)
}
