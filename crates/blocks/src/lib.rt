// Answers of the card program as blocks to read: mass in g, lengths in mm, moments in kg·m² to six significant digits,
// a refusal as its sentence.
//
// A line is brought to its shape, in which `F` stands for a figure and `N` for a count, and the shape is looked up in a
// table of the answers with their blocks. Every line has a block, whatever its bytes: one that looks like no answer
// says so.
#![tactic(auto)]

mod filling;
pub mod lookup;
pub mod sentences;
mod words;

ghost use Rattle.std.specs.Prelude.{◌++◌, ◌+◌, ◌≤◌, length};
ghost use Rattle.texts.specs.Appended.{Appended};
ghost use Rattle.templates.specs.Matching.{cut_at_bars};
ghost use Rattle.blocks.specs.Tables.{text_for};
ghost use Rattle.blocks.specs.Filled.{filled, room};
ghost use Rattle.blocks.specs.Cards.{or_else, newline, card, card_most, no_answer, shown, block_of, BlockFits};
ghost use Rattle.blocks.specs.Cards.{numbered_block, numbered_bytes};

// How many bytes an answer may have: a longer line is none.
const LONGEST: usize = 512;

// Appends the text that the table has for this shape, filled in, or nothing where it has none.
fn put_found(
    out: &mut [u8],
    n: usize,
    table: &[u8],
    shape: &[u8],
    figures: &[f64],
    counts: &[u64],
) -> usize
    requires { BlockFits n out.old × (length table.now ≤ 4096)
        × (room card_most (text_for shape.now (cut_at_bars table.now)) ≤ 1000) }
    ensures { Appended out.old n
        (filled card (text_for shape.now (cut_at_bars table.now)) figures.now
        counts.now) out.new result }
{
    match lookup::find(table, shape) {
        Some(p) => filling::put_card(out, n, &table[p.from..p.to], figures, counts),
        None => n,
    }
}

// Appends the block that the table has for this shape, or the text that the line is no answer, and an empty line.
fn put_from(
    out: &mut [u8],
    n: usize,
    table: &[u8],
    shape: &[u8],
    figures: &[f64],
    counts: &[u64],
) -> usize
    requires { BlockFits n out.old × (length table.now ≤ 4096)
        × (room card_most (text_for shape.now (cut_at_bars table.now)) ≤ 1000) }
    ensures { Appended out.old n
        (or_else
        (filled card (text_for shape.now (cut_at_bars table.now)) figures.now
        counts.now) no_answer
        ++ newline) out.new result }
{
    let end = put_found(out, n, table, shape, figures, counts);
    if n < end {
        return texts::put_bytes(out, end, b"\n");
    }
    texts::put_bytes(out, n, b"no answer of the card program\n\n")
}

// Appends what is shown for an answer's shape, figures and counts, by the table of all answers.
fn put_shown(out: &mut [u8], n: usize, shape: &[u8], figures: &[f64], counts: &[u64]) -> usize
    requires { BlockFits n out.old }
    ensures { Appended out.old n
        (shown shape.now figures.now counts.now) out.new result }
{
    put_from(
        out,
        n,
        b"(figures (mass F) (centre F F F) (inertia F F F F F F) (intervals N) (samples N))|\
        Bthe root's leading edgeCDpieces N, samples N\n|\
        (joined (mass F) (centre F F F) (inertia F F F F F F))|Bthe originCD|\
        (ring (mass F) (centre F F F) (inertia F F F F F F))|Bthe tubes' forward endCD|\
        (body (mass F) (centre F F F) (inertia F F F F F F))|Bthe originCD|\
        (refused N)|refused R\n|\
        (area (area F) (centroid F F) (intervals N) (samples N))|area F m\xc2\xb2\n\
        centroid G mm aft of the root's leading edge, G mm above the root\n\
        pieces N, samples N\n|\
        (moments F F F)|principal moments F, F, F kg\xc2\xb7m\xc2\xb2\n|\
        (closing F)|the ring closes at an outer radius of G mm\n|\
        (sound)|the body is sound\n|\
        (inside N)|inside; the nearest corner is N\n|\
        (edge N)|on the edge; the nearest corner is N\n|\
        (outside N)|outside; the nearest corner is N\n|\
        (taken)|taken\n|\
        (idle)|no screen has a job\n|\
        (more N)|screen N: more to come\n|\
        (done N (figures (mass F) (centre F F F) (inertia F F F F F F) (intervals N) (samples N)))|screen N: done\n\
        Bthe root's leading edgeCDpieces N, samples N\n|\
        (done N (refused N))|screen N: refused R\n|\
        (progress (worked N) (strips N) (intervals N) (samples N))|\
        N of N strips worked; pieces N, samples N so far\n",
        shape,
        figures,
        counts,
    )
}

// Appends the block of a line to the n bytes at the start of out, and returns how many there are then.
fn put_block(out: &mut [u8], n: usize, line: &[u8]) -> usize
    requires { BlockFits n out.old }
    ensures { Appended out.old n (block_of line.now) out.new result }
{
    if LONGEST < line.len() {
        return texts::put_bytes(out, n, b"no answer of the card program\n\n");
    }
    let mut shape = [0u8; 512];
    let mut figures = [0.0; 512];
    let mut counts = [0u64; 512];
    let r = words::read_answer(line, &mut shape, &mut figures, &mut counts);
    let k = r.bytes;
    let i = r.figures;
    let j = r.counts;
    put_shown(out, n, &shape[..k], &figures[..i], &counts[..j])
}

// Writes the number of a line and its block at the start of out, and returns how many bytes they have.
pub fn put_numbered(out: &mut [u8], number: u64, line: &[u8]) -> usize
    requires { numbered_bytes ≤ length out.old }
    ensures { Appended out.old 0 (numbered_block number line.now) out.new result }
{
    let word = texts::put_bytes(out, 0, b"line ");
    let digits = counts::put_count(out, word, number);
    let heading = texts::put_bytes(out, digits, b"\n");
    put_block(out, heading, line)
}
