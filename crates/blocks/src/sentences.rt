// The sentence of a refusal's number, as docs/FORMS.md has it: tests/readable holds these to that page.
ghost use Rattle.std.specs.Prelude.{◌+◌, ◌≤◌, length};
ghost use Rattle.texts.specs.Appended.{Appended};
ghost use Rattle.tokens.specs.Text.{text};
ghost use Rattle.templates.specs.Matching.{cut_at_bars};
ghost use Rattle.blocks.specs.Tables.{text_for};
ghost use Rattle.blocks.specs.Cards.{or_else, sentences, refusal_text};

use crate::lookup;

// Appends the table's text for a key, or that the table has no such number.
fn put_text(out: &mut [u8], n: usize, table: &[u8], key: &[u8]) -> usize
    requires { (n + 150 ≤ length out.old) × (length table.now ≤ 4096)
        × (length (text_for key.now (cut_at_bars table.now)) ≤ 150) }
    ensures { Appended out.old n
        (or_else (text_for key.now (cut_at_bars table.now)) (text "no number of the table"))
        out.new result }
{
    if let Some(p) = lookup::find(table, key) {
        if p.from < p.to {
            return texts::put_bytes(out, n, &table[p.from..p.to]);
        }
    }
    texts::put_bytes(out, n, b"no number of the table")
}

// Appends the sentence of a refusal whose number is given in decimal digits.
fn put_sentence(out: &mut [u8], n: usize, key: &[u8]) -> usize
    requires { n + 150 ≤ length out.old }
    ensures { Appended out.old n
        (or_else (text_for key.now sentences) (text "no number of the table")) out.new result }
{
    put_text(
        out,
        n,
        b"1|the limit is not 1 to 64|\
        2|the lent scratch is too short for the limit|\
        3|the count of fins, of tubes, of joined points, of offsets or of places is not 1 to 32|\
        4|a length is out of its limits|\
        5|the outline is not 3 to 64 whole points|\
        6|the outline does not begin at (0, 0), or does not end at (c, 0) with c > 0|\
        7|the outline touches itself|\
        8|there is no area or no volume|\
        9|a cant, base angle or roll is not a number, or is beyond 4 rad|\
        10|the tab begins ahead of the root or ends aft of it|\
        11|the tab is higher than the body's radius|\
        12|the density of the fins, of the tubes or of a fillet with a radius above 0 is not bulk, or is neither 0 nor 2^-10 to 2^15 kg/m\xc2\xb3|\
        13|the sums did not settle within the limit's pieces, or cannot|\
        15|a body's mass is negative or not finite|\
        16|a body's centre is not finite|\
        17|a body's tensor is none that a body can have|\
        18|the line is none of the forms in docs/FORMS.md|\
        19|a word where a figure belongs has neither shape of a figure, or is sixteen decimal digits alone|\
        20|a tube's wall is thicker than its outer radius|\
        21|the fin is thicker than its root chord is long|\
        22|the fillet's radius is over 1000 times the body's, whatever its density|\
        23|the screen is not 1 to 8, or already holds a job|\
        24|an ellipse has no corners|\
        25|a coordinate of the point or of a corner is no whole number of steps of 2^-20 m|\
        26|the whole is not heavier than the part taken off, or a part is moved in a body of mass 0",
        key,
    )
}

// Appends a refusal's number and its sentence.
pub fn put_refusal(out: &mut [u8], n: usize, number: u64) -> usize
    requires { n + 180 ≤ length out.old }
    ensures { Appended out.old n (refusal_text number) out.new result }
{
    let mut key = [0u8; 20];
    let k = counts::put_count(&mut key, 0, number);
    let colon = counts::put_count(out, n, number);
    let end = texts::put_bytes(out, colon, b": ");
    put_sentence(out, end, &key[..k])
}
