// A line cut into tokens: brackets and words (docs/FORMS.md). A token is found from a place on; its word is a part of
// the line.
#![tactic(auto)]

ghost use Rattle.std.specs.Prelude.{◌≡◌, ◌≤◌, length};
ghost use Rattle.tokens.specs.Tokens.{ends_word, tokens};
ghost use Rattle.tokens.specs.Found.{IsFound, IsWordEnd, IsPastSpaces};

// The most bytes that a line may have.
pub const LINE_BYTES: usize = 4096;

// Where a token's bytes begin and end. Both are the same place where no token is left.
#[derive(Clone, Copy)]
pub struct TokenRange {
    pub from: usize,
    pub to: usize,
}

fn ends_word(b: u8) -> bool
    ensures { result ≡ ends_word b }
{
    b == 32 || b == 40 || b == 41
}

// Returns the first place from `at` on that holds no space, or the line's end.
fn past_spaces(line: &[u8], at: usize) -> usize
    requires { at ≤ length line.now }
    ensures { IsPastSpaces line.now at result }
{
    for i in at..line.len() {
        if line[i] != 32 {
            return i;
        }
    }
    line.len()
}

// Returns the first place from `at` on whose byte ends a word, or the line's end.
pub fn word_end(line: &[u8], at: usize) -> usize
    requires { at ≤ length line.now }
    ensures { IsWordEnd line.now at result }
{
    for i in at..line.len() {
        if ends_word(line[i]) {
            return i;
        }
    }
    line.len()
}

// Returns where the first token of the line from `at` on stands. A byte there that ends a word and is no space is a
// bracket.
pub fn next_token(line: &[u8], at: usize) -> TokenRange
    ensures { IsFound line.now at result }
{
    if line.len() <= at {
        return TokenRange { from: at, to: at };
    }
    let from = past_spaces(line, at);
    if line.len() <= from {
        return TokenRange { from, to: from };
    }
    if ends_word(line[from]) {
        return TokenRange { from, to: from + 1 };
    }
    let to = word_end(line, from);
    TokenRange { from, to }
}
