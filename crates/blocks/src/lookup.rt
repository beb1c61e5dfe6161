// Tables of texts with a bar between each two: a key, its text, the next key, its text, and so on.
ghost use Rattle.std.specs.Prelude.{◌≡◌, ◌≤◌, length};
ghost use Rattle.blocks.specs.Steps.{IsTextFor};

use templates::{bar_end, same_bytes};

// Where a text of a table begins, and where it ends, not included.
#[derive(Clone, Copy)]
pub struct Part {
    pub from: usize,
    pub to: usize,
}

// Returns where the text of the first key that equals this one stands, or `None` where there is no such key.
pub fn find(table: &[u8], key: &[u8]) -> Option<Part>
    requires { length table.now ≤ 4096 }
    ensures { IsTextFor table.now key.now result }
{
    let mut at: usize = 0;
    while at < table.len() {
        let end = bar_end(table, at);
        if table.len() <= end {
            return None;
        }
        let from = end + 1;
        let to = bar_end(table, from);
        if same_bytes(key, &table[at..end]) {
            return Some(Part { from, to });
        }
        if table.len() <= to {
            return None;
        }
        at = to + 1;
    }
    None
}
