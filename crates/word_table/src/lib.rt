// The words and operators that a printer writes, in one table that is constant: who needs a word asks for its row. What follows from the word list is written by
// tools/words.py, in rows.rt. (One array of bytes, each row with its length behind it, and what tells a name from a
// word behind the rows: an array of texts is no plainer to look into, and the proof that it is the definition's computes with bytes.)
#![tactic(auto)]

ghost use Rattle.std.specs.Prelude.{◌≡◌};
ghost use Rattle.word_table.specs.Table as Table;

pub mod rows;

use rows::{ROWS, TABLE, Words};

const WIDTH: usize = 24;

const WIDEST: usize = 23;

// All bytes of the table.
pub fn table() -> &'static Words
    ensures { result.now ≡ Table.table }
{
    &TABLE
}

// The text of row k, as a part of the table; nothing behind the last row.
pub fn row(k: usize) -> &'static [u8]
    ensures { result.now ≡ Table.text_at k }
{
    let bytes: &[u8] = table();
    if ROWS <= k {
        return &bytes[..0];
    }
    let start = WIDTH * k;
    let end = start + usize::from(bytes[start + WIDEST]);
    &bytes[start..end]
}
