// The pen: 000's FormattingState by value, its methods in 000's order under 000's names, and the leaf writers that stand for `F: Write`.
#![tactic(auto)]

mod formatting;
mod tokens;

ghost use Rattle.std.specs.Prelude.{◌≡◌, true, cond, [], ◌∷◌, ◌++◌, replicate};
ghost use Rattle.words.specs.Bytes.{bytes};
ghost use Rattle.word_table.specs.Table as Table;
ghost use Rattle.decimal.specs.Decimal.{decimal};
ghost use Rattle.records.specs.Record.{text_of};
ghost use Rattle.settings.specs.declared.Settings.{Settings};
ghost use Rattle.text.specs.Token.{Token, spell};
ghost use Rattle.text.specs.Text.{show_int};
ghost use Rattle.pen.specs.Sheet.{forward};
ghost use Rattle.pen.specs.Promise.{Wrote, Whitened, Ran};

use records::{Record, Tree};
use settings::{FormattingState, Settings, Whitespace};

// The record to be read next, where the next byte goes, and the state of the line layout. (The order counts: a pen goes into and out of every printer, through
// memory, and with the place before the record it takes 24 bytes, here 16; docs/SPEED.md. So the room and the settings, which go along with it, stay parameters, as
// 000 lends its writer.)
#[derive(Clone, Copy, Debug, PartialEq, Eq)]
pub struct Pen {
    pub next: usize,
    pub at: u32,
    pub state: FormattingState,
}

// The leaf writers: a token at a time. Each writes all of it if it fits, else leaves the room as it is, and moves on in any case.
#[tactic(auto, using(crate::proofs::Lay::leaf, crate::proofs::Chain::unspaced), unfolding(crate::specs::Run::run, crate::specs::Run::step, crate::specs::Run::whiten, text::specs::Token::spell, text::specs::Token::pointed, words::specs::Symbol::symbol_text))]
impl Pen {
    fn forward(self, n: usize) -> Pen
        ensures { result ≡ forward n self }
    {
        Pen {
            at: tokens::advanced(self.at, n),
            ..self
        }
    }

    pub fn write_char(self, room: &mut [u8], byte: u8) -> Pen
        ensures { Wrote (byte ∷ []) room.old self room.new result }
    {
        room::store(room, self.at, byte);
        self.forward(1)
    }

    // (Put into its callers: docs/SPEED.md, "The look back".)
    #[inline(always)]
    pub fn write_str(self, room: &mut [u8], text: &[u8]) -> Pen
        ensures { Wrote text.now room.old self room.new result }
    {
        room::lay(room, self.at, text);
        self.forward(text.len())
    }

    fn write_run(self, room: &mut [u8], byte: u8, n: usize) -> Pen
        ensures { Wrote (replicate n byte) room.old self room.new result }
    {
        room::lay_run(room, self.at, byte, n);
        self.forward(n)
    }

    fn write_two(self, room: &mut [u8], front: &[u8], back: &[u8]) -> Pen
        ensures { Wrote (front.now ++ back.now) room.old self room.new result }
    {
        room::lay_two(room, self.at, front, back);
        self.forward(front.len()).forward(back.len())
    }

    // A whole number and its suffix: nothing, or `u`. (Put into its callers, so that their pen needs no memory.)
    #[inline(always)]
    fn write_digits(self, room: &mut [u8], n: u64, suffix: &[u8]) -> Pen
        ensures { Wrote (decimal n ++ suffix.now) room.old self room.new result }
    {
        tokens::lay_number(room, self.at, n, suffix);
        self.forward(decimal::width(n)).forward(suffix.len())
    }

    // The token of a whole number, of a whole number with `u`, of a float, of a double.
    #[inline(always)]
    pub fn write_int(self, room: &mut [u8], n: u64) -> Pen
        ensures { Wrote (spell (Token.int n)) room.old self room.new result }
    {
        self.write_digits(room, n, b"")
    }

    #[inline(always)]
    pub fn write_uint(self, room: &mut [u8], n: u64) -> Pen
        ensures { Wrote (spell (Token.uint n)) room.old self room.new result }
    {
        self.write_digits(room, n, b"u")
    }

    // An i32 from its 32 bits, which is one token or, with its sign, two. It asks the settings for nothing.
    #[inline(always)]
    pub fn write_signed(self, room: &mut [u8], bits: u32) -> Pen
        ensures { (s : Settings) → Ran s (show_int bits) room.old self room.new result }
    {
        let n = decimal::magnitude_of(bits);
        if decimal::is_negative(bits) {
            self.write_char(room, b'-').write_int(room, n)
        } else {
            self.write_int(room, n)
        }
    }

    pub fn write_float(self, room: &mut [u8], text: &[u8]) -> Pen
        ensures { Wrote (spell (Token.float text.now)) room.old self room.new result }
    {
        if tokens::has_point(text) {
            self.write_str(room, text)
        } else {
            self.write_two(room, text, b".")
        }
    }

    pub fn write_double(self, room: &mut [u8], text: &[u8]) -> Pen
        ensures { Wrote (spell (Token.double text.now)) room.old self room.new result }
    {
        if tokens::has_point(text) {
            self.write_two(room, text, b"lf")
        } else {
            self.write_two(room, text, b".lf")
        }
    }

    // T of a record, as a part of the tree's names.
    #[inline(always)]
    pub fn write_name(self, room: &mut [u8], tree: &Tree, r: Record) -> Pen
        ensures { Wrote (text_of tree.now.names.now r) room.old self room.new result }
    {
        self.write_str(room, tree.text_of(r))
    }

    // A word or an operator, by its row of the word table (word_table::rows has the rows by name).
    pub fn write_word(self, room: &mut [u8], row: usize) -> Pen
        ensures { Wrote (Table.text_at row) room.old self room.new result }
    {
        self.write_str(room, word_table::row(row))
    }

    // A space, where it is asked for.
    pub fn write_space_if(self, room: &mut [u8], on: bool) -> Pen
        ensures { Wrote (cond on (bytes " ") []) room.old self room.new result }
    {
        if on {
            self.write_char(room, b' ')
        } else {
            self
        }
    }

    // 000 Whitespace::write: a newline only becomes pending.
    pub fn write_whitespace(self, room: &mut [u8], white: Whitespace) -> Pen
        ensures { Whitened white room.old self room.new result }
    {
        match white {
            Whitespace::None => self,
            Whitespace::Space => self.write_char(room, b' '),
            Whitespace::Newline => self.new_line(true),
        }
    }
}
