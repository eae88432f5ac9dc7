// What the printers write between their parts: the functions of 000 that call no other printer, and parts of those that do.
#![tactic(auto)]

ghost use Rattle.std.specs.Prelude.{◌≡◌, cond, List, [], ◌++◌, ℕ, ◌+◌, ◌≤◌, min, eqb};
ghost use Rattle.std.proofs.Math.Option.{none, some};
ghost use Rattle.words.specs.Symbol.{Symbol};
ghost use Rattle.records.specs.Kind.{number};
ghost use Rattle.records.specs.Record.{record_at, text_of};
ghost use Rattle.settings.specs.declared.Settings.{Settings};
ghost use Rattle.text.specs.Token.{Token};
ghost use Rattle.text.specs.Asked.{Flag, flag};
ghost use Rattle.text.specs.Asked.Flag.{spaces_where_needed, needed_operator_spaces};
ghost use Rattle.text.specs.Command.{write_binary_op};
ghost use Rattle.text.specs.Operator.{unary_symbol, binary_symbol, assignment_symbol};
ghost use Rattle.text.specs.Joins.{joins_under, joins_right, is_int};
ghost use Rattle.text.specs.Text.{a_token, a_word, a_symbol, bool_word, apart, separator, space_between, show_identifier, optional};
ghost use Rattle.text.specs.Reading.{expr, from, unary_op_of, binary_op_of, assignment_op};
ghost use Rattle.pen.specs.Promise.{Ran};
ghost use Rattle.leaves.specs.Shown.{past, Enters};
ghost use Rattle.leaves.specs.Operand.{most_under};
ghost use Rattle.leaves.specs.Qualifier.{qualifier_word};
ghost use Rattle.leaves.specs.Jump.{jump_word};

use pen::Pen;
use records::kind::Kind;
use records::{Record, Tree};
use settings::Settings;
use word_table::rows;

// What is printed, and how it is laid out: every printer takes it. (Not the room, which it writes to, nor the pen, which goes in and out by value: docs/SPEED.md.)
#[derive(Clone, Copy)]
pub struct Source<'a> {
    pub settings: Settings,
    pub tree: Tree<'a>,
}

// The last variant of each, which stands for all behind it. (Numbers of document 01's table, as the rows of the words stand in it: an enum of each would be read from the byte by the same list once more.)
const LAST_UNARY: u8 = 5;

const LAST_BINARY: u8 = 18;

const LAST_ASSIGNMENT: u8 = 10;

const LAST_QUALIFIER: u8 = 26;

const LAST_JUMP: u8 = 3;

const LAST_TYPE: u8 = 118;

// What a right operand of plus and minus may bind at most and be bare.
const BELOW_ADDITIVE: u8 = precedence::ADDITIVE - 1;

impl Source<'_> {
    // Is record i of this kind?
    #[inline(always)]
    pub fn is(&self, i: usize, kind: Kind) -> bool
        ensures { result ≡ eqb (record_at self.now.tree.records.now i).kind (number kind) }
    {
        let Some(found) = self.tree.kind(i) else {
            return false;
        };
        found == kind
    }

    // The record that the pen stands before, where it is of this kind, and the pen behind it.
    #[inline(always)]
    pub fn enter(&self, pen: Pen, kind: Kind) -> Option<(Record, Pen)>
        ensures { Enters self.now.tree.records.now pen (number kind) result }
    {
        let r = self.tree.record_at(pen.next);
        let Some(found) = r.kind() else {
            return None;
        };
        if found == kind {
            return Some((r, past(self, pen)));
        }
        None
    }
}

// The pen behind the record that stands before it, if one stands there.
pub fn past(src: &Source, pen: Pen) -> Pen
    ensures { result ≡ past src.now.tree.records.now pen }
{
    if records::stands(src.tree.records, pen.next) {
        let behind = pen.next + 1;
        let mut moved = pen;
        moved.next = behind;
        return moved;
    }
    pen
}

// The most that record i may bind as the operand of the unary operator v: plus over plus and minus over minus are bracketed.
pub fn unary_most(src: &Source, i: usize, v: u8) -> u8
    ensures { result ≡ most_under v (record_at src.now.tree.records.now i) }
{
    let sign = (v == 2) | (v == 3);
    if sign & src.is(i, Kind::Unary) & (src.tree.variant_at(i) == v) {
        return precedence::POSTFIX;
    }
    precedence::UNARY
}

// The row of the table that is v rows behind its section's first, or the section's last.
fn section_row(first: usize, last: u8, v: u8) -> usize
    requires { first ≤ 255 }
    ensures { result ≡ first + min v last }
{
    first + usize::from(v.min(last))
}

// A unary operator. A space follows where it is asked for and the operand needs it (02, #106): the operand is at the next record, and bare if it binds at `most` or more strongly.
// What is not asked for costs no look at the records.
pub fn show_unary_op(pen: Pen, src: &Source, room: &mut [u8], v: u8, most: u8) -> Pen
    requires { most ≡ most_under v (record_at src.now.tree.records.now pen.next) }
    ensures { (names : List ℕ) → let e = (expr (from src.now.tree.records.now names pen.next)).tree in Ran src.now.settings (a_symbol (unary_symbol (unary_op_of v)) ++ apart (joins_under (unary_op_of v) e) spaces_where_needed []) room.old pen room.new result }
{
    let op = pen.write_word(room, section_row(rows::UNARY, LAST_UNARY, v));
    if !src.settings.spaces_where_needed {
        return op;
    }
    if signs::joins_at(src.tree.records, pen.next, signs::of_unary(v), most) {
        return op.write_char(room, b' ');
    }
    op
}

// A binary operator. A space follows where it is asked for, no operator space stands there, and the right operand, at the next record, needs it.
pub fn show_binary_op(pen: Pen, src: &Source, room: &mut [u8], v: u8) -> Pen
    ensures { (names : List ℕ) → let e = (expr (from src.now.tree.records.now names pen.next)).tree in Ran src.now.settings (write_binary_op (binary_symbol (binary_op_of v)) ++ apart (joins_right (binary_op_of v) e) needed_operator_spaces []) room.old pen room.new result }
{
    let text = word_table::row(section_row(rows::BINARY, LAST_BINARY, v));
    let op = pen.write_binary_op(room, src.settings, text);
    let asked = src.settings.spaces_where_needed & !src.settings.spaces_around_binary_ops;
    if !asked {
        return op;
    }
    if signs::joins_at(
        src.tree.records,
        pen.next,
        signs::of_binary(v),
        BELOW_ADDITIVE,
    ) {
        return op.write_char(room, b' ');
    }
    op
}

// The space before the dot behind the expression at record `at`, if it is asked for and that is an IntConst (02, #106).
fn dot_apart(pen: Pen, src: &Source, room: &mut [u8], at: usize, asked: bool) -> Pen
    ensures { (s : Settings) (f : Flag) (names : List ℕ) → asked ≡ flag s f → Ran s (apart (is_int (expr (from src.now.tree.records.now names at)).tree) f []) room.old pen room.new result }
{
    if !asked {
        return pen;
    }
    if src.is(at, Kind::IntConst) {
        return pen.write_char(room, b' ');
    }
    pen
}

// The dot behind the expression at record `at`, and before it the space that is needed.
pub fn write_dot(pen: Pen, src: &Source, room: &mut [u8], at: usize) -> Pen
    ensures { (names : List ℕ) → Ran src.now.settings (apart (is_int (expr (from src.now.tree.records.now names at)).tree) spaces_where_needed (a_symbol Symbol.dot)) room.old pen room.new result }
{
    let behind = dot_apart(pen, src, room, at, src.settings.spaces_where_needed);
    behind.write_char(room, b'.')
}

pub fn show_assignment_op(pen: Pen, s: Settings, room: &mut [u8], v: u8) -> Pen
    ensures { Ran s (write_binary_op (assignment_symbol (assignment_op v))) room.old pen room.new result }
{
    let text = word_table::row(section_row(rows::ASSIGNMENT, LAST_ASSIGNMENT, v));
    pen.write_binary_op(room, s, text)
}

// A type keyword, by its number; nothing behind the last.
pub fn show_keyword(pen: Pen, room: &mut [u8], v: u8) -> Pen
    ensures { (s : Settings) → Ran s (a_token (Token.type v)) room.old pen room.new result }
{
    if LAST_TYPE < v {
        return pen;
    }
    pen.write_word(room, section_row(rows::TYPES, LAST_TYPE, v))
}

pub fn show_bool(pen: Pen, room: &mut [u8], v: u8) -> Pen
    ensures { (s : Settings) → Ran s (a_word (bool_word (eqb v 1))) room.old pen room.new result }
{
    if v == 1 {
        return pen.write_word(room, rows::BOOLS + 1);
    }
    pen.write_word(room, rows::BOOLS)
}

// The word of a qualifier (kind 29), by its variant: 000 show_storage_qualifier, show_precision_qualifier, show_interpolation_qualifier, and the
// words of show_subroutine and show_layout_qualifier.
pub fn show_qualifier_word(pen: Pen, room: &mut [u8], v: u8) -> Pen
    ensures { (s : Settings) → Ran s (a_word (qualifier_word v)) room.old pen room.new result }
{
    pen.write_word(room, section_row(rows::QUALIFIERS, LAST_QUALIFIER, v))
}

// The word of a jump (kind 68), by its variant.
pub fn show_jump_word(pen: Pen, room: &mut [u8], v: u8) -> Pen
    ensures { (s : Settings) → Ran s (a_word (jump_word v)) room.old pen room.new result }
{
    pen.write_word(room, section_row(rows::JUMPS, LAST_JUMP, v))
}

// In a list: a separator before each but the first. (Apart from `space_between`, which asks the settings for nothing: each is one test.)
pub fn separate(pen: Pen, s: Settings, room: &mut [u8], first: bool) -> Pen
    ensures { Ran s (separator first) room.old pen room.new result }
{
    if first {
        return pen;
    }
    pen.write_list_separator(room, s)
}

// In a qualifier: a space before each but the first.
pub fn space_between(pen: Pen, room: &mut [u8], first: bool) -> Pen
    ensures { (s : Settings) → Ran s (space_between first) room.old pen room.new result }
{
    if first {
        return pen;
    }
    pen.write_char(room, b' ')
}

// The name of a struct, if it has one. (By a flag, not an Option of the name: the record stands there in either case, and a caller has the flag as a bit of its variant.)
pub fn show_name(pen: Pen, src: &Source, room: &mut [u8], named: bool, r: Record) -> Pen
    ensures { (s : Settings) → Ran s (optional show_identifier (cond named (some (text_of src.now.tree.names.now r)) none)) room.old pen room.new result }
{
    if named {
        return pen.write_name(room, &src.tree, r);
    }
    pen
}

// Brackets, where they are asked for. (Two functions: a bracket is its character here and its symbol in the promise, and one of both would be told which.)
pub fn open_if(pen: Pen, room: &mut [u8], on: bool) -> Pen
    ensures { (s : Settings) → Ran s (cond on (a_symbol Symbol.left_paren) []) room.old pen room.new result }
{
    if on {
        return pen.write_char(room, b'(');
    }
    pen
}

pub fn close_if(pen: Pen, room: &mut [u8], on: bool) -> Pen
    ensures { (s : Settings) → Ran s (cond on (a_symbol Symbol.right_paren) []) room.old pen room.new result }
{
    if on {
        return pen.write_char(room, b')');
    }
    pen
}

// ++ or -- behind an operand.
pub fn show_post(pen: Pen, room: &mut [u8], down: bool) -> Pen
    ensures { (s : Settings) → Ran s (a_symbol (cond down Symbol.dec_op Symbol.inc_op)) room.old pen room.new result }
{
    if down {
        return pen.write_str(room, b"--");
    }
    pen.write_str(room, b"++")
}
