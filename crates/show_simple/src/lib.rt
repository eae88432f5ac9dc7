// The printers of statements that hold no statement, and of what stands in statements: 000's show_expression_statement, show_case_label, show_condition,
// show_for_init_statement, show_for_rest_statement and show_jump_statement. One works behind its record where its comment says so, and else reads it.
// Variants are told by number, and parts that may be absent by a flag, as in show_expr::show, which says why.
#![tactic(auto)]

ghost use Rattle.std.specs.Prelude.{◌≡◌};
ghost use Rattle.text.specs.Text.{show_statement, show_condition, show_for_init_statement, show_jump_statement, show_expr, optional};
ghost use Rattle.text.specs.Reading as Reading;
ghost use Rattle.text.specs.Reading.{maybe, jump_statement};
ghost use Rattle.leaves.specs.Shown.{ShowsOf};
ghost use Rattle.show_simple.specs.Flushed.{behind_flush};
ghost use Rattle.show_simple.specs.Parts.{expression_statement, case_label};
ghost use Rattle.show_simple.specs.Rest.{for_rest, show_for_rest_statement};

use leaves::Source;
use pen::Pen;
use records::kind::Kind;
use show_declaration::initializer;

// In show_expression_statement and show_for_rest_statement: the expression, if there is one.
fn show_optional_expr(src: &Source, room: &mut [u8], pen: Pen, on: bool) -> Pen
    ensures { ShowsOf (optional show_expr) (maybe on Reading.expr) src.now room.old pen room.new result }
{
    if on {
        return show_expr::show_expr(src, room, pen);
    }
    pen
}

// 000 show_expression_statement, behind its record.
pub fn show_expression_statement(src: &Source, room: &mut [u8], pen: Pen, v: u8) -> Pen
    ensures { ShowsOf (behind_flush (show_statement src.now.settings.collapse_single_item_compound_statements)) (expression_statement v) src.now room.old pen room.new result }
{
    let shown = show_optional_expr(src, room, pen, v == 1);
    shown.write_statement_terminator(room, src.settings)
}

// 000 show_case_label, behind its record.
pub fn show_case_label(src: &Source, room: &mut [u8], pen: Pen, v: u8) -> Pen
    ensures { ShowsOf (behind_flush (show_statement src.now.settings.collapse_single_item_compound_statements)) (case_label v) src.now room.old pen room.new result }
{
    if v == 0 {
        let word = pen.write_str(room, b"default");
        return word.enter_case_label(room, src.settings);
    }
    let word = pen.write_str(room, b"case");
    let spaced = word.write_char(room, b' ');
    let shown = show_expr::show_expr(src, room, spaced);
    shown.enter_case_label(room, src.settings)
}

// 000 show_condition.
pub fn show_condition(src: &Source, room: &mut [u8], pen: Pen) -> Pen
    ensures { ShowsOf show_condition Reading.condition src.now room.old pen room.new result }
{
    let Some((r, inside)) = src.enter(pen, Kind::Condition) else {
        return pen;
    };
    if r.variant == 0 {
        return show_expr::show_expr(src, room, inside);
    }
    let typed = show_declaration::show_fully_specified_type(src, room, inside);
    let spaced = typed.write_char(room, b' ');
    let named = spaced.write_name(room, &src.tree, r);
    let assigned = named.write_binary_op(room, src.settings, b"=");
    initializer::show_initializer(src, room, assigned)
}

// 000 show_for_init_statement.
pub fn show_for_init_statement(src: &Source, room: &mut [u8], pen: Pen) -> Pen
    ensures { ShowsOf show_for_init_statement Reading.for_init src.now room.old pen room.new result }
{
    let Some((r, inside)) = src.enter(pen, Kind::ForInit) else {
        return pen;
    };
    if r.variant == 0 {
        return inside.write_for_statement_separator(room, src.settings);
    }
    if r.variant == 1 {
        let shown = show_expr::show_expr(src, room, inside);
        return shown.write_for_statement_separator(room, src.settings);
    }
    show_declaration::show_declaration(src, room, inside)
}

// In show_for_rest_statement: the condition, if there is one.
fn show_optional_condition(src: &Source, room: &mut [u8], pen: Pen, on: bool) -> Pen
    ensures { ShowsOf (optional show_condition) (maybe on Reading.condition) src.now room.old pen room.new result }
{
    if on {
        return show_condition(src, room, pen);
    }
    pen
}

// 000 show_for_rest_statement, in a for statement of this variant.
pub fn show_for_rest_statement(src: &Source, room: &mut [u8], pen: Pen, v: u8) -> Pen
    ensures { ShowsOf show_for_rest_statement (for_rest v) src.now room.old pen room.new result }
{
    let asked = show_optional_condition(src, room, pen, v % 2 == 1);
    let apart = asked.write_for_statement_separator(room, src.settings);
    show_optional_expr(src, room, apart, v / 2 % 2 == 1)
}

// 000 show_jump_statement, behind its record.
pub fn show_jump_statement(src: &Source, room: &mut [u8], pen: Pen, v: u8) -> Pen
    ensures { ShowsOf show_jump_statement (jump_statement v) src.now room.old pen room.new result }
{
    let word = leaves::show_jump_word(pen, room, v);
    if v < 4 {
        return word.write_statement_terminator(room, src.settings);
    }
    let spaced = word.write_char(room, b' ');
    let shown = show_expr::show_expr(src, room, spaced);
    shown.write_statement_terminator(room, src.settings)
}
