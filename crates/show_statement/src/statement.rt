// The printers of statements, which call each other: 000 show_compound_statement, show_statement, show_selection_statement, show_selection_rest_statement, show_switch_statement and
// show_iteration_statement, whose three kinds of record are a function each. At each call 8 * (records left) + rank falls.
// Variants are told by number, as in show_expr::show, which says why.
// All but show_statement and show_statements work behind the record of their statement.
ghost use Rattle.std.specs.Prelude.{◌≡◌, true};
ghost use Rattle.text.specs.Text.{show_compound_statement, show_statement, show_statements};
ghost use Rattle.text.specs.Reading as Reading;
ghost use Rattle.pen.specs.Promise.{Ran};
ghost use Rattle.leaves.specs.Shown.{ShowsOf};
ghost use Rattle.show_simple.specs.Flushed.{behind_flush};
ghost use Rattle.show_simple.specs.Parts.{selection_statement, switch_statement, while_statement, do_while_statement, for_statement};
ghost use Rattle.show_statement.specs.Around.{before_statements, behind_statements};
ghost use Rattle.show_statement.specs.Rest.{selection_rest, show_selection_rest_statement};

use leaves::Source;
use pen::Pen;
use records::kind::Kind;

// 000 show_compound_statement, behind its record, which counts n statements. Whether a function's body begins here is told by whoever calls: 000 asks the state, where it
// is on at a function's own body and nowhere else. The one caller is show_statement, which says no: a function's own body has show_function_body.
#[cycle(statements)]
fn show_compound_statement(src: &Source, room: &mut [u8], pen: Pen, body: bool, n: u16) -> Pen
    ensures { ShowsOf (show_compound_statement src.now.settings.collapse_single_item_compound_statements body) (Reading.statements n) src.now room.old pen room.new result }
{
    let collapsed = !body & src.settings.collapse_single_item_compound_statements & (n == 1);
    let entered = enter_statements(src, room, pen, collapsed);
    let begun = entered.consume_function_definition_statement();
    let filled = show_statements(src, room, begun, n);
    exit_statements(src, room, filled, collapsed)
}

// In show_compound_statement and show_function_body: what stands before the statements, where they are collapsed and where they are in braces.
fn enter_statements(src: &Source, room: &mut [u8], pen: Pen, collapsed: bool) -> Pen
    ensures { Ran src.now.settings (before_statements collapsed) room.old pen room.new result }
{
    if collapsed {
        return pen.enter_collapsed_compound_statement(src.settings);
    }
    pen.enter_compound_statement_block(room, src.settings)
}

// And what stands behind them.
fn exit_statements(src: &Source, room: &mut [u8], pen: Pen, collapsed: bool) -> Pen
    ensures { Ran src.now.settings (behind_statements collapsed) room.old pen room.new result }
{
    if collapsed {
        return pen.exit_collapsed_compound_statement(src.settings);
    }
    pen.exit_block(room, src.settings)
}

// 000 show_compound_statement at a function's own body, which is never collapsed, behind its record. The printers of units call it, so that show_compound_statement has one caller and
// is compiled into show_statement: a compound statement within another takes one frame of the stack and not two (docs/SPEED.md).
pub fn show_function_body(src: &Source, room: &mut [u8], pen: Pen, n: u16) -> Pen
    ensures { ShowsOf (show_compound_statement src.now.settings.collapse_single_item_compound_statements true) (Reading.statements n) src.now room.old pen room.new result }
{
    let entered = enter_statements(src, room, pen, false);
    let begun = entered.consume_function_definition_statement();
    let filled = show_statements(src, room, begun, n);
    exit_statements(src, room, filled, false)
}

// In show_compound_statement, show_function_body and show_switch_statement: n statements.
#[cycle(statements)]
fn show_statements(src: &Source, room: &mut [u8], pen: Pen, n: u16) -> Pen
    ensures { ShowsOf (show_statements src.now.settings.collapse_single_item_compound_statements) (Reading.statements n) src.now room.old pen room.new result }
{
    let mut at = pen;
    for _k in 0..n {
        at = show_statement(src, room, at);
    }
    at
}

// 000 show_statement: what is no statement flushes all the same.
#[cycle(statements)]
fn show_statement(src: &Source, room: &mut [u8], pen: Pen) -> Pen
    ensures { ShowsOf (show_statement src.now.settings.collapse_single_item_compound_statements) Reading.statement src.now room.old pen room.new result }
{
    let flushed = pen.flush_line(room, src.settings);
    let r = src.tree.record_at(flushed.next);
    let inside = leaves::past(src, flushed);
    let Some(kind) = r.kind() else {
        return flushed;
    };
    match kind {
        Kind::Declaration => show_declaration::show_declaration(src, room, flushed),
        Kind::Compound => show_compound_statement(src, room, inside, false, r.count),
        Kind::ExprStatement => show_simple::show_expression_statement(src, room, inside, r.variant),
        Kind::Selection => show_selection_statement(src, room, inside, r.variant),
        Kind::Switch => show_switch_statement(src, room, inside, r.count),
        Kind::CaseLabel => show_simple::show_case_label(src, room, inside, r.variant),
        Kind::While => show_while(src, room, inside),
        Kind::DoWhile => show_do_while(src, room, inside),
        Kind::For => show_for(src, room, inside, r.variant),
        Kind::Jump => show_simple::show_jump_statement(src, room, inside, r.variant),
        _ => flushed,
    }
}

// 000 show_selection_statement, behind its record.
#[cycle(statements)]
fn show_selection_statement(src: &Source, room: &mut [u8], pen: Pen, v: u8) -> Pen
    ensures { ShowsOf (behind_flush (show_statement src.now.settings.collapse_single_item_compound_statements)) (selection_statement v) src.now room.old pen room.new result }
{
    let word = pen.write_str(room, b"if");
    let opened = word.write_statement_opening_parenthesis(room, src.settings);
    let asked = show_expr::show_expr(src, room, opened);
    let closed = asked.write_statement_closing_parenthesis(room, src.settings);
    show_selection_rest_statement(src, room, closed, v)
}

// 000 show_selection_rest_statement, in an if statement of this variant. A newline that is pending there is forgotten, so the second statement stays on the line of `else`.
#[cycle(statements)]
fn show_selection_rest_statement(src: &Source, room: &mut [u8], pen: Pen, v: u8) -> Pen
    ensures { ShowsOf (show_selection_rest_statement src.now.settings.collapse_single_item_compound_statements) (selection_rest v) src.now room.old pen room.new result }
{
    let chosen = show_statement(src, room, pen);
    if v == 0 {
        return chosen;
    }
    let other = chosen.write_else(room, src.settings);
    let same_line = other.consume_newline();
    show_statement(src, room, same_line)
}

// 000 show_switch_statement, behind its record, which counts n statements.
#[cycle(statements)]
fn show_switch_statement(src: &Source, room: &mut [u8], pen: Pen, n: u16) -> Pen
    ensures { ShowsOf (behind_flush (show_statement src.now.settings.collapse_single_item_compound_statements)) (switch_statement n) src.now room.old pen room.new result }
{
    let word = pen.write_str(room, b"switch");
    let opened = word.write_statement_opening_parenthesis(room, src.settings);
    let asked = show_expr::show_expr(src, room, opened);
    let closed = asked.write_char(room, b')');
    let entered = closed.enter_block(room, src.settings);
    let filled = show_statements(src, room, entered, n);
    filled.exit_block(room, src.settings)
}

// 000 show_iteration_statement, While, behind its record.
#[cycle(statements)]
fn show_while(src: &Source, room: &mut [u8], pen: Pen) -> Pen
    ensures { ShowsOf (behind_flush (show_statement src.now.settings.collapse_single_item_compound_statements)) while_statement src.now room.old pen room.new result }
{
    let word = pen.write_str(room, b"while");
    let opened = word.write_statement_opening_parenthesis(room, src.settings);
    let asked = show_simple::show_condition(src, room, opened);
    let closed = asked.write_statement_closing_parenthesis(room, src.settings);
    show_statement(src, room, closed)
}

// 000 show_iteration_statement, DoWhile, behind its record.
#[cycle(statements)]
fn show_do_while(src: &Source, room: &mut [u8], pen: Pen) -> Pen
    ensures { ShowsOf (behind_flush (show_statement src.now.settings.collapse_single_item_compound_statements)) do_while_statement src.now room.old pen room.new result }
{
    let word = pen.write_str(room, b"do");
    let spaced = word.write_char(room, b' ');
    let shown = show_statement(src, room, spaced);
    let apart = shown.write_char(room, b' ');
    let again = apart.write_str(room, b"while");
    let opened = again.write_statement_opening_parenthesis(room, src.settings);
    let asked = show_expr::show_expr(src, room, opened);
    let closed = asked.write_char(room, b')');
    closed.write_statement_terminator(room, src.settings)
}

// 000 show_iteration_statement, For, behind its record. A newline that a declaration left pending is written as a space.
#[cycle(statements)]
fn show_for(src: &Source, room: &mut [u8], pen: Pen, v: u8) -> Pen
    ensures { ShowsOf (behind_flush (show_statement src.now.settings.collapse_single_item_compound_statements)) (for_statement v) src.now room.old pen room.new result }
{
    let word = pen.write_str(room, b"for");
    let opened = word.write_statement_opening_parenthesis(room, src.settings);
    let begun = show_simple::show_for_init_statement(src, room, opened);
    let apart = begun.flush_space(room);
    let asked = show_simple::show_for_rest_statement(src, room, apart, v);
    let closed = asked.write_statement_closing_parenthesis(room, src.settings);
    show_statement(src, room, closed)
}
