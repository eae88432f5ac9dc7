// The printers of a unit: 000 show_function_definition, show_external_declaration and show_translation_unit.
#![tactic(auto)]

ghost use Rattle.std.specs.Prelude.{◌≡◌, true};
ghost use Rattle.text.specs.Text.{show_compound_statement, show_external_declaration, show_translation_unit};
ghost use Rattle.text.specs.Reading as Reading;
ghost use Rattle.leaves.specs.Shown.{ShowsOf};
ghost use Rattle.show_simple.specs.Flushed.{behind_flush};
ghost use Rattle.show_simple.specs.Parts.{function_definition};

use leaves::Source;
use pen::Pen;
use records::kind::Kind;
use show_statement::statement;

// 000 show_function_definition, behind its record.
fn show_function_definition(src: &Source, room: &mut [u8], pen: Pen) -> Pen
    ensures { ShowsOf (behind_flush (show_external_declaration src.now.settings.collapse_single_item_compound_statements)) function_definition src.now room.old pen room.new result }
{
    let declared = show_declaration::show_function_prototype(src, room, pen);
    let entered = declared.enter_function_definition_statement();
    let shown = show_body(src, room, entered);
    let flushed = shown.flush_line(room, src.settings);
    flushed.write_function_definition_terminator(room, src.settings)
}

// In show_function_definition: the body, which is never collapsed. What is no compound statement is a body without statements.
fn show_body(src: &Source, room: &mut [u8], pen: Pen) -> Pen
    ensures { ShowsOf (show_compound_statement src.now.settings.collapse_single_item_compound_statements true) Reading.compound src.now room.old pen room.new result }
{
    let Some((r, inside)) = src.enter(pen, Kind::Compound) else {
        return statement::show_function_body(src, room, pen, 0);
    };
    statement::show_function_body(src, room, inside, r.count)
}

// 000 show_external_declaration: what is none flushes all the same. (exit_external_declaration comes with directives.)
fn show_external_declaration(src: &Source, room: &mut [u8], pen: Pen) -> Pen
    ensures { ShowsOf (show_external_declaration src.now.settings.collapse_single_item_compound_statements) Reading.external src.now room.old pen room.new result }
{
    let entered = pen.enter_external_declaration(room, src.settings);
    let Some(kind) = src.tree.kind(entered.next) else {
        return entered;
    };
    match kind {
        Kind::Declaration => show_declaration::show_declaration(src, room, entered),
        Kind::FunctionDefinition => {
            let inside = leaves::past(src, entered);
            show_function_definition(src, room, inside)
        }
        _ => entered,
    }
}

// 000 show_translation_unit. A newline that is pending at the end is never written.
pub fn show_translation_unit(src: &Source, room: &mut [u8], pen: Pen) -> Pen
    ensures { ShowsOf (show_translation_unit src.now.settings.collapse_single_item_compound_statements) Reading.unit src.now room.old pen room.new result }
{
    let Some((r, inside)) = src.enter(pen, Kind::TranslationUnit) else {
        return pen;
    };
    let mut at = inside;
    for _k in 0..r.count {
        at = show_external_declaration(src, room, at);
    }
    at
}
