// The printers of declarations: 000 show_fully_specified_type, and show_declaration to show_block. Each reads the record that its pen stands before; a record
// that is not of the expected kind is read as nothing, by the code as by the definition.
#![tactic(auto)]

ghost use Rattle.std.specs.Prelude.{◌≡◌, cond};
ghost use Rattle.std.proofs.Math.Option.{none, some};
ghost use Rattle.records.specs.Record.{text_of};
ghost use Rattle.settings.specs.declared.Settings.{Settings};
ghost use Rattle.text.specs.Text.{show_fully_specified_type, show_declaration, show_function_prototype, show_function_parameter_declaration, show_init_declarator_list, show_single_declaration, show_declared, show_initialized, show_single_declaration_no_type, show_block, show_arrayed_identifier, optional};
ghost use Rattle.text.specs.Reading as Reading;
ghost use Rattle.text.specs.Reading.{maybe};
ghost use Rattle.pen.specs.Promise.{Ran};
ghost use Rattle.leaves.specs.Shown.{ShowsOf};

use leaves::Source;
use pen::Pen;
use records::Record;
use records::kind::Kind;
use show_expr::show;

pub mod initializer;

// What stands in a declaration (kind 47), by its variant; the last is a qualifier alone. (By number, as all variants: show_expr::show says why.)
const PROTOTYPE: u8 = 0;

const DECLARATORS: u8 = 1;

const PRECISION: u8 = 2;

const BLOCK: u8 = 3;

const INVARIANT: u8 = 4;

// 000 show_fully_specified_type.
pub fn show_fully_specified_type(src: &Source, room: &mut [u8], pen: Pen) -> Pen
    ensures { ShowsOf show_fully_specified_type Reading.full_type src.now room.old pen room.new result }
{
    let Some((r, inside)) = src.enter(pen, Kind::FullySpecifiedType) else {
        return pen;
    };
    let qualified = show::qualif(src, room, inside, r.variant == 1);
    show::ty(src, room, qualified)
}

// 000 show_declaration.
pub fn show_declaration(src: &Source, room: &mut [u8], pen: Pen) -> Pen
    ensures { ShowsOf show_declaration Reading.declaration src.now room.old pen room.new result }
{
    let Some((r, inside)) = src.enter(pen, Kind::Declaration) else {
        return pen;
    };
    let variant = r.variant;
    match variant {
        PROTOTYPE => {
            let shown = show_function_prototype(src, room, inside);
            shown.write_declaration_terminator(room, src.settings)
        }
        DECLARATORS => {
            let shown = show_init_declarator_list(src, room, inside);
            shown.write_declaration_terminator(room, src.settings)
        }
        PRECISION => {
            let word = inside.write_str(room, b"precision");
            let spaced = word.write_char(room, b' ');
            let qualified = show::spec(src, room, spaced);
            let apart = qualified.write_char(room, b' ');
            let shown = show::ty(src, room, apart);
            shown.write_declaration_terminator(room, src.settings)
        }
        BLOCK => {
            let shown = show_block(src, room, inside);
            shown.write_declaration_terminator(room, src.settings)
        }
        INVARIANT => {
            let word = inside.write_str(room, b"invariant");
            let spaced = word.write_char(room, b' ');
            let shown = spaced.write_name(room, &src.tree, r);
            shown.write_declaration_terminator(room, src.settings)
        }
        _ => {
            let shown = show::qual(src, room, inside);
            shown.write_declaration_terminator(room, src.settings)
        }
    }
}

// 000 show_function_prototype.
pub fn show_function_prototype(src: &Source, room: &mut [u8], pen: Pen) -> Pen
    ensures { ShowsOf show_function_prototype Reading.prototype src.now room.old pen room.new result }
{
    let Some((r, inside)) = src.enter(pen, Kind::FunctionPrototype) else {
        return pen;
    };
    let typed = show_fully_specified_type(src, room, inside);
    let spaced = typed.write_char(room, b' ');
    let named = spaced.write_name(room, &src.tree, r);
    let mut at = named.write_char(room, b'(');
    for k in 0..r.count {
        at = leaves::separate(at, src.settings, room, k == 0);
        at = show_function_parameter_declaration(src, room, at);
    }
    at.write_char(room, b')')
}

// 000 show_function_parameter_declaration, with show_function_parameter_declarator.
fn show_function_parameter_declaration(src: &Source, room: &mut [u8], pen: Pen) -> Pen
    ensures { ShowsOf show_function_parameter_declaration Reading.parameter src.now room.old pen room.new result }
{
    let Some((r, inside)) = src.enter(pen, Kind::FunctionParameterDeclaration) else {
        return pen;
    };
    let qualified = show::qualif(src, room, inside, r.variant / 2 % 2 == 1);
    let typed = show::ty(src, room, qualified);
    if r.variant % 2 == 1 {
        let spaced = typed.write_char(room, b' ');
        return show::ident(src, room, spaced);
    }
    typed
}

// 000 show_init_declarator_list.
fn show_init_declarator_list(src: &Source, room: &mut [u8], pen: Pen) -> Pen
    ensures { ShowsOf show_init_declarator_list Reading.declarators src.now room.old pen room.new result }
{
    let Some((r, inside)) = src.enter(pen, Kind::InitDeclaratorList) else {
        return pen;
    };
    let mut at = show_single_declaration(src, room, inside);
    for _k in 0..r.count {
        at = at.write_list_separator(room, src.settings);
        at = show_single_declaration_no_type(src, room, at);
    }
    at
}

// 000 show_single_declaration.
fn show_single_declaration(src: &Source, room: &mut [u8], pen: Pen) -> Pen
    ensures { ShowsOf show_single_declaration Reading.single src.now room.old pen room.new result }
{
    let Some((r, inside)) = src.enter(pen, Kind::SingleDeclaration) else {
        return pen;
    };
    let typed = show_fully_specified_type(src, room, inside);
    let named = show_declared(typed, src, room, r.variant % 2 == 1, r);
    let sized = show::dims(src, room, named, r.variant / 2 % 2 == 1);
    show_initialized(src, room, sized, r.variant / 4 % 2 == 1)
}

// In show_single_declaration: the name, if there is one. (By a flag, as leaves::show_name.)
fn show_declared(pen: Pen, src: &Source, room: &mut [u8], named: bool, r: Record) -> Pen
    ensures { (s : Settings) → Ran s (show_declared (cond named (some (text_of src.now.tree.names.now r)) none)) room.old pen room.new result }
{
    if named {
        let spaced = pen.write_char(room, b' ');
        return spaced.write_name(room, &src.tree, r);
    }
    pen
}

// In show_single_declaration and show_single_declaration_no_type: the initializer, if there is one.
fn show_initialized(src: &Source, room: &mut [u8], pen: Pen, on: bool) -> Pen
    ensures { ShowsOf show_initialized (maybe on Reading.initializer) src.now room.old pen room.new result }
{
    if on {
        let assigned = pen.write_binary_op(room, src.settings, b"=");
        return initializer::show_initializer(src, room, assigned);
    }
    pen
}

// 000 show_single_declaration_no_type.
fn show_single_declaration_no_type(src: &Source, room: &mut [u8], pen: Pen) -> Pen
    ensures { ShowsOf show_single_declaration_no_type Reading.declarator src.now room.old pen room.new result }
{
    let Some((r, inside)) = src.enter(pen, Kind::SingleDeclarationNoType) else {
        return pen;
    };
    let named = show::ident(src, room, inside);
    show_initialized(src, room, named, r.variant == 1)
}

// 000 show_block.
fn show_block(src: &Source, room: &mut [u8], pen: Pen) -> Pen
    ensures { ShowsOf show_block Reading.block src.now room.old pen room.new result }
{
    let Some((r, inside)) = src.enter(pen, Kind::Block) else {
        return pen;
    };
    let qualified = show::qual(src, room, inside);
    let spaced = qualified.write_char(room, b' ');
    let named = spaced.write_name(room, &src.tree, r);
    let opened = named.enter_block(room, src.settings);
    let filled = show::fields(src, room, opened, r.count);
    let closed = filled.exit_block(room, src.settings);
    show_block_name(src, room, closed, r.variant == 1)
}

// In show_block: the identifier behind the fields, if there is one.
fn show_block_name(src: &Source, room: &mut [u8], pen: Pen, on: bool) -> Pen
    ensures { ShowsOf (optional show_arrayed_identifier) (maybe on Reading.identifier) src.now room.old pen room.new result }
{
    if on {
        return show::ident(src, room, pen);
    }
    pen
}
