// The printers of types, structs, arrays, qualifiers and expressions, which call each other. At each call 8 * (records left) + rank falls: where the callee
// stands before the caller's record (bare in expr, array in dims, ty in callee), its rank is lower. A name here is 000's without its `show_`,
// shortened; each says which function of 000 it is. Those that are pub, besides expr, are for the printers of units.
// A printer reads the record that its pen stands before; one that takes fields of a record (a variant, a count) works behind that record.
// A record that is not of an expected kind is read as nothing, by the code as by the definition: so no printer asks whether the records were checked.
//
// Variants are told by their numbers, and flags by their bits, as the definition reads them: an enum for each kind of record would be read from the byte by document 01's table once more.
// The loops over a list differ in the printer that they call, and so do the parts that stand where a flag is on (dims, qualif, ..): as one function each would take that printer, which is of this
// cycle, as a closure, and state its promise and its measure at every call; that is no plainer than two lines here.
//
// name     function of 000
// base     show_type_specifier_non_array
// ty       show_type_specifier
// dims     the `if let Some(..)` around show_array_spec, in show_type_specifier, show_arrayed_identifier and show_single_declaration
// strukt   show_struct_non_declaration
// fields   the loop over fields, in show_struct_non_declaration and show_block
// field    show_struct_field
// idents   the loop over identifiers, in show_struct_field
// array    show_array_spec
// dim      the body of its loop: one dimension
// ident    show_arrayed_identifier
// qualif   the `if let Some(..)` around show_type_qualifier and the space behind it, in show_fully_specified_type, show_struct_field and show_function_parameter_declaration
// qual     show_type_qualifier
// spec     show_type_qualifier_spec, with show_storage_qualifier, show_precision_qualifier and show_interpolation_qualifier
// subr     show_subroutine
// layout   show_layout_qualifier
// id       show_layout_qualifier_spec
// callee   show_function_identifier
// Three are show_expr: `bare` is its match on the expression; `expr` is an operand, which is `bare` with the parentheses that 000 writes around it in each arm; and
// `show_expr::show_expr` (lib.rt), which crates above call, is an expression by itself: `expr` that is never in parentheses.
// Its arms with operands are functions: unary, binary, ternary, assign (Assignment), index (Bracket), call (FunCall), dot, post (PostInc and PostDec), comma.
// The two parts of a ternary (question, choice) and the arguments of a call (exprs) are functions of their own, so that all that one of them keeps on the stack is given up before
// the next: `expr` has all arms in one frame, as large as its largest arm (docs/SPEED.md).
ghost use Rattle.std.specs.Prelude.{◌≡◌, true, cond, leb, eqb};
ghost use Rattle.std.proofs.Math.Option.{none, some};
ghost use Rattle.records.specs.Record.{text_of};
ghost use Rattle.text.specs.Tree.{Expr, Exprs, TypeSpecifiers, TypeSpecifierNonArray, TypeQualifierSpec, LayoutQualifier, StructFieldSpecifiers, ArrayedIdentifiers};
ghost use Rattle.text.specs.Operator.{precedence};
ghost use Rattle.text.specs.Text.{bare_if, show_type_specifier_non_array, show_type_specifier, show_struct_fields, show_struct_field, show_array_spec, show_dimension, show_arrayed_identifier, show_arrayed_identifiers, show_qualification, show_type_qualifier, show_type_qualifier_spec, show_layout_qualifier_spec, show_expr, show_exprs, show_function_identifier};
ghost use Rattle.text.specs.Reading as Reading;
ghost use Rattle.text.specs.Reading.{give, ◌and◌, several, unary_op_of, binary_op_of, assignment_op};
ghost use Rattle.leaves.specs.Shown.{ShowsOf};
ghost use Rattle.show_expr.specs.Rest as Rest;

use leaves::Source;
use pen::Pen;
use records::Record;
use records::kind::Kind;
use settings::Settings;

// What an operand may bind at most and be bare: anything, or one less than a number of HasPrecedence where 000 asks for less.
pub const ANY: u8 = precedence::COMMA;

const BELOW_POSTFIX: u8 = precedence::POSTFIX - 1;

const BELOW_TERNARY: u8 = precedence::TERNARY - 1;

const BELOW_ASSIGNMENT: u8 = precedence::ASSIGNMENT - 1;

const BELOW_COMMA: u8 = precedence::COMMA - 1;

// Variants of a qualifier (kind 29): the one that is also a layout's id, and the two that have parts.
const SHARED: u8 = 9;

const SUBROUTINE: u8 = 17;

const LAYOUT: u8 = 18;

// 000 show_type_specifier_non_array.
#[cycle(printers)]
fn base(src: &Source, room: &mut [u8], pen: Pen) -> Pen
    ensures { ShowsOf show_type_specifier_non_array Reading.base src.now room.old pen room.new result }
{
    let r = src.tree.record_at(pen.next);
    let inside = leaves::past(src, pen);
    let Some(kind) = r.kind() else {
        return pen;
    };
    match kind {
        Kind::TypeKeyword => leaves::show_keyword(inside, room, r.variant),
        Kind::TypeName => inside.write_name(room, &src.tree, r),
        Kind::Struct => strukt(src, room, inside, r),
        _ => pen,
    }
}

// 000 show_type_specifier.
#[cycle(printers)]
pub fn ty(src: &Source, room: &mut [u8], pen: Pen) -> Pen
    ensures { ShowsOf show_type_specifier Reading.type src.now room.old pen room.new result }
{
    let Some((r, inside)) = src.enter(pen, Kind::TypeSpecifier) else {
        return pen;
    };
    let named = base(src, room, inside);
    dims(src, room, named, r.variant == 1)
}

// The dimensions behind a type or a name, where it has some.
#[cycle(printers)]
pub fn dims(src: &Source, room: &mut [u8], pen: Pen, on: bool) -> Pen
    ensures { ShowsOf show_array_spec (Reading.array_if on) src.now room.old pen room.new result }
{
    if on {
        return array(src, room, pen);
    }
    pen
}

// 000 show_struct_non_declaration, behind its record.
#[cycle(printers)]
fn strukt(src: &Source, room: &mut [u8], pen: Pen, top: Record) -> Pen
    ensures { ShowsOf show_type_specifier_non_array (give (TypeSpecifierNonArray.Struct (cond (eqb top.variant 1) (some (text_of src.now.tree.names.now top)) none)) and several top.count Reading.field StructFieldSpecifiers.no_fields StructFieldSpecifiers.fields) src.now room.old pen room.new result }
{
    let word = pen.write_str(room, b"struct");
    let spaced = word.write_char(room, b' ');
    let named = leaves::show_name(spaced, src, room, top.variant == 1, top);
    let opened = named.enter_block(room, src.settings);
    let filled = fields(src, room, opened, top.count);
    filled.exit_block(room, src.settings)
}

// In show_struct_non_declaration and show_block: n fields.
#[cycle(printers)]
pub fn fields(src: &Source, room: &mut [u8], pen: Pen, n: u16) -> Pen
    ensures { ShowsOf show_struct_fields (several n Reading.field StructFieldSpecifiers.no_fields StructFieldSpecifiers.fields) src.now room.old pen room.new result }
{
    let mut at = pen;
    for _k in 0..n {
        at = at.flush_line(room, src.settings);
        at = field(src, room, at);
        at = at.write_struct_field_separator(room, src.settings);
    }
    at
}

// 000 show_struct_field.
#[cycle(printers)]
fn field(src: &Source, room: &mut [u8], pen: Pen) -> Pen
    ensures { ShowsOf show_struct_field Reading.field src.now room.old pen room.new result }
{
    let Some((r, inside)) = src.enter(pen, Kind::StructFieldSpecifier) else {
        return pen;
    };
    let qualified = qualif(src, room, inside, r.variant == 1);
    let typed = ty(src, room, qualified);
    let spaced = typed.write_char(room, b' ');
    idents(src, room, spaced, r.count)
}

// In show_struct_field: n identifiers.
#[cycle(printers)]
fn idents(src: &Source, room: &mut [u8], pen: Pen, n: u16) -> Pen
    ensures { ShowsOf (λ is. show_arrayed_identifiers is true) (several n Reading.identifier ArrayedIdentifiers.no_identifiers ArrayedIdentifiers.identifiers) src.now room.old pen room.new result }
{
    let mut at = pen;
    for k in 0..n {
        at = leaves::separate(at, src.settings, room, k == 0);
        at = ident(src, room, at);
    }
    at
}

// 000 show_array_spec.
#[cycle(printers)]
fn array(src: &Source, room: &mut [u8], pen: Pen) -> Pen
    ensures { ShowsOf show_array_spec Reading.array src.now room.old pen room.new result }
{
    let Some((r, inside)) = src.enter(pen, Kind::ArraySpecifier) else {
        return pen;
    };
    let mut at = inside;
    for _k in 0..r.count {
        at = dim(src, room, at);
    }
    at
}

// In show_array_spec: one dimension.
#[cycle(printers)]
fn dim(src: &Source, room: &mut [u8], pen: Pen) -> Pen
    ensures { ShowsOf show_dimension Reading.dimension src.now room.old pen room.new result }
{
    let Some((r, inside)) = src.enter(pen, Kind::ArraySpecifierDimension) else {
        return pen;
    };
    let opened = inside.write_char(room, b'[');
    if r.variant == 0 {
        return opened.write_char(room, b']');
    }
    let sized = expr(src, room, opened, ANY);
    sized.write_char(room, b']')
}

// 000 show_arrayed_identifier.
#[cycle(printers)]
pub fn ident(src: &Source, room: &mut [u8], pen: Pen) -> Pen
    ensures { ShowsOf show_arrayed_identifier Reading.identifier src.now room.old pen room.new result }
{
    let Some((r, inside)) = src.enter(pen, Kind::ArrayedIdentifier) else {
        return pen;
    };
    let named = inside.write_name(room, &src.tree, r);
    dims(src, room, named, r.variant == 1)
}

// A qualifier and a space, where there is one.
#[cycle(printers)]
pub fn qualif(src: &Source, room: &mut [u8], pen: Pen, on: bool) -> Pen
    ensures { ShowsOf show_qualification (Reading.qualification_if on) src.now room.old pen room.new result }
{
    if on {
        let qualified = qual(src, room, pen);
        return qualified.write_char(room, b' ');
    }
    pen
}

// 000 show_type_qualifier.
#[cycle(printers)]
pub fn qual(src: &Source, room: &mut [u8], pen: Pen) -> Pen
    ensures { ShowsOf (λ q. show_type_qualifier q true) Reading.qualifier src.now room.old pen room.new result }
{
    let Some((r, inside)) = src.enter(pen, Kind::TypeQualifier) else {
        return pen;
    };
    let mut at = inside;
    for k in 0..r.count {
        at = leaves::space_between(at, room, k == 0);
        at = spec(src, room, at);
    }
    at
}

// 000 show_type_qualifier_spec, with show_storage_qualifier, show_precision_qualifier and show_interpolation_qualifier.
#[cycle(printers)]
pub fn spec(src: &Source, room: &mut [u8], pen: Pen) -> Pen
    ensures { ShowsOf show_type_qualifier_spec Reading.spec src.now room.old pen room.new result }
{
    let Some((r, inside)) = src.enter(pen, Kind::TypeQualifierSpec) else {
        return pen;
    };
    let variant = r.variant;
    match variant {
        SUBROUTINE => subr(src, room, inside, r.count),
        LAYOUT => layout(src, room, inside, r.count),
        _ => leaves::show_qualifier_word(inside, room, r.variant),
    }
}

// 000 show_subroutine, behind its record, which counts n types.
#[cycle(printers)]
fn subr(src: &Source, room: &mut [u8], pen: Pen, n: u16) -> Pen
    ensures { ShowsOf show_type_qualifier_spec (give TypeQualifierSpec.Subroutine and several n Reading.type TypeSpecifiers.no_types TypeSpecifiers.types) src.now room.old pen room.new result }
{
    let word = leaves::show_qualifier_word(pen, room, SUBROUTINE);
    if n == 0 {
        return word;
    }
    let mut at = word.write_char(room, b'(');
    for k in 0..n {
        at = leaves::separate(at, src.settings, room, k == 0);
        at = ty(src, room, at);
    }
    at.write_char(room, b')')
}

// 000 show_layout_qualifier, behind its record, which counts n ids.
#[cycle(printers)]
fn layout(src: &Source, room: &mut [u8], pen: Pen, n: u16) -> Pen
    ensures { ShowsOf show_type_qualifier_spec (give TypeQualifierSpec.Layout and several n Reading.layout_id LayoutQualifier.no_ids LayoutQualifier.ids) src.now room.old pen room.new result }
{
    let word = leaves::show_qualifier_word(pen, room, LAYOUT);
    let mut at = word.write_char(room, b'(');
    for k in 0..n {
        at = leaves::separate(at, src.settings, room, k == 0);
        at = id(src, room, at);
    }
    at.write_char(room, b')')
}

// 000 show_layout_qualifier_spec.
#[cycle(printers)]
fn id(src: &Source, room: &mut [u8], pen: Pen) -> Pen
    ensures { ShowsOf show_layout_qualifier_spec Reading.layout_id src.now room.old pen room.new result }
{
    let Some((r, inside)) = src.enter(pen, Kind::LayoutQualifierSpec) else {
        return pen;
    };
    if r.variant == 0 {
        return inside.write_name(room, &src.tree, r);
    }
    if r.variant == 1 {
        let named = inside.write_name(room, &src.tree, r);
        let is = named.write_binary_op(room, src.settings, b"=");
        return expr(src, room, is, ANY);
    }
    leaves::show_qualifier_word(inside, room, SHARED)
}

// 000 show_expr as an operand, which is bare if it binds at `most` or more strongly, and else in parentheses. (Where no record is left `bare` shows nothing, too; with the way
// out here the compiler leaves `expr` out of its callers and puts `bare` into it, which is much faster: docs/SPEED.md.)
#[cycle(printers)]
pub fn expr(src: &Source, room: &mut [u8], pen: Pen, most: u8) -> Pen
    ensures { ShowsOf (λ e. bare_if (leb (precedence e) most) (show_expr e)) Reading.expr src.now room.old pen room.new result }
{
    if !src.tree.stands(pen.next) {
        return pen;
    }
    let kind = src.tree.kind_at(pen.next);
    let closed = most < precedence::of_expr(kind, src.tree.variant_at(pen.next));
    let opened = leaves::open_if(pen, room, closed);
    let shown = bare(src, room, opened);
    leaves::close_if(shown, room, closed)
}

// 000 show_expr.
#[cycle(printers)]
fn bare(src: &Source, room: &mut [u8], pen: Pen) -> Pen
    ensures { ShowsOf show_expr Reading.expr src.now room.old pen room.new result }
{
    let r = src.tree.record_at(pen.next);
    let inside = leaves::past(src, pen);
    let Some(kind) = r.kind() else {
        return pen;
    };
    match kind {
        Kind::Variable => inside.write_name(room, &src.tree, r),
        Kind::IntConst => inside.write_signed(room, r.a),
        Kind::UIntConst => inside.write_uint(room, u64::from(r.a)),
        Kind::BoolConst => leaves::show_bool(inside, room, r.variant),
        Kind::FloatConst => inside.write_float(room, src.tree.text_of(r)),
        Kind::DoubleConst => inside.write_double(room, src.tree.text_of(r)),
        Kind::Unary => unary(src, room, inside, r.variant),
        Kind::Binary => binary(src, room, inside, r.variant),
        Kind::Ternary => ternary(src, room, inside),
        Kind::Assignment => assign(src, room, inside, r.variant),
        Kind::Bracket => index(src, room, inside),
        Kind::FunCall => call(src, room, inside, r.count),
        Kind::Dot => dot(src, room, inside, r),
        Kind::PostInc => post(src, room, inside, false),
        Kind::PostDec => post(src, room, inside, true),
        Kind::Comma => comma(src, room, inside),
        _ => pen,
    }
}

// In show_expr: Unary.
#[cycle(printers)]
fn unary(src: &Source, room: &mut [u8], pen: Pen, v: u8) -> Pen
    ensures { ShowsOf show_expr (give (Expr.Unary (unary_op_of v)) and Reading.expr) src.now room.old pen room.new result }
{
    let most = leaves::unary_most(src, pen.next, v);
    let op = leaves::show_unary_op(pen, src, room, v, most);
    expr(src, room, op, most)
}

// In show_expr: Binary. (Put into `bare`, and so into `expr`: docs/SPEED.md, "The look back".)
#[cycle(printers)]
#[inline(always)]
fn binary(src: &Source, room: &mut [u8], pen: Pen, v: u8) -> Pen
    ensures { ShowsOf show_expr (give (Expr.Binary (binary_op_of v)) and Reading.expr and Reading.expr) src.now room.old pen room.new result }
{
    let precedence = precedence::of_binary_op(v);
    let left = expr(src, room, pen, precedence);
    let op = leaves::show_binary_op(left, src, room, v);
    expr(src, room, op, precedence - 1)
}

// In show_expr: Ternary.
#[cycle(printers)]
fn ternary(src: &Source, room: &mut [u8], pen: Pen) -> Pen
    ensures { ShowsOf show_expr (give Expr.Ternary and Reading.expr and Reading.expr and Reading.expr) src.now room.old pen room.new result }
{
    let asked = question(src, room, pen);
    choice(src, room, asked)
}

// In show_expr, Ternary: the condition and its mark.
#[cycle(printers)]
fn question(src: &Source, room: &mut [u8], pen: Pen) -> Pen
    ensures { ShowsOf Rest.show_question Reading.expr src.now room.old pen room.new result }
{
    let condition = expr(src, room, pen, BELOW_TERNARY);
    condition.write_binary_op(room, src.settings, b"?")
}

// In show_expr, Ternary: what stands behind the mark.
#[cycle(printers)]
fn choice(src: &Source, room: &mut [u8], pen: Pen) -> Pen
    ensures { ShowsOf Rest.show_choice Rest.choice src.now room.old pen room.new result }
{
    let chosen = expr(src, room, pen, ANY);
    let otherwise = chosen.write_binary_op(room, src.settings, b":");
    expr(src, room, otherwise, precedence::TERNARY)
}

// In show_expr: Assignment.
#[cycle(printers)]
fn assign(src: &Source, room: &mut [u8], pen: Pen, v: u8) -> Pen
    ensures { ShowsOf show_expr (give (Expr.Assignment (assignment_op v)) and Reading.expr and Reading.expr) src.now room.old pen room.new result }
{
    let target = expr(src, room, pen, BELOW_ASSIGNMENT);
    let op = leaves::show_assignment_op(target, src.settings, room, v);
    expr(src, room, op, precedence::ASSIGNMENT)
}

// In show_expr: Bracket.
#[cycle(printers)]
fn index(src: &Source, room: &mut [u8], pen: Pen) -> Pen
    ensures { ShowsOf show_expr (give Expr.Bracket and Reading.expr and Reading.expr) src.now room.old pen room.new result }
{
    let indexed = expr(src, room, pen, precedence::POSTFIX);
    let opened = indexed.write_char(room, b'[');
    let place = expr(src, room, opened, ANY);
    place.write_char(room, b']')
}

// In show_expr: FunCall, with n arguments.
#[cycle(printers)]
fn call(src: &Source, room: &mut [u8], pen: Pen, n: u16) -> Pen
    ensures { ShowsOf show_expr (give Expr.FunCall and Reading.callee and several n Reading.expr Exprs.no_exprs Exprs.exprs) src.now room.old pen room.new result }
{
    let called = callee(src, room, pen);
    let opened = called.write_char(room, b'(');
    let filled = exprs(src, room, opened, n);
    filled.write_char(room, b')')
}

// In show_expr, FunCall: n arguments.
#[cycle(printers)]
fn exprs(src: &Source, room: &mut [u8], pen: Pen, n: u16) -> Pen
    ensures { ShowsOf (λ es. show_exprs es true) (several n Reading.expr Exprs.no_exprs Exprs.exprs) src.now room.old pen room.new result }
{
    let mut at = pen;
    for k in 0..n {
        at = leaves::separate(at, src.settings, room, k == 0);
        at = expr(src, room, at, ANY);
    }
    at
}

// 000 show_function_identifier.
#[cycle(printers)]
fn callee(src: &Source, room: &mut [u8], pen: Pen) -> Pen
    ensures { ShowsOf show_function_identifier Reading.callee src.now room.old pen room.new result }
{
    if src.is(pen.next, Kind::TypeSpecifier) {
        return ty(src, room, pen);
    }
    expr(src, room, pen, ANY)
}

// In show_expr: Dot.
#[cycle(printers)]
fn dot(src: &Source, room: &mut [u8], pen: Pen, r: Record) -> Pen
    ensures { ShowsOf show_expr (give (Expr.Dot (text_of src.now.tree.names.now r)) and Reading.expr) src.now room.old pen room.new result }
{
    let of = expr(src, room, pen, precedence::POSTFIX);
    let dotted = leaves::write_dot(of, src, room, pen.next);
    dotted.write_name(room, &src.tree, r)
}

// In show_expr: PostInc and PostDec.
#[cycle(printers)]
fn post(src: &Source, room: &mut [u8], pen: Pen, down: bool) -> Pen
    ensures { ShowsOf show_expr (give (cond down Expr.PostDec Expr.PostInc) and Reading.expr) src.now room.old pen room.new result }
{
    let stepped = expr(src, room, pen, BELOW_POSTFIX);
    leaves::show_post(stepped, room, down)
}

// In show_expr: Comma.
#[cycle(printers)]
fn comma(src: &Source, room: &mut [u8], pen: Pen) -> Pen
    ensures { ShowsOf show_expr (give Expr.Comma and Reading.expr and Reading.expr) src.now room.old pen room.new result }
{
    let before = expr(src, room, pen, precedence::COMMA);
    let separated = before.write_list_separator(room, src.settings);
    expr(src, room, separated, BELOW_COMMA)
}
