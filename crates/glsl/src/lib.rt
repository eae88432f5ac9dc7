// The public calls (01, "Calls"), also as those of C, which crates/glsl_c exports. (The call that hands out a name is `records::name`.)
#![tactic(auto)]

ghost use Rattle.std.specs.Prelude.{◌≡◌, ◌<◌, ◌^◌};
ghost use Rattle.accept.specs.Check.{check};
ghost use Rattle.text.specs.Whole.{unit_text, expr_text};
ghost use Rattle.glsl.specs.Root.{root_class, root_text, value, print_outcome};
ghost use Rattle.glsl.specs.Printed.{Prints, HandsOut, PrintsBits, printed_bits, unit_outcome, expr_outcome};
ghost use Rattle.glsl.specs.Joined.{Answers, joined_outcome, joined_place, joined_bits};

use accept::{Refusal, Refused};
use draft::Root;
use leaves::Source;
use records::Tree;
use settings::Settings;

// The record check of what is printed.
fn check_root(root: Root, tree: &Tree) -> Result<usize, Refused>
    ensures { result ≡ check tree.now.records.now tree.now.names.now (root_class root) }
{
    match root {
        Root::Unit => walk::check_unit(tree),
        Root::Expr => walk::check_expr(tree),
    }
}

// The text is at the front of the room, or nothing is altered. A text that is too long for the room is the last refusal, and the length that it needs is its place.
// specs/Printed.antt gives the documents' number of each refusal.
fn print_into(
    root: Root,
    settings: &[u8],
    records: &[u8],
    names: &[u8],
    room: &mut [u8],
) -> Result<usize, Refused>
    ensures { Prints (print_outcome root settings.now records.now names.now room.old) (root_text root settings.now records.now names.now) room.old room.new result }
{
    let Some(settings) = Settings::read(settings) else {
        return Err(Refusal::SettingsOutOfRange.at(0));
    };
    let tree = Tree { records, names };
    check_root(root, &tree)?;
    let src = Source { settings, tree };
    match draft::put(root, &src, room) {
        Ok(length) => Ok(length),
        Err(e) => Err(Refusal::RoomTooSmall.at(e.length)),
    }
}

// Prints a unit: its text is at the front of the room, or nothing is altered. (A unit and an expression have calls of their own, here and below: document 01 and C name them.)
pub fn print_unit_into(
    settings: &[u8],
    records: &[u8],
    names: &[u8],
    room: &mut [u8],
) -> Result<usize, Refused>
    ensures { Prints (unit_outcome settings.now records.now names.now room.old) (unit_text settings.now records.now names.now) room.old room.new result }
{
    print_into(Root::Unit, settings, records, names, room)
}

// Prints an expression, likewise.
pub fn print_expr_into(
    settings: &[u8],
    records: &[u8],
    names: &[u8],
    room: &mut [u8],
) -> Result<usize, Refused>
    ensures { Prints (expr_outcome settings.now records.now names.now room.old) (expr_text settings.now records.now names.now) room.old room.new result }
{
    print_into(Root::Expr, settings, records, names, room)
}

// The written front of the room, or the refusal.
fn print<'a>(
    root: Root,
    settings: &[u8],
    records: &[u8],
    names: &[u8],
    room: &'a mut [u8],
) -> Result<&'a mut [u8], Refused>
    ensures { HandsOut (print_outcome root settings.now records.now names.now room.old) (root_text root settings.now records.now names.now) result }
{
    let n = print_into(root, settings, records, names, &mut *room)?;
    Ok(&mut room[..n])
}

// Prints a unit and hands back the written front of the room, or the refusal with its place. (Of a room that is handed back in part a contract can say no more than the
// part: that a refusal alters nothing, and what stands behind the text, `print_unit_into` promises.)
pub fn print_unit<'a>(
    settings: &[u8],
    records: &[u8],
    names: &[u8],
    room: &'a mut [u8],
) -> Result<&'a mut [u8], Refused>
    ensures { HandsOut (unit_outcome settings.now records.now names.now room.old) (unit_text settings.now records.now names.now) result }
{
    print(Root::Unit, settings, records, names, room)
}

// Prints an expression and hands back the written front of the room, likewise.
pub fn print_expr<'a>(
    settings: &[u8],
    records: &[u8],
    names: &[u8],
    room: &'a mut [u8],
) -> Result<&'a mut [u8], Refused>
    ensures { HandsOut (expr_outcome settings.now records.now names.now room.old) (expr_text settings.now records.now names.now) result }
{
    print(Root::Expr, settings, records, names, room)
}

// The 64 bits of an answer. (Of 32 bits: checks::refusal_answer says why that is no type.)
fn printed_bits(o: Result<usize, Refused>) -> i64
    requires { value o < 2 ^ 32 }
    ensures { result ≡ printed_bits o }
{
    match o {
        Ok(length) => length as i64,
        Err(r) => checks::refusal_answer(r),
    }
}

// A print with its answer in 64 bits.
fn print_bits(root: Root, settings: &[u8], records: &[u8], names: &[u8], room: &mut [u8]) -> i64
    ensures { PrintsBits (print_outcome root settings.now records.now names.now room.old) (root_text root settings.now records.now names.now) room.old room.new result }
{
    printed_bits(print_into(root, settings, records, names, room))
}

// The calls for C, which crates/glsl_c exports under the same names and clauses: there each slice is a pointer and a length. The answer is the length of the text or a
// refusal with its place.
pub fn glsl_print_unit(settings: &[u8], records: &[u8], names: &[u8], room: &mut [u8]) -> i64
    ensures { PrintsBits (unit_outcome settings.now records.now names.now room.old) (unit_text settings.now records.now names.now) room.old room.new result }
{
    print_bits(Root::Unit, settings, records, names, room)
}

pub fn glsl_print_expr(settings: &[u8], records: &[u8], names: &[u8], room: &mut [u8]) -> i64
    ensures { PrintsBits (expr_outcome settings.now records.now names.now room.old) (expr_text settings.now records.now names.now) room.old room.new result }
{
    print_bits(Root::Expr, settings, records, names, room)
}

// Whether an expression is joined. specs/Joined.antt gives the documents' number of each refusal.
pub fn joined(records: &[u8], names: &[u8]) -> Result<bool, Refused>
    ensures { Answers records.now names.now result }
{
    walk::check_expr(&Tree { records, names })?;
    Ok(joined::any_joined(records))
}

// The 64 bits of an answer.
fn joined_bits(o: Result<bool, Refused>) -> i64
    requires { joined_place o < 2 ^ 32 }
    ensures { result ≡ joined_bits o }
{
    match o {
        Ok(joined) => i64::from(joined),
        Err(r) => checks::refusal_answer(r),
    }
}

pub fn glsl_joined(records: &[u8], names: &[u8]) -> i64
    ensures { result ≡ joined_bits (joined_outcome records.now names.now) }
{
    joined_bits(joined(records, names))
}
