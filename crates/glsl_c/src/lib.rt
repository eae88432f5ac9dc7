// The three calls as C functions (include/glsl_print.h): each slice is a pointer and a length. A crate is a library or a static library, so these stand here and not in
// crates/glsl; each is the function of that name there, and says what that one says.
#![tactic(auto)]

ghost use Rattle.std.specs.Prelude.{◌≡◌};
ghost use Rattle.text.specs.Whole.{unit_text, expr_text};
ghost use Rattle.glsl.specs.Printed.{PrintsBits, unit_outcome, expr_outcome};
ghost use Rattle.glsl.specs.Joined.{joined_outcome, joined_bits};

#[unsafe(no_mangle)]
pub extern "C" fn glsl_print_unit(
    settings: &[u8],
    records: &[u8],
    names: &[u8],
    room: &mut [u8],
) -> i64
    ensures { PrintsBits (unit_outcome settings.now records.now names.now room.old) (unit_text settings.now records.now names.now) room.old room.new result }
{
    glsl::glsl_print_unit(settings, records, names, room)
}

#[unsafe(no_mangle)]
pub extern "C" fn glsl_print_expr(
    settings: &[u8],
    records: &[u8],
    names: &[u8],
    room: &mut [u8],
) -> i64
    ensures { PrintsBits (expr_outcome settings.now records.now names.now room.old) (expr_text settings.now records.now names.now) room.old room.new result }
{
    glsl::glsl_print_expr(settings, records, names, room)
}

#[unsafe(no_mangle)]
pub extern "C" fn glsl_joined(records: &[u8], names: &[u8]) -> i64
    ensures { result ≡ joined_bits (joined_outcome records.now names.now) }
{
    glsl::glsl_joined(records, names)
}
