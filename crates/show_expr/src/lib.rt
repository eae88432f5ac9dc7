// The printers of expressions and of what they hold: 000 show_type_specifier_non_array to show_function_identifier.
#![tactic(auto)]

ghost use Rattle.std.specs.Prelude.{◌≡◌};
ghost use Rattle.text.specs.Text.{show_expr};
ghost use Rattle.text.specs.Reading as Reading;
ghost use Rattle.leaves.specs.Shown.{ShowsOf};

use leaves::Source;
use pen::Pen;
use settings::Settings;

pub mod show;

// 000 show_expr: an expression by itself is always bare.
pub fn show_expr(src: &Source, room: &mut [u8], pen: Pen) -> Pen
    ensures { ShowsOf show_expr Reading.expr src.now room.old pen room.new result }
{
    show::expr(src, room, pen, show::ANY)
}
