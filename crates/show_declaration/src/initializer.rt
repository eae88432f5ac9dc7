// (Variants and the loop as in show_expr::show, which says why.)
// 000 show_initializer and the list within it, which call each other: at each call 2 * (records left) + rank falls.
ghost use Rattle.std.specs.Prelude.{◌≡◌, true};
ghost use Rattle.text.specs.Tree.{Initializers};
ghost use Rattle.text.specs.Text.{show_initializer, show_initializers};
ghost use Rattle.text.specs.Reading as Reading;
ghost use Rattle.text.specs.Reading.{several};
ghost use Rattle.leaves.specs.Shown.{ShowsOf};

use leaves::Source;
use pen::Pen;
use records::kind::Kind;

// 000 show_initializer.
#[cycle(initializers)]
pub fn show_initializer(src: &Source, room: &mut [u8], pen: Pen) -> Pen
    ensures { ShowsOf show_initializer Reading.initializer src.now room.old pen room.new result }
{
    let Some((r, inside)) = src.enter(pen, Kind::Initializer) else {
        return pen;
    };
    if r.variant == 0 {
        return show_expr::show_expr(src, room, inside);
    }
    let opened = inside.enter_initializer_list(room, src.settings);
    let filled = show_initializers(src, room, opened, r.count);
    filled.end_initializer_list(room, src.settings)
}

// In show_initializer: n initializers.
#[cycle(initializers)]
fn show_initializers(src: &Source, room: &mut [u8], pen: Pen, n: u16) -> Pen
    ensures { ShowsOf (λ is. show_initializers is true) (several n Reading.initializer Initializers.no_initializers Initializers.initializers) src.now room.old pen room.new result }
{
    let mut at = pen;
    for k in 0..n {
        at = leaves::separate(at, src.settings, room, k == 0);
        at = show_initializer(src, room, at);
    }
    at
}
