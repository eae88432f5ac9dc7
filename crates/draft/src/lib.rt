// A unit or an expression put into a room by a draft. It knows no refusals: that the records were accepted is asked of the caller, who also says what
// a text that is too long for its room means.
#![tactic(auto)]

ghost use Rattle.std.specs.Prelude.{◌≡◌, ◌≤◌, length};
ghost use Rattle.std.proofs.lemmas.List.Edits.{sets};
ghost use Rattle.leaves.specs.Shown.{ShowsOf};
ghost use Rattle.draft.specs.Root.{root_reader, root_show, text_of, FreeOf, start};
ghost use Rattle.draft.specs.Put.{Puts};

use leaves::Source;
use pen::Pen;
use settings::Settings;

// A draft has 8 bytes for each of the most records that there may be, 4,096: longer texts are rare. It is zeroed at each call, so a tree of up to 512 records
// (6,144 bytes) has a shorter one, likewise of 8 bytes for each.
const SMALL_TREE: usize = 6144;

const SHORT: usize = 4096;

const LONG: usize = 32768;

// What is put. The functions take it, here and in crate glsl, so that each is written and proved once. (An enum and not closures: what is promised speaks of what is put, by the definitions of Root.)
#[derive(Clone, Copy)]
pub enum Root {
    Unit,
    Expr,
}

// The length of a text that is too long for its room.
#[derive(Clone, Copy, Debug, PartialEq, Eq)]
pub struct TooLong {
    pub length: usize,
}

// Where every print starts.
fn start(s: Settings) -> Pen
    ensures { result ≡ start }
{
    Pen {
        at: 0,
        next: 0,
        state: s.fresh_state(),
    }
}

// The printer of what is put.
fn show_root(root: Root, src: &Source, room: &mut [u8], pen: Pen) -> Pen
    ensures { ShowsOf (root_show root src.now.settings) (root_reader root) src.now room.old pen room.new result }
{
    match root {
        Root::Unit => show_unit::show_translation_unit(src, room, pen),
        Root::Expr => show_expr::show_expr(src, room, pen),
    }
}

// A text at the front of a room that is long enough for it.
fn copy_text(room: &mut [u8], text: &[u8])
    requires { length text.now ≤ length room.old }
    ensures { room.new ≡ sets room.old 0 text.now }
{
    room::copy(room, 0, text)
}

// Writes the text into the draft, which also measures it. A text that fits the room is copied there, or written again if it is longer than the draft:
// one that does not fit alters no byte, so nothing can be written into the room before. That no cap of the pen is met is what accepted records and settings
// give.
fn put_by(root: Root, src: &Source, draft: &mut [u8], room: &mut [u8]) -> Result<usize, TooLong>
    requires { FreeOf root src.now }
    ensures { Puts (text_of root src.now) room.old room.new result }
{
    let pen = start(src.settings);
    let drafted = show_root(root, src, draft, pen);
    let length = drafted.at as usize;
    if room.len() < length {
        return Err(TooLong { length });
    }
    if draft.len() < length {
        show_root(root, src, room, pen);
        return Ok(length);
    }
    copy_text(room, &draft[..length]);
    Ok(length)
}

// The same by a draft of N bytes on the stack.
fn put_in<const N: usize>(root: Root, src: &Source, room: &mut [u8]) -> Result<usize, TooLong>
    requires { (N ≤ 32768) × FreeOf root src.now }
    ensures { Puts (text_of root src.now) room.old room.new result }
{
    let mut draft = [0u8; N];
    put_by(root, src, &mut draft, room)
}

// The text in the room, where it fits.
pub fn put(root: Root, src: &Source, room: &mut [u8]) -> Result<usize, TooLong>
    requires { FreeOf root src.now }
    ensures { Puts (text_of root src.now) room.old room.new result }
{
    if src.tree.records.len() <= SMALL_TREE {
        return put_in::<SHORT>(root, src, room);
    }
    put_in::<LONG>(root, src, room)
}
