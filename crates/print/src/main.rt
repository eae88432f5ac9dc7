// Prints a unit from the files of its folder (01, "Texts to match"): settings.rec, or OPEN where it can't be opened, tree.rec and names.txt. Writes the text, or
// the refusal's number and place. Each file goes into an array that is one byte above its limit, so that a file above it is seen and refused.
#![tactic(auto)]

ghost use Rattle.std.specs.Prelude.{◌≡◌, [], ◌∷◌, ◌++◌, ◌+◌, ◌≤◌, length};
ghost use Rattle.accept.specs.Refusal.{number};
ghost use Rattle.decimal.specs.Decimal.{decimal};
ghost use Rattle.settings.specs.Settings.{OPEN};
ghost use Rattle.text.specs.Whole.{unit_text};
ghost use Rattle.glsl.specs.Printed.{unit_outcome};
ghost use Rattle.print.specs.Told.{refused, told};

use accept::Refused;
use settings::Settings;
use std::io;

// A line that is written part by part. (No `write!`: its contract speaks of what was written where it answers Ok, and of no writer that it does.)
#[derive(Clone, Copy)]
struct Line {
    bytes: [u8; 64],
    length: usize,
    ghost within: { length ≤ 64 },
}

impl Line {
    ghost use Rattle.print.specs.Line.{written};

    fn empty() -> Line
        ensures text { written result ≡ [] }
        ensures short { result.length ≡ 0 }
    {
        Line {
            bytes: [0; 64],
            length: 0,
        }
    }

    // Bytes behind what is written.
    fn add(&mut self, bytes: &[u8])
        requires { self.old.length + length bytes.now ≤ 64 }
        ensures text { written self.new ≡ written self.old ++ bytes.now }
        ensures longer { self.new.length ≡ self.old.length + length bytes.now }
    {
        room::copy(&mut self.bytes, self.length, bytes);
        self.length += bytes.len();
    }

    // The digits of a number.
    fn add_number(&mut self, n: u64)
        requires { self.old.length + 20 ≤ 64 }
        ensures text { written self.new ≡ written self.old ++ decimal n }
        ensures longer { self.new.length ≤ self.old.length + 20 }
    {
        decimal::put_digits(&mut self.bytes, self.length, n);
        self.length += decimal::width(n);
    }

    // What is written.
    fn written(&self) -> &[u8]
        ensures { result.now ≡ written self.now }
    {
        &self.bytes[..self.length]
    }

    // A refusal's line.
    #[tactic(auto, unfolding(crate::specs::Told::refused))]
    fn of(why: Refused) -> Line
        ensures { written result ≡ refused (number why.refusal) why.place }
    {
        let mut line = Line::empty();
        line.add(b"refused ");
        line.add_number(u64::from(why.refusal));
        line.add(b" at ");
        line.add_number(why.place as u64);
        line.add(b"\n");
        line
    }
}

// The record of OPEN, its byte 21 told too.
fn open_record() -> [u8; 22]
    ensures { result ≡ OPEN ++ 0 ∷ [] }
{
    let open = Settings::open();
    open.to_bytes()
}

// What is to be written: the text, which is a part of the room, or the refusal's line, which goes to `line`.
fn answer<'a, 'b>(
    settings: &'b [u8],
    tree: &'b [u8],
    names: &'b [u8],
    room: &'a mut [u8],
    line: &'a mut Line,
) -> &'a [u8]
    ensures { result.now ≡ told (unit_outcome settings.now tree.now names.now room.old) (unit_text settings.now tree.now names.now) }
{
    match glsl::print_unit(settings, tree, names, room) {
        Ok(text) => text,
        Err(why) => {
            *line = Line::of(why);
            line.written()
        }
    }
}

fn main(rt: HostRuntime) -> io::Result<()> {
    let open = open_record();
    let mut settings = [0u8; 23];
    let mut tree = [0u8; 49153];
    let mut names = [0u8; 32769];
    let mut room = [0u8; 65536];
    let mut line = Line::empty();
    let said = answer(
        input::load(&rt, "settings.rec", &mut settings).unwrap_or(&open),
        input::load(&rt, "tree.rec", &mut tree).unwrap_or(&[]),
        input::load(&rt, "names.txt", &mut names).unwrap_or(&[]),
        &mut room,
        &mut line,
    );
    rt.write_all(said)
}
