// Replays samples of the oracle's answers about expressions, units, records' names and lent states (oracle/src/sample.rs writes them and has their format): asks the public
// functions again, TIGHT, OPEN and EXPORT too, and compares answers, parts that are handed back, and every byte of the room. Reading is total: what stands beyond a sample's end reads as nothing, and then the answers differ.
#![tactic(auto)]

ghost use Rattle.std.specs.Prelude.{◌≡◌, ◌&&◌, ◌||◌, ◌+◌, ◌*◌, ◌/◌, ◌%◌, eqb, min};
ghost use Rattle.words.specs.Form.{same};
ghost use Rattle.records.specs.Record.{name_at};
ghost use Rattle.settings.specs.Bytes.{settings_bytes};
ghost use Rattle.pen.specs.Sheet.{last_place};
ghost use Rattle.glsl.specs.Printed.{Prints, refusal_number};
ghost use Rattle.glsl.specs.Root.{value, print_outcome, root_text};
ghost use Rattle.glsl.specs.Joined.{joined_number, joined_outcome};
ghost use Rattle.replay.specs.Said.{joined_value, is_unit};

use accept::Refused;
use draft::Root;
use records::{Record, Tree};
use settings::{FormattingState, Settings};
use std::io;
use std::rt::Files;

// The bytes of a record, and of the three records that begin a case.
const RECORD: u32 = 12;

const HEAD: u32 = 36;

// What a room holds before a call.
const BLANK: u8 = 165;

// What a sample asks.
#[derive(Clone, Copy)]
enum Asked {
    Prints(Root),
    Names,
    States,
}

// By the kind of its first record.
impl From<u8> for Asked {
    fn from(kind: u8) -> Asked {
        match kind {
            80 => Asked::Prints(Root::Unit),
            1 => Asked::Names,
            2 => Asked::States,
            _ => Asked::Prints(Root::Expr),
        }
    }
}

// What is called on a state: to consume a newline, or to ask for one.
#[derive(Clone, Copy)]
enum Call {
    ConsumeNewline,
    NewLine { required: bool },
}

// By the kind of a case.
impl From<u8> for Call {
    fn from(kind: u8) -> Call {
        match kind {
            0 => Call::ConsumeNewline,
            2 => Call::NewLine { required: true },
            _ => Call::NewLine { required: false },
        }
    }
}

impl Call {
    // The state that it leaves.
    fn on(self, state: FormattingState) -> FormattingState {
        match self {
            Call::ConsumeNewline => lent::after_consume_newline(state),
            Call::NewLine { required } => lent::after_new_line(state, required),
        }
    }
}

// A state, by its level and its flags.
fn state_of(level: u16, flags: u8) -> FormattingState
    ensures { (result.indentation_level ≡ level) × (result.new_line_pending ≡ eqb (flags % 2) 1) × (result.in_function_definition_statement ≡ eqb (flags / 2) 1) }
{
    FormattingState {
        indentation_level: level,
        new_line_pending: flags % 2 == 1,
        in_function_definition_statement: flags / 2 == 1,
    }
}

// An answer as the sample has it: a refusal's number, 0 for none, and the length or the place beside it. (The numbers of the samples' format, which another program writes.)
#[derive(Clone, Copy)]
struct Said {
    number: u8,
    value: u32,
}

impl Said {
    // Whether it is this answer.
    fn is(self, answer: Result<usize, Refused>) -> bool
        ensures { result ≡ eqb (refusal_number answer) self.number && eqb (value answer) self.value }
    {
        match answer {
            Ok(length) => self.number == 0 && length == self.value as usize,
            Err(why) => {
                u64::from(why.refusal) == u64::from(self.number) && why.place == self.value as usize
            }
        }
    }
}

// Where n bytes from `at` on end, at most the greatest number.
fn end_of(at: u32, n: u32) -> u32
    ensures { result ≡ min (at + n) last_place }
{
    at.saturating_add(n)
}

// A case: the three records that begin it, and the parts behind them.
#[derive(Clone, Copy)]
struct Case<'a> {
    first: Record,
    second: Record,
    third: Record,
    settings: &'a [u8],
    tree: Tree<'a>,
    after: &'a [u8],
}

impl<'a> Case<'a> {
    // The case at a place of a sample, and the place behind it.
    fn at(sample: &'a [u8], place: u32) -> (Case<'a>, u32) {
        let head = records::part_of(sample, place, HEAD);
        let first = records::record_at(head, 0);
        let second = records::record_at(head, 1);
        let settings_at = end_of(place, HEAD);
        let tree_at = end_of(settings_at, first.a);
        let names_at = end_of(tree_at, first.b);
        let after_at = end_of(names_at, second.a);
        let case = Case {
            first,
            second,
            third: records::record_at(head, 2),
            settings: records::part_of(sample, settings_at, first.a),
            tree: Tree {
                records: records::part_of(sample, tree_at, first.b),
                names: records::part_of(sample, names_at, second.a),
            },
            after: records::part_of(sample, after_at, second.b),
        };
        (case, end_of(after_at, second.b))
    }

    // What the print answered.
    fn printed(&self) -> Said {
        Said {
            number: self.first.kind,
            value: self.third.a,
        }
    }

    // The print into a room.
    fn print_into(&self, root: Root, room: &mut [u8]) -> Result<usize, Refused>
        ensures { Prints (print_outcome root self.now.settings.now self.now.tree.records.now self.now.tree.names.now room.old) (root_text root self.now.settings.now self.now.tree.records.now self.now.tree.names.now) room.old room.new result }
    {
        let Tree { records, names } = self.tree;
        match root {
            Root::Unit => glsl::print_unit_into(self.settings, records, names, room),
            Root::Expr => glsl::print_expr_into(self.settings, records, names, room),
        }
    }

    // The print that hands back the written front of the room.
    fn print<'r>(&self, root: Root, room: &'r mut [u8]) -> Result<&'r mut [u8], Refused> {
        let Tree { records, names } = self.tree;
        match root {
            Root::Unit => glsl::print_unit(self.settings, records, names, room),
            Root::Expr => glsl::print_expr(self.settings, records, names, room),
        }
    }

    // Whether the print answers so, and leaves a blank room as it is said to.
    fn prints_so(&self, root: Root, room: &mut [u8]) -> bool {
        room.fill(BLANK);
        let answer = self.print_into(root, room);
        self.printed().is(answer) && words::same(room, self.after)
    }

    // Whether that print hands back the text and no more, or refuses so, and leaves a blank room as it is said to.
    fn hands_back_so(&self, root: Root, room: &mut [u8]) -> bool {
        room.fill(BLANK);
        let said = self.printed();
        let is_so = match self.print(root, &mut *room) {
            Ok(text) => {
                said.number == 0 && words::same(text, records::part_of(self.after, 0, said.value))
            }
            Err(why) => said.is(Err(why)),
        };
        is_so && words::same(room, self.after)
    }

    // Both in the front of a room, as long as what is behind the call.
    fn prints_so_in_front(&self, root: Root, room: &mut [u8]) -> bool {
        match room.get_mut(..self.after.len()) {
            None => false,
            Some(front) => self.prints_so(root, front) && self.hands_back_so(root, front),
        }
    }

    // Whether the joined question is answered so; a unit is not asked about.
    fn joins_so(&self, root: Root) -> bool
        ensures { result ≡ (is_unit root || eqb (joined_number (joined_outcome self.now.tree.records.now self.now.tree.names.now)) self.now.second.kind && eqb (joined_value (joined_outcome self.now.tree.records.now self.now.tree.names.now)) self.now.third.b) }
    {
        let said = Said {
            number: self.second.kind,
            value: self.third.b,
        };
        match root {
            Root::Unit => true,
            Root::Expr => {
                let answer = glsl::joined(self.tree.records, self.tree.names);
                said.is(answer.map(usize::from))
            }
        }
    }

    // Whether the name of the record at an index, which comes in two halves, is so.
    fn names_so(&self) -> bool
        ensures { result ≡ same (name_at self.now.tree.records.now self.now.tree.names.now (self.now.third.a + 4294967296 * self.now.third.b)) self.now.after.now }
    {
        let i = self.third.a as usize + 4294967296 * (self.third.b as usize);
        let name = records::name(self.tree.records, self.tree.names, i);
        words::same(name, self.after)
    }

    // Whether the call leaves the state so.
    fn leaves_so(&self) -> bool {
        let Case { first, second, .. } = *self;
        let state = Call::from(first.kind).on(state_of(first.count, first.variant));
        state == state_of(second.count, second.variant)
    }

    // Whether what is asked is answered as the case says.
    fn agrees(&self, asked: Asked, room: &mut [u8]) -> bool {
        match asked {
            Asked::States => self.leaves_so(),
            Asked::Names => self.names_so(),
            Asked::Prints(root) => self.joins_so(root) && self.prints_so_in_front(root, room),
        }
    }
}

// How many cases the sample says that it has.
fn cases_in(sample: &[u8]) -> u32 {
    records::record_at(sample, 0).a
}

// The number of the first case that differs.
fn first_differing(sample: &[u8], room: &mut [u8]) -> Option<usize> {
    let asked = Asked::from(records::record_at(sample, 0).kind);
    let mut place = RECORD;
    for k in 0..cases_in(sample) as usize {
        let (case, behind) = Case::at(sample, place);
        if !case.agrees(asked, room) {
            return Some(k + 1);
        }
        place = behind;
    }
    None
}

fn report(rt: &impl Print, cases: u32, differing: Option<usize>) -> io::Result<()> {
    match differing {
        None => println!(rt; "{cases} cases, 0 differ"),
        Some(k) => println!(rt; "case {k} differs"),
    }
}

// Replays the sample in a file; nothing stands in one that can't be opened.
fn replay(
    rt: &(impl Files + Print),
    path: &str,
    bytes: &mut [u8],
    room: &mut [u8],
) -> io::Result<()> {
    let sample = input::load(rt, path, bytes).unwrap_or(&[]);
    report(rt, cases_in(sample), first_differing(sample, room))
}

// Whether settings are said by this record.
fn is_record(settings: Settings, record: &[u8]) -> bool
    ensures { result ≡ same (settings_bytes settings) «record».now }
{
    let bytes = settings.to_bytes();
    words::same(&bytes, record)
}

// The documents' records of TIGHT, OPEN and EXPORT, with byte 21.
static CONSTANTS: [[u8; 22]; 3] = [
    [
        0, 0, 0, 0, 0, 0, 0, 0, 0, 0, 0, 0, 0, 0, 0, 0, 0, 0, 0, 0, 0, 0,
    ],
    [
        2, 4, 1, 1, 1, 1, 1, 1, 2, 2, 2, 2, 1, 2, 2, 0, 1, 1, 1, 1, 1, 0,
    ],
    [
        0, 0, 0, 0, 0, 0, 0, 0, 0, 0, 0, 0, 0, 0, 0, 0, 0, 0, 0, 0, 0, 1,
    ],
];

// The place of the first of TIGHT, OPEN and EXPORT that is not the documents' record: there is none, as it is proved.
fn first_other_constant() -> Option<usize>
    ensures { result ≡ None }
{
    [Settings::tight(), Settings::open(), Settings::export()]
        .iter()
        .zip(&CONSTANTS)
        .position(|(settings, bytes)| !is_record(*settings, bytes))
}

// Replays all samples.
fn replay_all(rt: &(impl Files + Print), bytes: &mut [u8], room: &mut [u8]) -> io::Result<()> {
    for path in ["expressions.rec", "units.rec", "names.rec", "states.rec"] {
        replay(rt, path, bytes, room)?;
    }
    Ok(())
}

// The same in two whole arrays: each is as long as its type says, and a proof need not write out a list of so many zeros.
fn replay_in(
    rt: &(impl Files + Print),
    bytes: &mut [u8; 655360],
    room: &mut [u8; 16384],
) -> io::Result<()> {
    replay_all(rt, bytes, room)
}

fn main(rt: HostRuntime) -> io::Result<()> {
    let mut bytes = [0u8; 655360];
    let mut room = [0u8; 16384];
    replay_in(&rt, &mut bytes, &mut room)?;
    report(&rt, 3, first_other_constant().map(|k| k + 1))
}
