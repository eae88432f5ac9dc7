// The joined question (01, "Calls", as 02, #103 mends it), asked of the records alone: one walk over them from the last to the first, without recursion.
// The walk keeps a stack, its top first: a sign, or none, for each tree that stands behind the record at hand and within its parents. A record takes its
// children's off and puts its own on, so that at a binary operator the second is the right operand's. A unary operator's operand, and what a Dot is of,
// stand right behind it.
#![tactic(auto)]

ghost use Rattle.std.specs.Prelude.{◌≡◌, ◌+◌, ◌≤◌, length, map, Some};
ghost use Rattle.shapes.specs.Shape.{classes};
ghost use Rattle.shapes.specs.Table as Table;
ghost use Rattle.signs.specs.Sign.{byte_of};
ghost use Rattle.joined.specs.Stack as Spec;
ghost use Rattle.joined.specs.Stack.{seen, own_byte};

mod stack;

use records::Record;
use records::kind::Kind;
use shapes::Part;
use signs::Sign;
use stack::{MOST_RECORDS, Stack};

// What an expression is by itself, where the record before it asks: a unary plus or minus, or an IntConst.
#[derive(Clone, Copy, Debug, PartialEq, Eq)]
pub enum ByItself {
    Operator(Sign),
    IntConst,
    Other,
}

// How the text of an expression begins, how strongly it binds, and what it is by itself.
#[derive(Clone, Copy, Debug)]
pub struct Head {
    pub sign: Option<Sign>,
    pub precedence: u8,
    pub own: ByItself,
}

// Below this, what binds as strongly is bare too.
const PAST_UNARY: u8 = precedence::UNARY + 1;

// The sign that an operand begins with where it is bare if it binds below `below`; in parentheses it begins with none.
#[tactic(auto, unfolding(crate::specs::Stack::bare_sign))]
fn bare_sign(operand: Head, below: u8) -> Option<Sign>
    ensures { byte_of result ≡ Spec.bare_sign (seen operand) below }
{
    if operand.precedence < below {
        return operand.sign;
    }
    None
}

// The sign that the text of the expression begins with whose record this is, before another. (What signs::goes_on and own_sign say together; one `match` is faster here. A record of no kind goes
// the way of the other kinds: by one of its own, as `?` has it, the question took a quarter longer.)
fn sign_of(r: Record, next: Head) -> Option<Sign>
    ensures { byte_of result ≡ Spec.sign_of r (seen next) }
{
    match r.kind() {
        Some(Kind::IntConst) => signs::int_sign(r.a),
        Some(Kind::Unary) => signs::unary_sign(r.variant),
        Some(Kind::FunCall) => next.sign,
        _ => bare_sign(next, signs::first_below(r.kind, r.variant)),
    }
}

// What a record is by itself.
fn own_of(r: Record) -> ByItself
    ensures { own_byte result ≡ Spec.own_of r.kind r.variant }
{
    let Some(kind) = r.kind() else {
        return ByItself::Other;
    };
    match kind {
        Kind::IntConst => ByItself::IntConst,
        Kind::Unary => match signs::of_unary(r.variant) {
            Some(op) => ByItself::Operator(op),
            None => ByItself::Other,
        },
        _ => ByItself::Other,
    }
}

fn head_of(r: Record, next: Head) -> Head
    ensures { seen result ≡ Spec.head_of r (seen next) }
{
    Head {
        sign: sign_of(r, next),
        precedence: precedence::of_expr(r.kind, r.variant),
        own: own_of(r),
    }
}

// The sign that an operand begins with under a unary plus or minus: plus over plus and minus over minus are in parentheses.
fn under_sign(operand: Head, op: Sign) -> Option<Sign>
    ensures { byte_of result ≡ Spec.under_sign (seen operand) (byte_of (Some op)) }
{
    if operand.own == ByItself::Operator(op) {
        return None;
    }
    bare_sign(operand, PAST_UNARY)
}

// Is this place joined: a unary plus or minus over `next`, a binary one whose right operand begins with `right`, a Dot over an IntConst?
fn joins(r: Record, next: Head, right: Option<Sign>) -> bool
    ensures { result ≡ Spec.joins_at r (seen next) (byte_of right) }
{
    let Some(kind) = r.kind() else {
        return false;
    };
    match kind {
        Kind::Unary => match signs::of_unary(r.variant) {
            Some(op) => signs::joins(Some(op), under_sign(next, op)),
            None => false,
        },
        Kind::Binary => signs::joins(signs::of_binary(r.variant), right),
        Kind::Dot => matches!(next.own, ByItself::IntConst),
        _ => false,
    }
}

// How many children these parts stand for, in a record that counts n.
fn children_in(parts: &[Part], n: u16) -> usize
    requires { length parts.now ≤ 4 }
    ensures { result ≡ length (classes n (map Table.part_of parts.now)) }
{
    let mut total: usize = 0;
    for part in parts {
        total += part.times(n);
    }
    total
}

// How many children a record has, if its variant is one of its kind's.
fn children(r: Record) -> usize
    ensures { result ≡ Spec.child_count r }
{
    if shapes::last_variant(r.kind) < r.variant {
        return 0;
    }
    children_in(shapes::shape_of(r.kind, r.variant).parts, r.count)
}

// The first n records, from the last to the first.
fn walk(records: &[u8], n: usize) -> bool
    requires { n ≤ MOST_RECORDS }
    ensures { result ≡ (Spec.walk records.now n 0).found }
{
    let mut found = false;
    let mut head = Head {
        sign: None,
        precedence: precedence::ATOMIC,
        own: ByItself::Other,
    };
    let mut stack = Stack::new();
    for i in (0..n).rev() {
        let r = records::record_at(records, i);
        found |= joins(r, head, stack.second());
        head = head_of(r, head);
        stack.take_off(children(r));
        stack.push(bare_sign(head, precedence::ADDITIVE));
    }
    found
}

// Is some place joined? It goes by the records alone, and is meant for accepted ones.
pub fn any_joined(records: &[u8]) -> bool
    ensures { result ≡ Spec.any_joined records.now }
{
    let n = records::whole_records(records);
    n <= MOST_RECORDS && walk(records, n)
}
