// The sign that the text of an expression begins with, asked of the records alone: for the joined question (02, #103) and for needed spaces (02, #106).
#![tactic(auto)]

ghost use Rattle.std.specs.Prelude.{◌≡◌, List, ℕ, leb};
ghost use Rattle.text.specs.Operator.{precedence};
ghost use Rattle.text.specs.Joins.{sign, sign_if};
ghost use Rattle.text.specs.Reading.{expr, from};
ghost use Rattle.signs.specs.Sign as Spec;
ghost use Rattle.signs.specs.Sign.{byte_of};

use records::Record;
use records::kind::Kind;

// A sign, where there is one: what a text begins with, or an operator is.
#[derive(Clone, Copy, Debug, PartialEq, Eq)]
pub enum Sign {
    Plus,
    Minus,
}

// Below these, what binds as strongly is bare too.
const PAST_POSTFIX: u8 = precedence::POSTFIX + 1;

const PAST_COMMA: u8 = precedence::COMMA + 1;

// The first operand of a record, whatever byte its kind is, is bare if it binds below this; 0 where a record has none. (A callee is always bare.)
pub fn first_below(kind: u8, v: u8) -> u8
    ensures { result ≡ Spec.first_below kind v }
{
    let Some(kind) = Kind::of(kind) else {
        return 0;
    };
    match kind {
        Kind::Binary => precedence::of_binary_op(v) + 1,
        Kind::Ternary => precedence::TERNARY,
        Kind::Assignment => precedence::ASSIGNMENT,
        Kind::Bracket | Kind::Dot => PAST_POSTFIX,
        Kind::PostInc | Kind::PostDec => precedence::POSTFIX,
        Kind::Comma => PAST_COMMA,
        _ => 0,
    }
}

// The sign that a unary operator begins with, by its number in 01. (No enum here either: as precedence::of_binary_op.)
#[tactic(auto, unfolding(crate::specs::Sign::unary_sign_of))]
pub fn unary_sign(v: u8) -> Option<Sign>
    ensures { byte_of result ≡ Spec.unary_sign_of v }
{
    match v {
        0 => Some(Sign::Plus),
        1 => Some(Sign::Minus),
        2 => Some(Sign::Plus),
        3 => Some(Sign::Minus),
        _ => None,
    }
}

// The sign of a whole number, by its 32 bits.
#[tactic(auto, unfolding(crate::specs::Sign::int_sign))]
pub fn int_sign(a: u32) -> Option<Sign>
    ensures { byte_of result ≡ Spec.int_sign a }
{
    decimal::is_negative(a).then_some(Sign::Minus)
}

// The sign that an operator is, by its variant and those of plus and minus; all others are none, ++ and -- too.
#[tactic(auto, unfolding(crate::specs::Sign::plus_or_minus))]
fn plus_or_minus(v: u8, plus: u8, minus: u8) -> Option<Sign>
    ensures { byte_of result ≡ Spec.plus_or_minus v plus minus }
{
    if v == plus {
        return Some(Sign::Plus);
    }
    (v == minus).then_some(Sign::Minus)
}

// Of unary operators plus is variant 2, minus 3. (Operators are their numbers in document 01: precedence::of_binary_op says why.)
pub fn of_unary(v: u8) -> Option<Sign>
    ensures { byte_of result ≡ Spec.of_unary v }
{
    plus_or_minus(v, 2, 3)
}

// Of binary ones 14 and 15.
pub fn of_binary(v: u8) -> Option<Sign>
    ensures { byte_of result ≡ Spec.of_binary v }
{
    plus_or_minus(v, 14, 15)
}

// Does an operator that is this sign, or none, join an operand that begins with `sign`?
#[tactic(auto, unfolding(crate::specs::Sign::joins_with))]
pub fn joins(op: Option<Sign>, sign: Option<Sign>) -> bool
    ensures { result ≡ Spec.joins_with (byte_of op) (byte_of sign) }
{
    op.is_some() & (op == sign)
}

// The same of signs by their bytes, 0 for none. (Kept as it was beside `joins`: docs/DECISIONS.md, 98, names it, with its bytes.)
pub fn joins_with(op: u8, sign: u8) -> bool
    ensures { result ≡ Spec.joins_with op sign }
{
    (op != 0) & (op == sign)
}

// The sign of a record by itself.
fn own_sign(r: Record) -> Option<Sign>
    ensures { byte_of result ≡ Spec.own_sign r }
{
    match r.kind()? {
        Kind::IntConst => int_sign(r.a),
        Kind::Unary => unary_sign(r.variant),
        _ => None,
    }
}

// Does its text begin with that of what stands behind it, which binds so strongly?
fn goes_on(r: Record, next: u8) -> bool
    ensures { result ≡ Spec.goes_on r next }
{
    r.kind() == Some(Kind::FunCall) || next < first_below(r.kind, r.variant)
}

// The sign that the text of the expression at record `start` begins with: its first operands are followed as long as they are bare. No record is followed for two operators (a unary one ends
// the way, and a right operand is nobody's first), so all questions of a text together take at most a step for each record.
fn first_sign(records: &[u8], start: usize) -> Option<Sign>
    ensures { (names : List ℕ) → byte_of result ≡ sign (expr (from records.now names start)).tree }
{
    for i in start..records::whole_records(records) {
        let r = records::record_at(records, i);
        let next = records::record_at(records, i + 1);
        if !goes_on(r, precedence::of_expr(next.kind, next.variant)) {
            return own_sign(r);
        }
    }
    None
}

// Does an operator that is this sign, or none, join the expression at record i, which is bare if it binds at `most` or more strongly?
pub fn joins_at(records: &[u8], i: usize, op: Option<Sign>, most: u8) -> bool
    ensures { (names : List ℕ) → let e = (expr (from records.now names i)).tree in result ≡ Spec.joins_with (byte_of op) (sign_if (leb (precedence e) most) (sign e)) }
{
    if op.is_none() {
        return false;
    }
    let next = records::record_at(records, i);
    precedence::of_expr(next.kind, next.variant) <= most && joins(op, first_sign(records, i))
}
