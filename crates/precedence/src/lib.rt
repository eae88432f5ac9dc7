// 000 HasPrecedence: how strongly an expression binds, told by its record's kind and variant. The smaller the number, the stronger.
#![tactic(auto)]

ghost use Rattle.std.specs.Prelude.{◌≡◌, ◌≤◌};
ghost use Rattle.text.specs.Operator.{binary_precedence};
ghost use Rattle.text.specs.Reading.{binary_op_of};
ghost use Rattle.precedence.specs.Precedence.{precedence_of};

use records::kind::Kind;

// HasPrecedence's numbers that are named here or by the printers; the other binary operators are between. (Numbers, as in 000: an enum is no plainer, since `bare below` and `bare up to` are told by one less
// or one more.)
pub const ATOMIC: u8 = 0;

pub const POSTFIX: u8 = 2;

pub const UNARY: u8 = 3;

pub const ADDITIVE: u8 = 5;

pub const TERNARY: u8 = 15;

pub const ASSIGNMENT: u8 = 16;

pub const COMMA: u8 = 17;

// 000 HasPrecedence for BinaryOp, by its number in 01. (An enum of the operators is no plainer: it would be read from the byte by the same list once more.)
#[tactic(auto, unfolding(text::specs::Reading::binary_op_of, text::specs::Operator::binary_op))]
pub fn of_binary_op(v: u8) -> u8
    ensures { (result ≡ binary_precedence (binary_op_of v)) × (1 ≤ result) × (result ≤ 14) }
{
    match v {
        0 => 14,
        1 => 13,
        2 => 12,
        3 => 11,
        4 => 10,
        5 => 9,
        6 => 8,
        7 => 8,
        8 => 7,
        9 => 7,
        10 => 7,
        11 => 7,
        12 => 6,
        13 => 6,
        14 => ADDITIVE,
        15 => ADDITIVE,
        16 => 4,
        17 => 4,
        _ => 4,
    }
}

// 000 HasPrecedence for Expr, promised for every byte as its kind. (Apart from the operators, so that the rest can compile to a look into a constant: docs/SPEED.md.)
pub fn of_expr(kind: u8, v: u8) -> u8
    ensures { result ≡ precedence_of kind v }
{
    let Some(kind) = Kind::of(kind) else {
        return ATOMIC;
    };
    if kind == Kind::Binary {
        return of_binary_op(v);
    }
    match kind {
        Kind::Unary => UNARY,
        Kind::Ternary => TERNARY,
        Kind::Assignment => ASSIGNMENT,
        Kind::Bracket | Kind::FunCall | Kind::Dot | Kind::PostInc | Kind::PostDec => POSTFIX,
        Kind::Comma => COMMA,
        _ => ATOMIC,
    }
}
