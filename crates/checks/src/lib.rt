// The record check as the functions of C that crates/checks_c exports, for the harness that compares it with the oracle's (oracle/harness, `harness check`). They are
// none of document 01's calls: the numbers of a refusal's answer are.
#![tactic(auto)]

ghost use Rattle.std.specs.Prelude.{◌≡◌, ◌+◌, ◌*◌, ◌^◌, ◌<◌};
ghost use Rattle.shapes.specs.Class.{Class};
ghost use Rattle.accept.specs.Refusal.{number, checked_place};
ghost use Rattle.accept.specs.Check.{check};
ghost use Rattle.checks.specs.Answer.{refusal_answer, answer};

use accept::Refused;
use records::Tree;

// The sum of the refusal's number times 2^32 and its place.
fn sum_of(r: Refused) -> u64
    requires { r.place < 2 ^ 32 }
    ensures { (result ≡ number r.refusal * 4294967296 + r.place) × (result < 2 ^ 63) }
{
    u64::from(r.refusal) * 4294967296 + (r.place as u64)
}

// Minus that sum. (That a place has 32 bits is asked here and by the three that call it; as a type it would be made anew at each answer.)
pub fn refusal_answer(r: Refused) -> i64
    requires { r.place < 2 ^ 32 }
    ensures { result ≡ refusal_answer r.refusal r.place }
{
    -(sum_of(r) as i64)
}

// The check's answer: how many records there are, or the refusal.
fn answer_of(o: Result<usize, Refused>) -> i64
    requires { checked_place o < 2 ^ 32 }
    ensures { result ≡ answer o }
{
    match o {
        Ok(count) => count as i64,
        Err(r) => refusal_answer(r),
    }
}

// The record check of a unit, and of an expression: the two functions that checks_c exports.
pub fn accept_unit(records: &[u8], names: &[u8]) -> i64
    ensures { result ≡ answer (check records.now names.now Class.unit) }
{
    answer_of(walk::check_unit(&Tree { records, names }))
}

// The record check of an expression.
pub fn accept_expr(records: &[u8], names: &[u8]) -> i64
    ensures { result ≡ answer (check records.now names.now Class.expr) }
{
    answer_of(walk::check_expr(&Tree { records, names }))
}
