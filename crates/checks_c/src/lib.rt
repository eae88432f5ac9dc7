// The record check as C functions, for the harness that compares it with the oracle's (oracle/harness, `harness check`). A crate is a library or a static library, so
// these stand here and not in crates/checks; each is the function of that name there, and says what that one says.
#![tactic(auto)]

ghost use Rattle.std.specs.Prelude.{◌≡◌};
ghost use Rattle.shapes.specs.Class.{Class};
ghost use Rattle.accept.specs.Check.{check};
ghost use Rattle.checks.specs.Answer.{answer};

// The record check of a unit.
#[unsafe(no_mangle)]
pub extern "C" fn accept_unit(records: &[u8], names: &[u8]) -> i64
    ensures { result ≡ answer (check records.now names.now Class.unit) }
{
    checks::accept_unit(records, names)
}

// The record check of an expression.
#[unsafe(no_mangle)]
pub extern "C" fn accept_expr(records: &[u8], names: &[u8]) -> i64
    ensures { result ≡ answer (check records.now names.now Class.expr) }
{
    checks::accept_expr(records, names)
}
