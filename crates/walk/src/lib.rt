// The record check: whatever bytes come, they are the tree that a root asks for, or there is one numbered refusal at one place.
// Crate accept tests a record by itself; here the records are walked, in preorder. Both go by the shapes of crate shapes.
#![tactic(auto)]

ghost use Rattle.std.specs.Prelude.{◌≡◌};
ghost use Rattle.shapes.specs.Class.{Class as Asked};
ghost use Rattle.shapes.specs.Table as Table;
ghost use Rattle.accept.specs.Check as Check;

use accept::{Refusal, Refused};
use records::Tree;
use shapes::Class;

const DEEPEST: usize = 200;

const RECORD: usize = 12;

const MOST_RECORD_BYTES: usize = 49152;

const MOST_NAME_BYTES: usize = 32768;

// The tree whose root is record i.
#[cycle(node_run)]
fn node(tree: &Tree, i: usize, class: Class, left: usize) -> Result<usize, Refused>
    ensures { result ≡ Check.node tree.now.records.now tree.now.names.now left (Table.class_of class) i }
{
    let mut at = accept::alone(tree, i, class, left)?;
    let r = tree.record_at(i);
    let shape = shapes::shape_of(r.kind, r.variant);
    for part in shape.parts {
        at = run(tree, at, part.class(), part.times(r.count), left - 1)?;
    }
    Ok(at)
}

// n trees of a class, one behind the other.
#[cycle(node_run)]
fn run(tree: &Tree, i: usize, class: Class, n: usize, left: usize) -> Result<usize, Refused>
    ensures { result ≡ Check.nodes tree.now.records.now tree.now.names.now left (Table.class_of class) n i }
{
    let mut at = i;
    for _ in 0..n {
        at = node(tree, at, class, left)?;
    }
    Ok(at)
}

// Are the records none, not whole, or too many?
fn records_out_of_size(records: &[u8]) -> bool
    ensures { result ≡ Check.records_out_of_size records.now }
{
    let n = records.len();
    (n == 0) | (n % RECORD != 0) | (MOST_RECORD_BYTES < n)
}

// The whole, for a root of this class.
#[tactic(auto, unfolding(accept::specs::Check::check))]
fn check(tree: &Tree, class: Class) -> Result<usize, Refused>
    ensures { result ≡ Check.check tree.now.records.now tree.now.names.now (Table.class_of class) }
{
    if records_out_of_size(tree.records) {
        return Err(Refusal::RecordsOutOfSize.at(0));
    }
    if MOST_NAME_BYTES < tree.names.len() {
        return Err(Refusal::NamesOutOfSize.at(0));
    }
    let next = node(tree, 0, class, DEEPEST)?;
    if next == records::whole_records(tree.records) {
        return Ok(next);
    }
    Err(Refusal::RecordsLeftOver.at(next))
}

// Are the records a unit? Its root is of kind 80. (The two roots by name; what they have in common is `check`.)
pub fn check_unit(tree: &Tree) -> Result<usize, Refused>
    ensures { result ≡ Check.check tree.now.records.now tree.now.names.now Asked.unit }
{
    check(tree, Class::Unit)
}

// Are the records an expression? Its root is of kind 1 to 16.
pub fn check_expr(tree: &Tree) -> Result<usize, Refused>
    ensures { result ≡ Check.check tree.now.records.now tree.now.names.now Asked.expr }
{
    check(tree, Class::Expr)
}
