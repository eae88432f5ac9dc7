// The refusals of the record check, and its tests of a record by itself, in the documents' order. (Crate walk takes all records; specs/Check defines the whole.)
// What is tested goes by the shapes of crate shapes.
#![tactic(auto)]

ghost use Rattle.std.specs.Prelude.{◌≡◌, ◌&&◌, ◌+◌, ◌^◌, ◌≤◌, ◌<◌, leb};
ghost use Rattle.shapes.specs.Class.{takes_variant};
ghost use Rattle.shapes.specs.Shape.{Fields as Held, last_variant};
ghost use Rattle.shapes.specs.Table as Table;
ghost use Rattle.accept.specs.Refusal.{number};
ghost use Rattle.accept.specs.Check as Check;

use records::{Record, Tree};
use shapes::{Allowed, Class, Count, Fields, Shape};
use words::NameSort;

// 01's refusals, and 02's, with their numbers. The check gives all but 1 and 13.
#[derive(Clone, Copy, Debug, PartialEq, Eq)]
pub enum Refusal {
    SettingsOutOfRange = 1,
    RecordsOutOfSize,
    NamesOutOfSize,
    RecordMissing,
    KindNotAllowed,
    TooDeep,
    VariantOutOfRange,
    CountMissing,
    UnusedSet,
    TextBeyond,
    TextMisformed,
    RecordsLeftOver,
    RoomTooSmall,
    ReservedDeclared = 15,
}

// A refusal and its place. What is accepted is answered by the record behind it.
#[derive(Clone, Copy, Debug, PartialEq, Eq)]
pub struct Refused {
    pub refusal: Refusal,
    pub place: usize,
}

impl Refusal {
    // This refusal, at a place.
    pub fn at(self, place: usize) -> Refused
        ensures { result ≡ record { refusal = self; place = place } }
    {
        Refused {
            refusal: self,
            place,
        }
    }
}

// The number of a refusal, 01's or 02's.
impl From<Refusal> for u64 {
    ghost from_gives = { λ x n. (n ≡ number x) × (n ≤ 15) };

    fn from(x: Refusal) -> u64 {
        x as u64
    }
}

// Is the count 0 where there must be one?
fn count_missing(count: Count, n: u16) -> bool
    ensures { result ≡ Check.count_missing (Table.count_of count) n }
{
    match count {
        Count::Unused | Count::Any => false,
        Count::Positive => n == 0,
    }
}

// Is the count not 0, and not used?
fn count_set(count: Count, n: u16) -> bool
    ensures { result ≡ Check.count_set (Table.count_of count) n }
{
    match count {
        Count::Unused => n != 0,
        Count::Any | Count::Positive => false,
    }
}

// Is a or b not 0, and not used?
fn field_set(fields: Fields, a: u32, b: u32) -> bool
    ensures { result ≡ Check.field_set (Table.fields_of fields) a b }
{
    match fields {
        Fields::Empty => (a != 0) | (b != 0),
        Fields::Integer => b != 0,
        Fields::Name | Fields::Declared | Fields::Float => false,
    }
}

// Does a text end beyond the names? The sum of two 32 bits is taken in 64.
fn text_beyond(names: &[u8], fields: Fields, a: u32, b: u32) -> bool
    ensures { result ≡ Check.text_beyond names.now (Table.fields_of fields) a b }
{
    match fields {
        Fields::Empty | Fields::Integer => false,
        _ => names.len() < (a as usize) + (b as usize),
    }
}

// The name of record i: not in its form, or reserved where it is declared. Both by one walk over its bytes.
// (This and the next two answer the record behind i, for which i + 1 must fit. Tried: to answer () and add 1 in `alone`; a record then takes 1 ns of 18 more.) (Put into its two callers, as it was into one: docs/SPEED.md.)
#[inline(always)]
fn name_judged(i: usize, declared: bool, text: &[u8]) -> Result<usize, Refused>
    requires { i + 1 < 2 ^ 64 }
    ensures { result ≡ Check.judged i (Check.text_fault declared Held.name text.now) }
{
    match names::name_sort(text) {
        NameSort::NoName => Err(Refusal::TextMisformed.at(i)),
        NameSort::Ordinary => Ok(i + 1),
        NameSort::Reserved => {
            if declared {
                return Err(Refusal::ReservedDeclared.at(i));
            }
            Ok(i + 1)
        }
    }
}

// The text of record i, in a place that declares names or does not: a name, or a float's that is not in its form.
fn text_judged(i: usize, declares: bool, fields: Fields, text: &[u8]) -> Result<usize, Refused>
    requires { i + 1 < 2 ^ 64 }
    ensures { result ≡ Check.judged i (Check.text_fault declares (Table.fields_of fields) text.now) }
{
    match fields {
        Fields::Name => name_judged(i, declares, text),
        Fields::Declared => name_judged(i, true, text),
        Fields::Float => {
            if words::float_form(text) {
                return Ok(i + 1);
            }
            Err(Refusal::TextMisformed.at(i))
        }
        Fields::Empty | Fields::Integer => Ok(i + 1),
    }
}

// What record i holds, where it must have this shape, in a place that declares names or does not.
fn contents(
    tree: &Tree,
    i: usize,
    declares: bool,
    shape: Shape,
    r: Record,
) -> Result<usize, Refused>
    requires { i + 1 < 2 ^ 64 }
    ensures { result ≡ Check.judged i (Check.first_found (Check.content_faults tree.now.names.now declares (Table.shape_in shape) r)) }
{
    if count_missing(shape.count, r.count) {
        return Err(Refusal::CountMissing.at(i));
    }
    if count_set(shape.count, r.count) | field_set(shape.fields, r.a, r.b) {
        return Err(Refusal::UnusedSet.at(i));
    }
    // one branch for all tests of a text, since most records have none
    if matches!(shape.fields, Fields::Empty | Fields::Integer) {
        return Ok(i + 1);
    }
    if text_beyond(tree.names, shape.fields, r.a, r.b) {
        return Err(Refusal::TextBeyond.at(i));
    }
    text_judged(i, declares, shape.fields, tree.text_of(r))
}

// Is v one of the variants that the place takes, and of those that kind k has?
fn variant_fits(allowed: &Allowed, k: u8, v: u8) -> bool
    ensures { result ≡ takes_variant (Table.allowed_in allowed.now) v && leb v (last_variant k) }
{
    allowed.takes_variant(v) & (v <= shapes::last_variant(k))
}

// Record i by itself, where this class is asked for and `left` levels are left.
#[tactic(auto, unfolding(crate::specs::Check::alone, crate::specs::Check::fault_of))]
pub fn alone(tree: &Tree, i: usize, class: Class, left: usize) -> Result<usize, Refused>
    ensures { result ≡ Check.alone tree.now.records.now tree.now.names.now left (Table.class_of class) i }
{
    if !tree.stands(i) {
        return Err(Refusal::RecordMissing.at(i));
    }
    let r = tree.record_at(i);
    let allowed = class.allowed();
    if !allowed.takes_kind(r.kind) {
        return Err(Refusal::KindNotAllowed.at(i));
    }
    if left == 0 {
        return Err(Refusal::TooDeep.at(i));
    }
    if !variant_fits(allowed, r.kind, r.variant) {
        return Err(Refusal::VariantOutOfRange.at(i));
    }
    let shape = shapes::shape_of(r.kind, r.variant);
    contents(tree, i, allowed.declares, shape, r)
}
