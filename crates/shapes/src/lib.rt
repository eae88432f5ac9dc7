// The shapes of the records, by kind and variant, and what a place allows: document 01's table, as constant rows.
#![tactic(auto)]

ghost use Rattle.std.specs.Prelude.{◌≡◌, ◌≤◌, length};
ghost use Rattle.shapes.specs.Class.{allowed, takes_kind, takes_variant};
ghost use Rattle.shapes.specs.Shape.{last_variant, shape_of};
ghost use Rattle.shapes.specs.Table as Table;

mod rows;

use rows::{ALLOWED, KINDS, PARTS, ROWS};

const UNLISTED: Kind = Kind { last: 0, first: 0 };

// What a place asks for (specs/Class).
#[derive(Clone, Copy, Debug, PartialEq, Eq)]
pub enum Class {
    Expr,
    Callee,
    Type,
    Base,
    Array,
    Dimension,
    Field,
    Identifier,
    ParameterIdentifier,
    Qualifier,
    Spec,
    Precision,
    LayoutId,
    FullType,
    Prototype,
    Parameter,
    Declarators,
    Single,
    Declarator,
    Initializer,
    Block,
    Declaration,
    Compound,
    Statement,
    Condition,
    ForInit,
    External,
    Unit,
}

// The kinds from `low` to `high` and one more, each in the variants from `least` to `most`, and whether a name there is declared.
#[derive(Clone, Copy, Debug, PartialEq, Eq)]
pub struct Allowed {
    pub low: u8,
    pub high: u8,
    pub also: u8,
    pub least: u8,
    pub most: u8,
    pub declares: bool,
}

// What the fields a and b hold: nothing, 32 bits in a, or a text in the form of a name, of one that is declared there, or of a float.
#[derive(Clone, Copy, Debug, PartialEq, Eq)]
pub enum Fields {
    Empty,
    Integer,
    Name,
    Declared,
    Float,
}

// What the count is: 0, any number, or 1 and more.
#[derive(Clone, Copy, Debug, PartialEq, Eq)]
pub enum Count {
    Unused,
    Any,
    Positive,
}

// Children of one class: one of them, or as many as the count says.
#[derive(Clone, Copy, Debug, PartialEq, Eq)]
pub enum Part {
    OneOf(Class),
    Counted(Class),
}

// What the records of a kind and variant hold.
#[derive(Clone, Copy)]
pub struct Shape {
    pub fields: Fields,
    pub count: Count,
    pub parts: &'static [Part],
}

// A shape as it is stored: its parts are those from `first` on up to `end`. (Tried: the parts themselves here. No proof can name a constant that holds slices, and none closed.)
#[derive(Clone, Copy)]
struct Row {
    pub fields: Fields,
    pub count: Count,
    pub first: u8,
    pub end: u8,
}

// Of a kind, its last variant, and the row of its first.
#[derive(Clone, Copy)]
struct Kind {
    pub last: u8,
    pub first: u16,
}

impl Class {
    // What may stand where this is asked for.
    #[tactic(auto, unfolding(crate::specs::Class::allowed))]
    pub fn allowed(self) -> &'static Allowed
        ensures { Table.allowed_in result.now ≡ allowed (Table.class_of self) }
    {
        &ALLOWED[self as usize]
    }
}

impl Allowed {
    // May kind k stand there?
    pub fn takes_kind(&self, k: u8) -> bool
        ensures { result ≡ takes_kind (Table.allowed_in self.now) k }
    {
        (self.low <= k) & (k <= self.high) | (k == self.also)
    }

    // May variant v stand there?
    pub fn takes_variant(&self, v: u8) -> bool
        ensures { result ≡ takes_variant (Table.allowed_in self.now) v }
    {
        (self.least <= v) & (v <= self.most)
    }
}

impl Part {
    // What its children are.
    pub fn class(self) -> Class
        ensures { Table.class_of result ≡ Table.part_class self }
    {
        match self {
            Part::OneOf(class) => class,
            Part::Counted(class) => class,
        }
    }

    // How many children it stands for, in a record that counts n.
    pub fn times(self, n: u16) -> usize
        ensures { result ≡ Table.times self n }
    {
        match self {
            Part::OneOf(_) => 1,
            Part::Counted(_) => usize::from(n),
        }
    }
}

// What is said of kind k: nothing, if it is behind the last.
fn kind_of(k: u8) -> Kind
    ensures { result ≡ Table.kind_at k }
{
    KINDS.get(usize::from(k)).copied().unwrap_or(UNLISTED)
}

// The last variant of kind k.
pub fn last_variant(k: u8) -> u8
    ensures { result ≡ last_variant k }
{
    kind_of(k).last
}

// The row of kind k and variant v.
fn variant_row(k: u8, v: u8) -> Row
    requires { v ≤ last_variant k }
    ensures { result ≡ Table.row_at k v }
{
    ROWS[usize::from(kind_of(k).first) + usize::from(v)]
}

// What the records of kind k and variant v hold.
pub fn shape_of(k: u8, v: u8) -> Shape
    requires { v ≤ last_variant k }
    ensures says { Table.shape_in result ≡ shape_of k v }
    ensures few { length result.parts.now ≤ 4 }
{
    let row = variant_row(k, v);
    Shape {
        fields: row.fields,
        count: row.count,
        parts: &PARTS[usize::from(row.first)..usize::from(row.end)],
    }
}
