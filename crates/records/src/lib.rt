// The records of a tree, read from the lent bytes, and the text that a record names.
#![tactic(auto)]

ghost use Rattle.std.specs.Prelude.{◌≡◌, ltb};
ghost use Rattle.records.specs.Record.{record_in, record_count, record_at, part, text_of, name_at};
ghost use Rattle.records.specs.Kind.{kind_of};

pub mod kind;

use kind::Kind;

const RECORD_SIZE: usize = 12;

// A record's fields.
#[derive(Clone, Copy, Debug, Default, PartialEq, Eq)]
pub struct Record {
    pub kind: u8,
    pub variant: u8,
    pub count: u16,
    pub a: u32,
    pub b: u32,
}

// How many whole records there are: bytes behind the last of them count for nothing.
pub fn whole_records(records: &[u8]) -> usize
    ensures { result ≡ record_count records.now }
{
    records.len() / RECORD_SIZE
}

// Does a whole record stand at i?
pub fn stands(records: &[u8], i: usize) -> bool
    ensures { result ≡ ltb i (record_count records.now) }
{
    i < whole_records(records)
}

impl Record {
    // The record that is these bytes.
    fn of(bytes: &[u8; RECORD_SIZE]) -> Record
        ensures { result ≡ record_in bytes.now 0 }
    {
        let [kind, variant, c0, c1, a0, a1, a2, a3, b0, b1, b2, b3] = *bytes;
        Record {
            kind,
            variant,
            count: u16::from_le_bytes([c0, c1]),
            a: u32::from_le_bytes([a0, a1, a2, a3]),
            b: u32::from_le_bytes([b0, b1, b2, b3]),
        }
    }

    // What it is, if its kind is one.
    #[inline(always)]
    pub fn kind(&self) -> Option<Kind>
        ensures { result ≡ kind_of self.now.kind }
    {
        Kind::of(self.kind)
    }
}

// Record i, all 0 where no whole record stands.
pub fn record_at(records: &[u8], i: usize) -> Record
    ensures { result ≡ record_at records.now i }
{
    let (whole, _) = records.as_chunks::<RECORD_SIZE>();
    match whole.get(i) {
        Some(bytes) => Record::of(bytes),
        None => Record::default(),
    }
}

// The kind of record i alone, 0 where none stands: no kind is 0.
pub fn kind_at(records: &[u8], i: usize) -> u8
    ensures { result ≡ (record_at records.now i).kind }
{
    record_at(records, i).kind
}

// The variant of record i alone, 0 where none stands.
pub fn variant_at(records: &[u8], i: usize) -> u8
    ensures { result ≡ (record_at records.now i).variant }
{
    record_at(records, i).variant
}

// The part of the names at offset a, length b: nothing where it ends beyond them. The sum of two 32 bits is taken in 64. (By `as`, here and where a place becomes an index: std has no From for it.)
pub fn part_of<'n>(names: &'n [u8], a: u32, b: u32) -> &'n [u8]
    ensures { result.now ≡ part names.now a b }
{
    let start = a as usize;
    names.get(start..start + b as usize).unwrap_or(&[])
}

// The text of the record at any index, whatever its kind: nothing where no whole record stands there or the text ends beyond the names.
pub fn name<'n>(records: &[u8], names: &'n [u8], i: usize) -> &'n [u8]
    ensures { result.now ≡ name_at records.now names.now i }
{
    let r = record_at(records, i);
    part_of(names, r.a, r.b)
}

// A tree as it is lent: the bytes of its records, and the names that they mention.
#[derive(Clone, Copy, Debug)]
pub struct Tree<'a> {
    pub records: &'a [u8],
    pub names: &'a [u8],
}

impl<'a> Tree<'a> {
    // Does a whole record stand at i?
    pub fn stands(&self, i: usize) -> bool
        ensures { result ≡ ltb i (record_count self.now.records.now) }
    {
        stands(self.records, i)
    }

    // Record i, all 0 where no whole record stands.
    pub fn record_at(&self, i: usize) -> Record
        ensures { result ≡ record_at self.now.records.now i }
    {
        record_at(self.records, i)
    }

    // The kind of record i alone, 0 where none stands.
    pub fn kind_at(&self, i: usize) -> u8
        ensures { result ≡ (record_at self.now.records.now i).kind }
    {
        kind_at(self.records, i)
    }

    // The variant of record i alone, 0 where none stands.
    pub fn variant_at(&self, i: usize) -> u8
        ensures { result ≡ (record_at self.now.records.now i).variant }
    {
        variant_at(self.records, i)
    }

    // What record i is, if a whole record stands there and its kind is one.
    #[inline(always)]
    pub fn kind(&self, i: usize) -> Option<Kind>
        ensures { result ≡ kind_of (record_at self.now.records.now i).kind }
    {
        Kind::of(self.kind_at(i))
    }

    // T of a record: nothing where it ends beyond the names.
    pub fn text_of(&self, r: Record) -> &'a [u8]
        ensures { result.now ≡ text_of self.now.names.now r }
    {
        part_of(self.names, r.a, r.b)
    }
}
