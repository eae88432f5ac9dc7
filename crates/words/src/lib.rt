// The words that GLSL fixes and a printer writes, and the form of a name and of a float's text, are in specs/. The code: whether a text has the form of a float's.
// (Crate names judges names, by a table of the words.)
#![tactic(auto)]

ghost use Rattle.std.specs.Prelude.{◌≡◌, length};
ghost use Rattle.words.specs.Form as Form;

const LONGEST_FLOAT: usize = 400;

// What a text is as a name (specs/Form, name_sort).
#[derive(Clone, Copy, Debug, PartialEq, Eq)]
pub enum NameSort {
    Ordinary,
    Reserved,
    NoName,
}

#[tactic(auto, unfolding(crate::specs::Letter::digit))]
pub fn is_digit(x: u8) -> bool
    ensures { result ≡ Form.digit x }
{
    x.is_ascii_digit()
}

// Whether two texts are the same.
#[tactic(auto, using(crate::proofs::Search::same_is))]
pub fn same(a: &[u8], b: &[u8]) -> bool
    ensures { result ≡ Form.same a.now b.now }
{
    a == b
}

// How many digits stand in s, up to the first byte that is none.
fn digits_in(s: &[u8]) -> usize
    ensures { result ≡ length (Form.digits s.now) }
{
    s.iter().take_while(|x| is_digit(**x)).count()
}

// Whether digits are a whole part: one or more, and no 0 before others.
#[tactic(auto, using(crate::proofs::Floats::whole_none, crate::proofs::Floats::whole_one, crate::proofs::Floats::whole_more))]
fn is_whole_part(digits: &[u8]) -> bool
    ensures { result ≡ Form.whole_part digits.now }
{
    match digits {
        [] => false,
        [_] => true,
        [first, ..] => *first != b'0',
    }
}

// Whether s is a fraction: one digit or more, the last not 0.
#[tactic(auto, using(crate::proofs::Floats::fraction_none, crate::proofs::Floats::fraction_some))]
fn is_fraction(s: &[u8]) -> bool
    ensures { result ≡ Form.fraction s.now }
{
    match s {
        [] => false,
        [.., last] => digits_in(s) == s.len() && *last != b'0',
    }
}

// Whether s is nothing, or a point and a fraction.
#[tactic(auto, using(crate::proofs::Floats::rest_none, crate::proofs::Floats::rest_some))]
fn is_nothing_or_fraction(s: &[u8]) -> bool
    ensures { result ≡ Form.nothing_or_fraction s.now }
{
    match s {
        [] => true,
        [b'.', fraction @ ..] => is_fraction(fraction),
        _ => false,
    }
}

// Whether s has the form of a float's text. (One that is too long is not looked at: many records may name it.)
#[tactic(auto, using(crate::proofs::Floats::float_long, crate::proofs::Floats::float_parts, crate::proofs::Floats::digits_length))]
pub fn float_form(s: &[u8]) -> bool
    ensures { result ≡ Form.float_form s.now }
{
    if LONGEST_FLOAT < s.len() {
        return false;
    }
    let (whole, rest) = s.split_at(digits_in(s));
    is_whole_part(whole) && is_nothing_or_fraction(rest)
}
