// What a text is as a name: an ordinary one, one that GLSL keeps for itself, or none (a fixed word is none). The table of words also tells a name's bytes from
// others. (That a text has a byte, five inner functions ask. A type that says so would be made of a slice before each call, and is no plainer.)
#![tactic(auto)]

ghost use Rattle.std.specs.Prelude.{◌≡◌, true, ◌+◌, ◌<◌, ◌≤◌, length, take, drop};
ghost use Rattle.words.specs.Form as Form;
ghost use Rattle.words.specs.Keyword.{fixed_words};
ghost use Rattle.word_table.specs.Slot.{byte_or_last, short_sum, long_sum, slot};
ghost use Rattle.word_table.specs.Table as Table;

use word_table::rows::{FLAWS, SLOTS};
use words::NameSort;

// How many bytes of a name are looked at in one loop, whose length is constant, so that it compiles to no loop. A text that has no more is short.
const AT_ONCE: usize = 8;

const LONGEST_NAME: usize = 255;

// The byte i of s, or its last.
fn byte_or_last(s: &[u8], i: usize) -> u8
    requires { 0 < length s.now }
    ensures { result ≡ byte_or_last s.now i }
{
    s[i.min(s.len() - 1)]
}

// 0 for a byte that a name may have, 1 for any other, as the table has it. (To compare it with the bounds of letters and digits takes twice as long.)
fn flaws_of(x: u8) -> u8
    ensures { (result ≡ Table.flaw x) × (result ≤ 1) }
{
    word_table::table()[FLAWS + usize::from(x)]
}

// Whether all bytes are a name's, where they are few: the last is looked at again and again instead of a branch on the length.
fn few_name_bytes(s: &[u8]) -> bool
    requires { (0 < length s.now) × (length s.now ≤ 8) }
    ensures { result ≡ Form.all Form.name_byte s.now }
{
    let mut flaws: u8 = 0;
    for i in 0..AT_ONCE {
        flaws += flaws_of(byte_or_last(s, i));
    }
    flaws == 0
}

// Whether the 8 bytes from `start` on are a name's.
fn next_name_bytes(s: &[u8], start: usize) -> bool
    requires { start + 8 ≤ length s.now }
    ensures { result ≡ Form.all Form.name_byte (take 8 (drop start s.now)) }
{
    let mut flaws: u8 = 0;
    for i in 0..AT_ONCE {
        flaws += flaws_of(s[start + i]);
    }
    flaws == 0
}

// No early return: a name is short, and a branch costs more than it saves. The last 8 bytes may be looked at twice.
fn all_name_bytes(s: &[u8]) -> bool
    requires { 0 < length s.now }
    ensures { result ≡ Form.all Form.name_byte s.now }
{
    let n = s.len();
    if n <= AT_ONCE {
        return few_name_bytes(s);
    }
    let mut ok = true;
    for i in (0..n - AT_ONCE).step_by(AT_ONCE) {
        ok &= next_name_bytes(s, i);
    }
    ok & next_name_bytes(s, n - AT_ONCE)
}

// What the slot of a short text goes by.
fn short_sum(s: &[u8]) -> usize
    requires { 0 < length s.now }
    ensures { result ≡ short_sum s.now }
{
    let byte = |i| usize::from(byte_or_last(s, i));
    16 * usize::from(s[0]) + byte(3) + (2 * byte(4) + 4 * byte(5)) + (32 * byte(6) + 8 * byte(7))
}

// The same of a long text.
fn long_sum(s: &[u8]) -> usize
    requires { 8 < length s.now }
    ensures { result ≡ long_sum s.now }
{
    let n = s.len();
    let front = usize::from(s[0]) + 8 * usize::from(s[1]) + usize::from(s[7]);
    let back = 8 * usize::from(s[n - 7]) + 64 * usize::from(s[n - 2]);
    front + back + 204
}

// By the length as `all_name_bytes` has it, and by bytes that it looks at: what was loaded there need not be loaded again.
fn slot_of(s: &[u8]) -> usize
    requires { 0 < length s.now }
    ensures { result ≡ slot s.now }
{
    if s.len() <= AT_ONCE {
        short_sum(s) % 512
    } else {
        long_sum(s) % 512
    }
}

// Whether s is a fixed word. Only the word of its slot is compared.
pub fn is_fixed_word(s: &[u8]) -> bool
    ensures { result ≡ Form.one_of fixed_words s.now }
{
    if s.len() < 2 {
        return false;
    }
    let k = word_table::table()[SLOTS + slot_of(s)];
    word_table::row(usize::from(k)) == s
}

// Whether s has the form of a name.
fn name_form(s: &[u8]) -> bool
    ensures { result ≡ Form.name_form s.now }
{
    let [first, ..] = s else {
        return false;
    };
    s.len() <= LONGEST_NAME && !words::is_digit(*first) && all_name_bytes(s) && !is_fixed_word(s)
}

// Whether s begins with gl_. For most texts the first byte tells.
#[tactic(auto, using(crate::proofs::Reserved::too_short, crate::proofs::Reserved::reserved_is))]
fn is_reserved(s: &[u8]) -> bool
    ensures { result ≡ Form.reserved s.now }
{
    matches!(s, [b'g', b'l', b'_', ..])
}

// Whether all bytes are a name's, one after the other. (`all_name_bytes` is compiled into its one caller; a second one would cost all names a call.)
fn name_bytes_one_by_one(s: &[u8]) -> bool
    ensures { result ≡ Form.all Form.name_byte s.now }
{
    s.iter().all(|x| flaws_of(*x) == 0)
}

// What s is as a name, where it begins with gl_, as no fixed word does.
fn reserved_sort(s: &[u8]) -> NameSort
    requires { Form.reserved s.now ≡ true }
    ensures { result ≡ Form.name_sort s.now }
{
    if s.len() <= LONGEST_NAME && name_bytes_one_by_one(s) {
        NameSort::Reserved
    } else {
        NameSort::NoName
    }
}

// What s is as a name. What begins with gl_ is told first and apart: so it costs other names least (docs/SPEED.md, "Reserved names"). (Put into its callers: docs/SPEED.md, "The look back".)
#[inline(always)]
pub fn name_sort(s: &[u8]) -> NameSort
    ensures { result ≡ Form.name_sort s.now }
{
    if is_reserved(s) {
        reserved_sort(s)
    } else if name_form(s) {
        NameSort::Ordinary
    } else {
        NameSort::NoName
    }
}

// The same. It stays since docs/DECISIONS.md names it (21): once `name_sort` alone was lent the table.
pub fn judge_name(s: &[u8]) -> NameSort
    ensures { result ≡ Form.name_sort s.now }
{
    name_sort(s)
}
