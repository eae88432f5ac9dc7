// The decimal text of a number, written straight to its place, and 32 bits as a signed number.
#![tactic(auto)]

ghost use Rattle.std.specs.Prelude.{◌≡◌, ◌+◌, ◌≤◌, ◌<◌, length};
ghost use Rattle.std.proofs.lemmas.List.Edits.{sets};
ghost use Rattle.decimal.specs.Decimal.{decimal, negative, magnitude, signed};
ghost use Rattle.room.specs.Room.{laid};

// How many digits n has, by comparisons alone: it is asked for three times on a number's way into a text. (The library has no logarithm to base 10, and a loop takes
// longer: docs/SPEED.md, "Whole numbers".) Most numbers of a shader have one digit or two.
pub fn width(n: u64) -> usize
    ensures { (result ≡ length (decimal n)) × (result ≤ 20) }
{
    match n {
        0..=9 => 1,
        10..=99 => 2,
        _ => width_of_more(n),
    }
}

// How many digits a number has that has more than two. (A `match` has an arm for every number, so the first begins at 0.)
fn width_of_more(n: u64) -> usize
    requires { 100 ≤ n }
    ensures { (result ≡ length (decimal n)) × (result ≤ 20) }
{
    match n {
        0..=999 => 3,
        1000..=9999 => 4,
        10000..=99999 => 5,
        100000..=999999 => 6,
        1000000..=9999999 => 7,
        10000000..=99999999 => 8,
        100000000..=999999999 => 9,
        1000000000..=9999999999 => 10,
        10000000000..=99999999999 => 11,
        100000000000..=999999999999 => 12,
        1000000000000..=9999999999999 => 13,
        10000000000000..=99999999999999 => 14,
        100000000000000..=999999999999999 => 15,
        1000000000000000..=9999999999999999 => 16,
        10000000000000000..=99999999999999999 => 17,
        100000000000000000..=999999999999999999 => 18,
        1000000000000000000..=9999999999999999999 => 19,
        10000000000000000000..=18446744073709551615 => 20,
    }
}

// The digits of n, of which there are `digits`, from `at` on: each straight to its place, the highest first (02, #104).
fn put_from(room: &mut [u8], at: usize, digits: usize, n: u64)
    requires { (digits ≡ length (decimal n)) × (at + digits ≤ length room.old) }
    ensures { room.new ≡ sets room.old at (decimal n) }
{
    // The most frequent numbers need no power.
    if n < 10 {
        room[at] = b'0' + n as u8;
        return;
    }
    let last = at + digits - 1;
    let mut left = n;
    let mut power = 10u64.pow((digits - 1) as u32);
    // What is left is below ten times the power, so each quotient is one digit.
    for place in at..last {
        room[place] = b'0' + (left / power) as u8;
        left %= power;
        power /= 10;
    }
    room[last] = b'0' + left as u8;
}

// The digits of n, highest first, from `at` on, if all of them fit into the room.
#[tactic(auto, using(room::proofs::Laid::laid_fits, room::proofs::Laid::laid_out))]
pub fn put_digits(room: &mut [u8], at: usize, n: u64)
    ensures { room.new ≡ laid room.old at (decimal n) }
{
    let digits = width(n);
    let end = at.checked_add(digits);
    if end.is_some_and(|end| end <= room.len()) {
        put_from(room, at, digits, n);
    }
}

// Is it below 0, the 32 bits read as a signed number?
pub fn is_negative(a: u32) -> bool
    ensures { result ≡ negative a }
{
    to_i32(a).is_negative()
}

// The 32 bits as a signed number.
pub fn to_i32(a: u32) -> i32
    ensures { result ≡ signed a }
{
    a.cast_signed()
}

// How far the 32 bits, read as a signed number, are from 0: what stands behind the sign.
pub fn magnitude_of(a: u32) -> u64
    ensures { result ≡ magnitude a }
{
    u64::from(to_i32(a).unsigned_abs())
}
