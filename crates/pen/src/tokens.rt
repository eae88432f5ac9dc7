// What the leaf writers need besides the room: the place behind a token, a number with its suffix, a point in a text.
ghost use Rattle.std.specs.Prelude.{◌≡◌, ◌++◌, ◌+◌, ◌*◌, min};
ghost use Rattle.room.specs.Room.{laid};
ghost use Rattle.decimal.specs.Decimal.{decimal};
ghost use Rattle.text.specs.Token.{has, point};
ghost use Rattle.pen.specs.Sheet.{last_place};

// n bytes on. The place stops at the last of 32 bits, which no text of ours reaches.
pub fn advanced(at: u32, n: usize) -> u32
    ensures { result ≡ min (at + n) last_place }
{
    at.saturating_add(u32::try_from(n).unwrap_or(u32::MAX))
}

// The digits of n and what stands behind them, if both fit.
pub fn lay_number(room: &mut [u8], at: u32, n: u64, back: &[u8])
    ensures { room.new ≡ laid room.old at (decimal n ++ back.now) }
{
    let digits = decimal::width(n);
    if room::both_fit(room.len(), at, digits, back.len()) {
        let place = at as usize;
        decimal::put_digits(room, place, n);
        room::copy(room, place + digits, back);
    }
}

// Whether a point stands in it.
pub fn has_point(text: &[u8]) -> bool
    ensures { result ≡ has point text.now }
{
    text.contains(&b'.')
}

// The characters of an indent.
pub fn times(count: u8, levels: u16) -> usize
    ensures { result ≡ count * levels }
{
    usize::from(count) * usize::from(levels)
}
