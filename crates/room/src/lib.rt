// Bytes in a lent room: laid all or not at all. (A room and a place go side by side: the pen, which goes by value, has the place, and lends the room on. A struct of both
// would be made anew for each token, and is no plainer. `copy` and `fill` take what is known to fit, as docs/DECISIONS.md has it, 21.)
#![tactic(auto)]

ghost use Rattle.std.specs.Prelude.{◌≡◌, [], ◌∷◌, ◌++◌, ◌+◌, ◌≤◌, ◌<◌, length, replicate, leb};
ghost use Rattle.std.proofs.lemmas.List.Edits.{sets};
ghost use Rattle.room.specs.Room.{laid};

// How many bytes are few: the loop over them has this constant length, so that it compiles to none.
const FEW: usize = 8;

// One byte, if it fits. (By `get_mut` it was tried, and the proof didn't close: what is written through it the library's contract does not tell.)
#[tactic(auto, using(crate::proofs::Loops::laid_one, crate::proofs::Loops::laid_none))]
pub fn store(room: &mut [u8], at: u32, byte: u8)
    ensures { room.new ≡ laid room.old at (byte ∷ []) }
{
    let place = at as usize;
    if place < room.len() {
        room[place] = byte;
    }
}

// Whether n bytes from `at` on fit into a room of `size`.
pub fn fits(size: usize, at: u32, n: usize) -> bool
    ensures { result ≡ leb (at + n) size }
{
    (at as usize).checked_add(n).is_some_and(|end| end <= size)
}

// The bytes of `src` from `at` on, where they are few and known to fit: the last is stored again and again, instead of a branch on the length, which cannot be
// foreseen.
fn copy_few(room: &mut [u8], at: usize, src: &[u8])
    requires { (at + length src.now ≤ length room.old) × (0 < length src.now) × (length src.now ≤ 8) }
    ensures { room.new ≡ sets room.old at src.now }
{
    let last = src.len() - 1;
    for i in 0..FEW {
        let k = i.min(last);
        room[at + k] = src[k];
    }
}

// The bytes of `src` from `at` on, where they are known to fit. (A loop, which compiles to `memcpy`: `copy_from_slice` becomes `memmove`, a name that libglsl.a would need besides.)
fn copy_many(room: &mut [u8], at: usize, src: &[u8])
    requires { at + length src.now ≤ length room.old }
    ensures { room.new ≡ sets room.old at src.now }
{
    for j in 0..src.len() {
        room[at + j] = src[j];
    }
}

// The bytes of `src` from `at` on, where they are known to fit. Most tokens have few. (This and `lay` are put into their callers: docs/SPEED.md, "The look back".)
#[inline(always)]
pub fn copy(room: &mut [u8], at: usize, src: &[u8])
    requires { at + length src.now ≤ length room.old }
    ensures { room.new ≡ sets room.old at src.now }
{
    let n = src.len();
    match n {
        0 => {}
        1..=FEW => copy_few(room, at, src),
        _ => copy_many(room, at, src),
    }
}

// n times a byte from `at` on, where they are known to fit.
#[tactic(auto, using(crate::proofs::Loops::put_there))]
pub fn fill(room: &mut [u8], at: usize, byte: u8, n: usize)
    requires { at + n ≤ length room.old }
    ensures { room.new ≡ sets room.old at (replicate n byte) }
{
    room[at..at + n].fill(byte);
}

// The bytes of `src`, if they fit.
#[inline(always)]
#[tactic(auto, using(crate::proofs::Laid::laid_fits, crate::proofs::Laid::laid_out))]
pub fn lay(room: &mut [u8], at: u32, src: &[u8])
    ensures { room.new ≡ laid room.old at src.now }
{
    if fits(room.len(), at, src.len()) {
        copy(room, at as usize, src);
    }
}

// n times a byte, if they fit.
pub fn lay_run(room: &mut [u8], at: u32, byte: u8, n: usize)
    ensures { room.new ≡ laid room.old at (replicate n byte) }
{
    if fits(room.len(), at, n) {
        fill(room, at as usize, byte, n);
    }
}

// Whether n and then m bytes from `at` on fit into a room of `size`: n + m need not fit a number.
pub fn both_fit(size: usize, at: u32, n: usize, m: usize) -> bool
    ensures { result ≡ leb (at + (n + m)) size }
{
    n.checked_add(m).is_some_and(|both| fits(size, at, both))
}

// Two parts of one token, if both fit.
pub fn lay_two(room: &mut [u8], at: u32, front: &[u8], back: &[u8])
    ensures { room.new ≡ laid room.old at (front.now ++ back.now) }
{
    if both_fit(room.len(), at, front.len(), back.len()) {
        let place = at as usize;
        copy(room, place, front);
        copy(room, place + front.len(), back);
    }
}
