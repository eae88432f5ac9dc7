// The walk's stack.
#![tactic(auto)]

ghost use Rattle.std.specs.Prelude.{◌≡◌, ◌<◌, ◌≤◌, Option, None, List, [], ◌∷◌, length, drop, get_or};
ghost use Rattle.signs.specs.declared.Sign.{Sign};
ghost use Rattle.joined.specs.declared.stack.TheConstants.{MOST_RECORDS};

use signs::Sign;
use std::marker::Model;

// The most records that are accepted: a stack has room for a sign of each.
pub const MOST_RECORDS: usize = 4096;

// Signs, or none: clauses see them from the top on.
#[derive(Drop)]
pub struct Stack {
    signs: [Option<Sign>; MOST_RECORDS],
    top: usize,
}

impl Model for Stack {
    ghost Value = { List (Option Sign) };

    ghost view = { λ s. drop s.top s.signs };

    ghost invariant = { λ s. s.top ≤ MOST_RECORDS };
}

impl Stack {
    pub fn new() -> Stack
        ensures { result ≡ [] }
    {
        Stack {
            signs: [None; MOST_RECORDS],
            top: MOST_RECORDS,
        }
    }

    // The second, none where there is none.
    pub fn second(&self) -> Option<Sign>
        ensures { result ≡ get_or self.now 1 None }
    {
        self.signs.get(self.top + 1).copied().flatten()
    }

    // Takes k off, or all.
    pub fn take_off(&mut self, k: usize)
        ensures { self.new ≡ drop k self.old }
    {
        self.top += k.min(MOST_RECORDS - self.top);
    }

    pub fn push(&mut self, sign: Option<Sign>)
        requires { length self.old < MOST_RECORDS }
        ensures { self.new ≡ sign ∷ self.old }
    {
        self.top -= 1;
        self.signs[self.top] = sign;
    }
}
