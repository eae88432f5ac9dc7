// The state, lent: thin versions of the pen's new_line and consume_newline, which take 000's FormattingState by &mut as 000 does.
#![tactic(auto)]

ghost use Rattle.std.specs.Prelude.{◌≡◌, false};
ghost use Rattle.text.specs.Pen.{pend};
ghost use Rattle.pen.specs.Run.{asked};

use settings::FormattingState;

// A newline only becomes pending.
pub fn new_line(state: &mut FormattingState, required: bool)
    ensures { state.new ≡ asked required state.old }
{
    if required {
        state.new_line_pending = true;
    }
}

pub fn consume_newline(state: &mut FormattingState)
    ensures { state.new ≡ pend false state.old }
{
    state.new_line_pending = false;
}

// Both of a state by value, which is lent for the call: what takes no reference to a struct can call these.
pub fn after_new_line(mut state: FormattingState, required: bool) -> FormattingState
    ensures { result ≡ asked required state }
{
    new_line(&mut state, required);
    state
}

pub fn after_consume_newline(mut state: FormattingState) -> FormattingState
    ensures { result ≡ pend false state }
{
    consume_newline(&mut state);
    state
}
