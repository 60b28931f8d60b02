// Tests of a node's mode.
ghost use Rattle.std.specs.Prelude.{◌≡◌};
ghost use Rattle.run.specs.State.{is_about, is_sending};

use crate::Mode;

impl Mode {
    pub fn is_about_to_send(self) -> bool
        ensures { result ≡ is_about self }
    {
        self == Mode::AboutToSend
    }

    pub fn is_sending(self) -> bool
        ensures { result ≡ is_sending self }
    {
        self == Mode::Sending
    }
}
