// A state with some of its values changed: the code of device's specs/Change.antt.
ghost use Rattle.std.specs.Prelude.{◌≡◌};
ghost use Rattle.device.specs.Change.{listening, talking, placed, serving, noting, counting, remoting, enabling};
ghost use Rattle.device.specs.Change.{assigning};
ghost use Rattle.device.specs.declared.Device.{Device};
ghost use Rattle.state.specs.State.{with};

use crate::State;

impl State {
    pub fn listening(mut self, listener: u8) -> Self
        ensures { (d : Device) → with d result ≡ listening (with d self) listener }
    {
        self.listener = listener;
        self
    }

    // The bytes that speak of a reply under way go to zero with it.
    pub fn talking(mut self, talker: u8) -> Self
        ensures { (d : Device) → with d result ≡ talking (with d self) talker }
    {
        self.talker = talker;
        self.noted = 0;
        self.last = 0;
        self.replied = 0;
        self
    }

    pub fn roles(mut self, listener: u8, talker: u8) -> Self
        ensures { (d : Device) → with d result ≡ talking (listening (with d self) listener) talker }
    {
        self.listener = listener;
        self.talking(talker)
    }

    pub fn placed(mut self, address: u8, configured: u8) -> Self
        ensures { (d : Device) → with d result ≡ placed (with d self) address configured }
    {
        self.address = address;
        self.configured = configured;
        self
    }

    pub fn serving(mut self, service: u8) -> Self
        ensures { (d : Device) → with d result ≡ serving (with d self) service }
    {
        self.service = service;
        self
    }

    pub fn noting(mut self) -> Self
        ensures { (d : Device) → with d result ≡ noting (with d self) }
    {
        self.noted = 1;
        self
    }

    pub fn counting(mut self, last: u16, sent: u8, replied: u8) -> Self
        ensures { (d : Device) → with d result ≡ counting (with d self) last sent replied }
    {
        self.last = last;
        self.sent = sent;
        self.replied = replied;
        self
    }

    pub fn remoting(mut self, remote: u8) -> Self
        ensures { (d : Device) → with d result ≡ remoting (with d self) remote }
    {
        self.remote = remote;
        self
    }

    pub fn enabling(mut self, enabled: u8) -> Self
        ensures { (d : Device) → with d result ≡ enabling (with d self) enabled }
    {
        self.enabled = enabled;
        self
    }

    pub fn assigning(mut self, assigned: u8) -> Self
        ensures { (d : Device) → with d result ≡ assigning (with d self) assigned }
    {
        self.assigned = assigned;
        self
    }
}
