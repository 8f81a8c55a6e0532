// Why a call is refused (01, The calls; 02, h), and the number by which C is told.
#![tactic(auto)]

ghost use Rattle.std.specs.Prelude.{◌≡◌};
ghost use Rattle.refusal.specs.Refusal.{number, told};

// In the order of their numbers. The lowest that holds is given, but at an opening `BadSave` before the rest.
#[derive(Clone, Copy, Debug, PartialEq, Eq)]
pub enum Refusal {
    Shape = 1,
    Unsound,
    NoDevice,
    BadFrame,
    Empty,
    Full,
    NoAbility,
    TooLong,
    Busy,
    BadSave,
}

impl Refusal {
    pub fn number(self) -> u8
        ensures { result ≡ number self }
    {
        self as u8
    }
}

// What C is told of a call that answers its refusal alone: 0 for none.
pub fn told(answer: Result<(), Refusal>) -> u8
    ensures { result ≡ told answer }
{
    match answer {
        Ok(()) => 0,
        Err(refusal) => refusal.number(),
    }
}
