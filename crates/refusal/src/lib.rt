// The refusals of documents 01 and 02 by name, each with the number that they give it: what a check inside the library answers, and what a public call's answer has as `number`.
#![tactic(auto)]

ghost use Rattle.std.specs.Prelude.{◌≡◌};
ghost use Rattle.refusal.specs.Number.{number_of};

// `Full` refuses nothing that was asked: it says that more rows exist than the window holds.
#[derive(Clone, Copy, PartialEq, Eq)]
pub enum Refusal {
    BadArity = 1,
    BadCapacity = 2,
    OutsidePool = 3,
    BadLength = 4,
    NoRoom = 5,
    Damaged = 6,
    BadCursor = 7,
    BadOrder = 8,
    BadAtoms = 9,
    BadList = 10,
    FreeVariable = 11,
    Full = 12,
    NotAFile = 13,
    LongText = 14,
    MixedKinds = 15,
    PartRows = 16,
    OtherShape = 17,
}

impl Refusal {
    // Never 0, which stands for no refusal.
    pub fn number(self) -> u64
        ensures { result ≡ number_of self }
    {
        self as u64
    }
}
