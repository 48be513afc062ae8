// Why a question is refused, and the number that answers carry for it.
#![tactic(auto)]

ghost use Rattle.std.specs.Prelude.{◌≡◌};
ghost use Rattle.refusals.specs.Refusal.{number_of};

// The reasons, by the numbers of answers; docs/refusals.txt tells each in words, in the order in which they are judged.
#[derive(Clone, Copy, PartialEq, Eq)]
pub enum Refusal {
    Carrier = 1,
    Identity = 2,
    NarrowbandPorts = 3,
    CellPorts = 4,
    ControlRegion = 5,
    Sib1Schedule = 6,
    BadBitmap = 7,
    EmptyBitmap = 8,
    LateSubframe = 9,
    LargeField = 10,
    SubcarrierField = 11,
    Repetitions = 12,
    Mcs = 13,
    NoSuchPlace = 14,
    Length = 15,
    Level = 16,
    TwoPorts = 17,
    NeverUsable = 18,
    WindowsNotListed = 19,
    NeverFree = 20,
    MessagesNotListed = 21,
    ShortPeriod = 22,
    LateOffset = 23,
    PortsDiffer = 24,
    NoBroadcast = 25,
}

impl Refusal {
    // The number that answers carry.
    pub fn number(self) -> u64
        ensures { result ≡ number_of self }
    {
        self as u64
    }
}
