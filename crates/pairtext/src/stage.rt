// How far a pair's text was read.
ghost use Rattle.std.specs.Prelude.{◌≡◌};
ghost use Rattle.pairtext.specs.Readers.{unit_number, unit_index};

// The line that is due next.
#[derive(Clone, Copy, PartialEq, Eq, Debug)]
pub enum Stage {
    KindDue,
    ThresholdDue,
    SetupDue,
    InspectDue,
    UnitDue,
    GradesDue,
    RowDue,
    PlannedDue,
    ForcedDue,
    DarkDue,
    EndDue,
    // None: the text was read to its end.
    Complete,
}

#[derive(Clone, Copy, PartialEq, Eq, Debug)]
pub enum UnitName {
    One,
    Two,
}

// A method for each of its two numbers: as two From, only the type that is wanted would say which of them is meant.
impl UnitName {
    // Its number in a text.
    pub fn number(self) -> u32
        ensures { result ≡ unit_number self }
    {
        match self {
            UnitName::One => 1,
            UnitName::Two => 2,
        }
    }

    // Its place in a table of both units.
    pub(crate) fn index(self) -> usize
        ensures { result ≡ unit_index self }
    {
        match self {
            UnitName::One => 0,
            UnitName::Two => 1,
        }
    }
}
