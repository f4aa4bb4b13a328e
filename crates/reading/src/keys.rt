// The keys of the lines.
ghost use Rattle.std.specs.Prelude.{◌≡◌};
ghost use Rattle.reading.specs.Keys.{name_of, Names};

#[derive(Clone, Copy, PartialEq, Eq, Debug)]
pub enum Key {
    Kind,
    Parts,
    Threshold,
    Setup,
    Alarm,
    Part,
    Life,
    Hazard,
    Surplus,
    Dark,
    Arc,
    Inspect,
    Unit,
    Grades,
    Row,
    Planned,
    Forced,
    End,
    Tariff,
    Sweeps,
    // None of these: it is matched with the stage as the others are, so that any text in front of an equals sign is some key.
    Other,
}

// All keys that have a name.
const NAMED_KEYS: [Key; 20] = [
    Key::Kind,
    Key::Parts,
    Key::Threshold,
    Key::Setup,
    Key::Alarm,
    Key::Part,
    Key::Life,
    Key::Hazard,
    Key::Surplus,
    Key::Dark,
    Key::Arc,
    Key::Inspect,
    Key::Unit,
    Key::Grades,
    Key::Row,
    Key::Planned,
    Key::Forced,
    Key::End,
    Key::Tariff,
    Key::Sweeps,
];

impl Key {
    // What stands before the equals sign of a line with this key; nothing for no key.
    pub fn name(self) -> &'static [u8]
        ensures { result.now ≡ name_of self }
    {
        match self {
            Key::Kind => b"kind",
            Key::Parts => b"parts",
            Key::Threshold => b"threshold",
            Key::Setup => b"setup",
            Key::Alarm => b"alarm",
            Key::Part => b"part",
            Key::Life => b"life",
            Key::Hazard => b"hazard",
            Key::Surplus => b"surplus",
            Key::Dark => b"dark",
            Key::Arc => b"arc",
            Key::Inspect => b"inspect",
            Key::Unit => b"unit",
            Key::Grades => b"grades",
            Key::Row => b"row",
            Key::Planned => b"planned",
            Key::Forced => b"forced",
            Key::End => b"end",
            Key::Tariff => b"tariff",
            Key::Sweeps => b"sweeps",
            Key::Other => b"",
        }
    }
}

// The key with this name.
impl From<&[u8]> for Key {
    ghost from_gives = { λ name key. Names name.now key };

    fn from(name: &[u8]) -> Key {
        NAMED_KEYS
            .iter()
            .copied()
            .find(|key| name == key.name())
            .unwrap_or(Key::Other)
    }
}
