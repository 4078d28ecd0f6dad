// The kinds of frames, and the byte that each begins with.
ghost use Rattle.chartfile.specs.Kinds.{Decodes, Encodes};

// Each kind stands in a file before those that follow it here, but for legs, which stand by number.
#[derive(Clone, Copy, Debug, PartialEq, Eq, PartialOrd, Ord)]
pub enum Kind {
    Head = 0x01,
    OpenLeg = 0x02,
    ClosedLeg = 0x03,
    Pivot = 0x04,
    Home = 0x05,
    Last = 0x7F,
}

// A byte that begins no frame.
#[derive(Clone, Copy, Debug, PartialEq, Eq)]
pub struct UnknownKind;

impl TryFrom<u8> for Kind {
    type Error = UnknownKind;

    ghost try_from_gives = { Decodes };

    fn try_from(byte: u8) -> Result<Kind, UnknownKind> {
        match byte {
            0x01 => Ok(Kind::Head),
            0x02 => Ok(Kind::OpenLeg),
            0x03 => Ok(Kind::ClosedLeg),
            0x04 => Ok(Kind::Pivot),
            0x05 => Ok(Kind::Home),
            0x7F => Ok(Kind::Last),
            _ => Err(UnknownKind),
        }
    }
}

impl From<Kind> for u8 {
    ghost from_gives = { Encodes };

    // The bytes stand at the variants.
    fn from(kind: Kind) -> u8 {
        kind as u8
    }
}
