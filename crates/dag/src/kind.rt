// The kind of a record, by its kind byte.
ghost use Rattle.std.specs.Prelude.{◌≡◌, ◌||◌, eqb};
ghost use Rattle.dag.specs.Record.{fits};
ghost use Rattle.dag.specs.Kind.{byte_of, Decodes};

use crate::Refusal;

// The eight kinds, in the order of their bytes.
#[derive(Clone, Copy, Debug, PartialEq, Eq)]
pub enum Kind {
    Zero,
    Atom,
    Pair,
    Enc,
    Sum,
    PrivateHalf,
    PublicHalf,
    Aenc,
}

// A byte over 7 is no kind: row 5.
impl TryFrom<u8> for Kind {
    type Error = Refusal;

    ghost try_from_gives = { Decodes };

    fn try_from(byte: u8) -> Result<Self, Refusal> {
        match byte {
            0 => Ok(Kind::Zero),
            1 => Ok(Kind::Atom),
            2 => Ok(Kind::Pair),
            3 => Ok(Kind::Enc),
            4 => Ok(Kind::Sum),
            5 => Ok(Kind::PrivateHalf),
            6 => Ok(Kind::PublicHalf),
            7 => Ok(Kind::Aenc),
            _ => Err(Refusal::BadRecord),
        }
    }
}

impl Kind {
    // Does the kind have records of this length? An atom's short record has a number of two bytes, its long one a number of four.
    #[tactic(auto, unfolding(crate::specs::Record::fits))]
    pub fn has_length(self, len: usize) -> bool
        ensures { result ≡ fits (byte_of self) len }
    {
        match self {
            Kind::Zero => len == 1,
            Kind::Atom => matches!(len, 3 | 5),
            Kind::Pair | Kind::Enc | Kind::Aenc => len == 5,
            Kind::Sum => len % 2 == 1 && len <= 129,
            Kind::PrivateHalf | Kind::PublicHalf => len == 3,
        }
    }
}
