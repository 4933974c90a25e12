// The flags word, taken apart into a record of its six flags and put together again.
ghost use Rattle.std.specs.Prelude.{◌≡◌};
ghost use Rattle.flags.specs.Szp.{szp};
ghost use Rattle.flags.specs.Word.{flags_of, word_of, is_flags, set_c, set_co, set_coa};

use crate::number::Number;
use crate::parity;

#[derive(Clone, Copy)]
pub struct Flags {
    pub carry: bool,
    pub parity: bool,
    pub aux_carry: bool,
    pub zero: bool,
    pub sign: bool,
    pub overflow: bool,
}

impl Flags {
    pub const CARRY: u16 = 0x0001;

    pub const PARITY: u16 = 0x0004;

    pub const AUX_CARRY: u16 = 0x0010;

    pub const ZERO: u16 = 0x0040;

    pub const SIGN: u16 = 0x0080;

    pub const OVERFLOW: u16 = 0x0800;

    // The flags of a word. A bit that is no flag is passed over: a `From` would not say that something is lost.
    pub fn from_word(word: u16) -> Flags
        ensures { result ≡ flags_of word }
    {
        Flags {
            carry: word & Flags::CARRY != 0,
            parity: word & Flags::PARITY != 0,
            aux_carry: word & Flags::AUX_CARRY != 0,
            zero: word & Flags::ZERO != 0,
            sign: word & Flags::SIGN != 0,
            overflow: word & Flags::OVERFLOW != 0,
        }
    }

    // Whether every bit of the word is a flag: such a word comes back from being taken apart.
    pub fn is_flags(word: u16) -> bool
        ensures { result ≡ is_flags word }
    {
        u16::from(Flags::from_word(word)) == word
    }

    // What an operation that names C alone leaves: the other five as handed in.
    pub fn with_c(self, carry: bool) -> Flags
        ensures { result ≡ set_c carry self }
    {
        Flags { carry, ..self }
    }

    // What an operation that names C and O leaves.
    pub fn with_co(self, carry: bool, overflow: bool) -> Flags
        ensures { result ≡ set_co carry overflow self }
    {
        Flags {
            carry,
            overflow,
            ..self
        }
    }

    // What an operation that names C, O and A leaves.
    pub fn with_coa(self, carry: bool, overflow: bool, aux_carry: bool) -> Flags
        ensures { result ≡ set_coa carry overflow aux_carry self }
    {
        Flags {
            carry,
            overflow,
            aux_carry,
            ..self
        }
    }

    // What S, Z and P say of a result. P reads its low eight bits at either width.
    pub fn set_szp_flags_from_result<N: Number>(self, res: N) -> Flags
        ensures { result ≡ szp N.BITS (N.value res) self }
    {
        let wide = res.wide();
        Flags {
            parity: parity::parity((wide & 0xFF) as u8),
            zero: wide == 0,
            sign: res.top_set(),
            ..self
        }
    }
}

// The word of the flags, from the highest down: each shift makes room for the next flag.
impl From<Flags> for u16 {
    fn from(flags: Flags) -> u16
        ensures { result ≡ word_of flags }
    {
        let mut word = flags.overflow as u16;
        word = (word << 4) | flags.sign as u16;
        word = (word << 1) | flags.zero as u16;
        word = (word << 2) | flags.aux_carry as u16;
        word = (word << 2) | flags.parity as u16;
        (word << 2) | flags.carry as u16
    }
}
