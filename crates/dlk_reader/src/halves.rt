//! A 128-bit number as two halves, so that lexemes stay small.
ghost use Rattle.std.specs.Prelude.{◌≡◌};
ghost use Rattle.dlk_reader.specs.Halves.{number_of};

use dlk_tree::Num;

/// A number as the halves of its digits, which contracts see as the number. A number of 128 bits in one piece would have each lexeme stand at a
/// multiple of 16 bytes.
#[derive(Clone, Copy)]
pub struct Halves {
    high: u64,
    low: u64,
    scale: u64,
}

/// The first number that a half has no room for.
const RADIX: u128 = 1 << 64;

impl Halves {
    pub(crate) fn of(number: Num) -> Halves
        ensures { number_of result ≡ number }
    {
        Halves {
            high: (number.digits / RADIX) as u64,
            low: (number.digits % RADIX) as u64,
            scale: u64::from(number.scale),
        }
    }

    pub(crate) fn number(self) -> Num
        ensures { result ≡ number_of self }
    {
        Num {
            digits: u128::from(self.high) * RADIX + u128::from(self.low),
            scale: (self.scale % 256) as u8,
        }
    }
}
