// A worker's registers.
ghost use Rattle.std.specs.Prelude.{◌≡◌, ◌<◌, [], ◌∷◌, slice_index, slice_set};
ghost use Rattle.protocol.specs.Format.{register_count};

use std::marker::Model;

// Four numbers of 16 bits, as the digits of one number to base 65,536, register 0 lowest: shifts reach them, which cost less than an array.
#[derive(Clone, Copy)]
pub struct Registers {
    digits: u64,
}

impl Model for Registers {
    ghost use Rattle.std.specs.Prelude.{ℕ, List};

    ghost Value = { List ℕ };

    ghost use Rattle.worker.specs.Digits.{numbers_of, Fits, from_numbers, from_numbers_back};

    ghost view = { numbers_of };

    ghost invariant = { Fits };

    ghost inverse = { from_numbers };

    ghost inverse_ok = { from_numbers_back };
}

impl Registers {
    // All zero.
    pub fn zero() -> Registers
        ensures { result ≡ 0 ∷ 0 ∷ 0 ∷ 0 ∷ [] }
    {
        Registers { digits: 0 }
    }

    pub fn get(&self, r: u8) -> u16
        requires { r < register_count }
        ensures { result ≡ slice_index self.now r }
    {
        let shift = 16 * (r as u64);
        ((self.digits >> shift) % 65536) as u16
    }

    // These with another value in register r.
    pub fn set(self, r: u8, value: u16) -> Registers
        requires { r < register_count }
        ensures { result ≡ slice_set self r value }
    {
        let shift = 16 * (r as u64);
        let old = (self.digits >> shift) % 65536;
        Registers {
            digits: self.digits - (old << shift) + ((value as u64) << shift),
        }
    }
}
