ghost use Rattle.std.specs.Prelude.{◌≡◌};
ghost use Rattle.machine.specs.Banks.{bank_first, bank_count, BankBack};
ghost use Rattle.machine.specs.Registers.{bank_register};

use super::register::Register;

// The banks of registers, each a run of numbers.
#[derive(Clone, Copy)]
pub enum Bank {
    Gpr8,
    Gpr16,
    Gpr32,
    Gpr64,
    Ip,
    Seg,
    Xmm,
    Ymm,
    Zmm,
    Mask,
}

impl Bank {
    // the number of the first register
    pub fn first(self) -> u8
        ensures { result ≡ bank_first self }
    {
        match self {
            Bank::Gpr8 => 1,
            Bank::Gpr16 => 21,
            Bank::Gpr32 => 37,
            Bank::Gpr64 => 53,
            Bank::Ip => 69,
            Bank::Seg => 71,
            Bank::Xmm => 77,
            Bank::Ymm => 109,
            Bank::Zmm => 141,
            Bank::Mask => 173,
        }
    }

    // how many registers there are
    pub fn count(self) -> u8
        ensures { result ≡ bank_count self }
    {
        match self {
            Bank::Gpr8 => 20,
            Bank::Gpr16 | Bank::Gpr32 | Bank::Gpr64 => 16,
            Bank::Ip => 2,
            Bank::Seg => 6,
            Bank::Xmm | Bank::Ymm | Bank::Zmm => 32,
            Bank::Mask => 8,
        }
    }

    // the register at a place of the bank
    #[tactic(auto, using(crate::proofs::Banked::bank_back))]
    pub fn register(self, index: u8) -> Option<Register>
        ensures value { result ≡ bank_register self index }
        ensures back { BankBack }
    {
        self.at(index)
    }

    fn at(self, index: u8) -> Option<Register>
        ensures { result ≡ bank_register self index }
    {
        if index < self.count() {
            Register::new(self.first() + index)
        } else {
            None
        }
    }
}
