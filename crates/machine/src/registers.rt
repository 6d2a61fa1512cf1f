ghost use Rattle.std.specs.Prelude.{◌≡◌, ◌<◌, [], MatchOption, slice_index_or};
ghost use Rattle.machine.specs.Banks.{bank_of, place_in, bank_index, BankThere};
ghost use Rattle.machine.specs.Names.{names, NameThere, NameBack};
ghost use Rattle.machine.specs.Registers.{register_of, register_named, RegisterThere, RegisterBack};
ghost use Rattle.machine.specs.Registered.{register_found, register_back};

use super::bank::Bank;
use super::code::Code;
use super::names::{name_of, number_of};
use super::register::Register;

// the place of a number in a bank, 0 where there is none
fn place_in(bank: Option<Bank>, number: u8) -> u8
    ensures { result ≡ place_in bank number }
{
    bank.map_or(0, |bank| number.saturating_sub(bank.first()))
}

// a number that a register has
fn known(number: u8) -> Option<Register>
    ensures { MatchOption result (180 < number) (λ x. x.number ≡ number) }
{
    if number <= 180 {
        Some(Register { number })
    } else {
        None
    }
}

impl Register {
    // the register of a number, none above 180
    pub fn new(number: u8) -> Option<Register>
        ensures value { result ≡ register_of number }
        ensures there { RegisterThere }
        ensures back { RegisterBack }
    {
        known(number)
    }

    // the name, filled up with zeros to five places
    pub fn name(self) -> [u8; 5]
        ensures { result ≡ slice_index_or names self.number [] }
    {
        name_of(self.number)
    }

    // the register of a name that is filled up with zeros to five places
    #[tactic(auto, using(crate::proofs::Named::name_there))]
    pub fn from_name(name: [u8; 5]) -> Option<Register>
        ensures value { result ≡ register_named name }
        ensures there { NameThere }
        ensures back { NameBack }
    {
        Register::new(number_of(name)?)
    }

    pub fn bank(self) -> Option<Bank>
        ensures { result ≡ bank_of self.number }
    {
        match self.number {
            0 => None,
            1..=20 => Some(Bank::Gpr8),
            21..=36 => Some(Bank::Gpr16),
            37..=52 => Some(Bank::Gpr32),
            53..=68 => Some(Bank::Gpr64),
            69..=70 => Some(Bank::Ip),
            71..=76 => Some(Bank::Seg),
            77..=108 => Some(Bank::Xmm),
            109..=140 => Some(Bank::Ymm),
            141..=172 => Some(Bank::Zmm),
            173..=180 => Some(Bank::Mask),
            _ => None,
        }
    }

    // the place in the bank, 0 where there is none
    #[tactic(auto, using(crate::proofs::Banked::bank_there))]
    pub fn index(self) -> u8
        ensures value { result ≡ bank_index self.number }
        ensures there { BankThere }
    {
        place_in(self.bank(), self.number)
    }
}

impl Code for Register {
    ghost code = { λ x. x.number };

    ghost named = { λ n. register_of n };

    ghost back = { register_found };

    ghost there = { register_back };

    fn number(self) -> u8 {
        self.number
    }

    fn from_number(number: u8) -> Option<Register> {
        Register::new(number)
    }
}
