ghost use Rattle.std.specs.Prelude.{◌≡◌};
ghost use Rattle.record.specs.Flags.{has_flag};

// The flags of a record that the encoder and the rules look at, each with its bit in the source's word.
#[derive(Clone, Copy)]
pub enum Flag {
    DefaultOpSize64 = 0x1000,
    Fwait = 0x8000,
    Bit16Or32 = 0x1_0000,
    Bit64 = 0x2_0000,
    Broadcast = 0x400_0000,
    RoundingControl = 0x800_0000,
    SuppressAllExceptions = 0x1000_0000,
    OpMaskRegister = 0x2000_0000,
    ZeroingMasking = 0x4000_0000,
    RequireOpMaskRegister = 0x8000_0000,
}

// The flags as one word.
#[derive(Clone, Copy)]
pub struct EncFlags3 {
    pub bits: u32,
}

impl EncFlags3 {
    // whether the word has the flag
    pub fn has(self, flag: Flag) -> bool
        ensures { result ≡ has_flag self flag }
    {
        self.bits / flag as u32 % 2 == 1
    }
}
