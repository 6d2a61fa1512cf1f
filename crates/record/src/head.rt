ghost use Rattle.std.specs.Prelude.{◌≡◌};
ghost use Rattle.record.specs.Rules.{is_legacy, is_evex};

// What stands before the opcode of a legacy record: bytes, whatever their values.
#[derive(Clone, Copy, Default)]
pub struct LegacyHead {
    pub table_byte1: u8,
    pub table_byte2: u8,
    pub mandatory_prefix: u8,
}

// The fixed bits of a VEX prefix, and which of them the settings may change: numbers, whatever their values.
#[derive(Clone, Copy, Default)]
pub struct VexHead {
    pub table: u8,
    pub last_byte: u8,
    pub mask_w_l: u8,
    pub mask_l: u8,
    pub w1: bool,
}

// The fixed bits of an EVEX prefix, and which of them the settings may change: numbers, whatever their values.
#[derive(Clone, Copy, Default)]
pub struct EvexHead {
    pub table: u8,
    pub p1_bits: u8,
    pub ll_bits: u8,
    pub mask_w: u8,
    pub mask_ll: u8,
}

// One of the three heads.
#[derive(Clone, Copy)]
pub enum Head {
    Legacy(LegacyHead),
    Vex(VexHead),
    Evex(EvexHead),
}

impl Head {
    pub(crate) fn is_legacy(&self) -> bool
        ensures { result ≡ is_legacy self.now }
    {
        matches!(self, Head::Legacy(_))
    }

    // whether the head is EVEX
    pub fn is_evex(&self) -> bool
        ensures { result ≡ is_evex self.now }
    {
        matches!(self, Head::Evex(_))
    }
}
