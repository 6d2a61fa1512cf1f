// Distances from the address behind an instruction to a target, modulo two to the target's width.
ghost use Rattle.std.specs.Prelude.{◌≡◌, ◌+◌, ◌<◌};
ghost use Rattle.encoder.specs.Targets.{modulus, target_distance};
ghost use Rattle.encoder.specs.Fields.{reaches};

// Where a branch or a RIP operand leads, in as many bits as it is wide.
#[derive(Clone, Copy)]
pub(crate) enum Target {
    Bits16(u16),
    Bits32(u32),
    Bits64(u64),
}

impl Target {
    // from the address `behind` bytes after `at`
    pub(crate) fn distance(self, at: u64, behind: u8) -> u64
        ensures { result ≡ target_distance self (at + behind) }
    {
        let next = at.wrapping_add(behind as u64);
        match self {
            Target::Bits16(target) => (target as u64).wrapping_sub(next) % 0x1_0000,
            Target::Bits32(target) => (target as u64).wrapping_sub(next) % 0x1_0000_0000,
            Target::Bits64(target) => target.wrapping_sub(next),
        }
    }

    fn greatest(self) -> u64
        ensures { result + 1 ≡ modulus self }
    {
        match self {
            Target::Bits16(_) => 0xFFFF,
            Target::Bits32(_) => 0xFFFF_FFFF,
            Target::Bits64(_) => u64::MAX,
        }
    }

    // whether a distance lies between minus `half` and `half` - 1
    pub(crate) fn reaches(self, half: u64, distance: u64) -> bool
        requires { half < modulus self }
        ensures { result ≡ reaches (modulus self) half distance }
    {
        distance < half || distance > self.greatest() - half
    }
}
