ghost use Rattle.std.specs.Prelude.{◌≡◌, Some};
ghost use Rattle.machine.specs.Segments.{segment_number, segment_named, segment_prefix, prefix_segment, segments};
ghost use Rattle.machine.specs.Look.{look_there};
ghost use Rattle.std.proofs.Common.{rules};

use super::code::Code;

// A segment register, by its number among the registers: ES 71 to GS 76.
#[derive(Clone, Copy, PartialEq, Eq)]
pub enum Segment {
    Es,
    Cs,
    Ss,
    Ds,
    Fs,
    Gs,
}

impl Code for Segment {
    ghost code = { λ x. segment_number x };

    ghost named = { λ n. segment_named n };

    ghost back = { Prim.search rules };

    ghost there = { look_there segment_number segments };

    fn number(self) -> u8 {
        match self {
            Segment::Es => 71,
            Segment::Cs => 72,
            Segment::Ss => 73,
            Segment::Ds => 74,
            Segment::Fs => 75,
            Segment::Gs => 76,
        }
    }

    fn from_number(number: u8) -> Option<Segment> {
        match number {
            71 => Some(Segment::Es),
            72 => Some(Segment::Cs),
            73 => Some(Segment::Ss),
            74 => Some(Segment::Ds),
            75 => Some(Segment::Fs),
            76 => Some(Segment::Gs),
            _ => None,
        }
    }
}

impl Segment {
    // the byte that overrides the segment of a memory operand
    pub fn prefix(self) -> u8
        ensures value { result ≡ segment_prefix self }
        ensures back { prefix_segment result ≡ Some self }
    {
        match self {
            Segment::Es => 0x26,
            Segment::Cs => 0x2E,
            Segment::Ss => 0x36,
            Segment::Ds => 0x3E,
            Segment::Fs => 0x64,
            Segment::Gs => 0x65,
        }
    }

    // the segment that a prefix byte names
    pub fn from_prefix(byte: u8) -> Option<Segment>
        ensures value { result ≡ prefix_segment byte }
        ensures there { (s : Segment) → result ≡ Some s → segment_prefix s ≡ byte }
    {
        match byte {
            0x26 => Some(Segment::Es),
            0x2E => Some(Segment::Cs),
            0x36 => Some(Segment::Ss),
            0x3E => Some(Segment::Ds),
            0x64 => Some(Segment::Fs),
            0x65 => Some(Segment::Gs),
            _ => None,
        }
    }
}
