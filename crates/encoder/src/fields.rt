// Opcode, ModRM, SIB, displacement and immediate.
ghost use Rattle.std.specs.Prelude.{◌≡◌, ◌+◌, ◌-◌, ◌*◌, ◌^◌, ◌≤◌, ◌++◌, not};
ghost use Rattle.encoder.specs.Lines.{used};
ghost use Rattle.encoder.specs.Encode.{address_behind, code_bytes, displ_bytes_onto, rip_far, imm_bytes_onto, branch_far};
ghost use Rattle.encoder.specs.Fields.{low_bytes, reaches, opcode_onto, mod_rm_byte, sib_byte, sib_onto, mod_rm_onto, imm_length};
ghost use Rattle.encoder.specs.Targets.{modulus, target_distance};

use super::distance::Target;
use super::gathered::Gathered;
use super::line::Line;
use gather::{Displ, Imm, Parts, Sib};

fn mod_rm_byte(parts: &Parts) -> u8
    ensures { result ≡ mod_rm_byte parts.now }
{
    64 * (parts.rm.mode % 4) + 8 * (parts.reg % 8) + parts.rm.rm % 8
}

pub(crate) fn imm_length(imm: Imm) -> u8
    ensures value { result ≡ imm_length imm }
    ensures bound { result ≤ 8 }
{
    match imm {
        Imm::Absent => 0,
        Imm::Size1(_)
        | Imm::RipRelSize1Target16(_)
        | Imm::RipRelSize1Target32(_)
        | Imm::RipRelSize1Target64(_) => 1,
        Imm::Size1And1(_, _) | Imm::RipRelSize2Target16(_) => 2,
        Imm::Size4(_) | Imm::RipRelSize4Target32(_) | Imm::RipRelSize4Target64(_) => 4,
        Imm::Size8(_) => 8,
    }
}

impl Line {
    // the address behind the bytes so far
    #[tactic(auto, unfolding(crate::specs::Encode::address_behind))]
    fn behind(&self, address: u64) -> u64
        ensures { result ≡ address_behind address (used self.now) }
    {
        address.wrapping_add(self.len() as u64)
    }

    // the opcode in one byte or two
    #[tactic(auto, unfolding(crate::specs::Fields::opcode_onto))]
    fn push_opcode(&mut self, two: bool, code: u32)
        requires { self.old.count ≤ 11 }
        ensures bytes { used self.new ≡ opcode_onto (used self.old) two code }
        ensures count { self.new.count ≤ self.old.count + 2 }
    {
        self.push_if(two, (code / 256 % 256) as u8);
        self.push((code % 256) as u8);
    }

    fn push_sib(&mut self, sib: Option<Sib>)
        requires { self.old.count ≤ 14 }
        ensures bytes { used self.new ≡ sib_onto (used self.old) sib }
        ensures count { self.new.count ≤ self.old.count + 1 }
    {
        if let Some(sib) = sib {
            self.push(64 * (sib.scale % 4) + 8 * (sib.index % 8) + sib.base % 8);
        }
    }

    #[tactic(auto, unfolding(crate::specs::Fields::mod_rm_onto))]
    fn push_mod_rm(&mut self, there: bool, parts: &Parts)
        requires { self.old.count ≤ 13 }
        ensures bytes { used self.new ≡ mod_rm_onto (used self.old) there parts.now }
        ensures count { self.new.count ≤ self.old.count + 2 }
    {
        if there {
            self.push(mod_rm_byte(parts));
            self.push_sib(parts.rm.sib);
        }
    }

    // opcode, ModRM and SIB
    #[tactic(auto, unfolding(crate::specs::Encode::code_bytes))]
    pub(crate) fn push_code(&mut self, gathered: &Gathered)
        requires { self.old.count ≤ 11 }
        ensures bytes { used self.new ≡ code_bytes gathered.now.record.now.raw gathered.now.parts (used self.old) }
        ensures count { self.new.count ≤ self.old.count + 4 }
    {
        let raw = &gathered.record.raw;
        let code = raw.op_code % 65536 + gathered.parts.low as u32 % 8;
        self.push_opcode(raw.is_2byte_opcode, code);
        self.push_mod_rm(gathered.record.has_mod_rm(), &gathered.parts);
    }

    // the low `size` bytes of the distance to a target from `behind` bytes after `at`, and whether it is out of reach
    fn push_distance(&mut self, target: Target, at: u64, behind: u8, size: u8) -> bool
        requires { (self.old.count ≤ 27) × (1 ≤ size) × (size ≤ 4) × (256 ^ size ≤ modulus target) }
        ensures bytes { used self.new ≡ used self.old ++ low_bytes size (target_distance target (at + behind)) }
        ensures count { self.new.count ≡ self.old.count + size }
        ensures far { result ≡ not (reaches (modulus target) (2 ^ (8 * size - 1)) (target_distance target (at + behind))) }
    {
        let distance = target.distance(at, behind);
        self.push_all(&distance.to_le_bytes()[..size as usize]);
        !target.reaches(1 << (8 * size - 1), distance)
    }

    // the displacement, and whether its RIP target is out of reach: no refusal yet, as the caller puts them in order
    #[tactic(auto, unfolding(crate::specs::Encode::displ_bytes_onto, crate::specs::Encode::rip_far, crate::specs::Fields::displ_onto))]
    pub(crate) fn push_displacement(&mut self, address: u64, parts: &Parts) -> bool
        requires { self.old.count ≤ 15 }
        ensures bytes { used self.new ≡ displ_bytes_onto address parts.now (used self.old) }
        ensures count { self.new.count ≤ self.old.count + 8 }
        ensures far { result ≡ rip_far address parts.now (used self.old) }
    {
        let at = self.behind(address);
        let imm = imm_length(parts.imm);
        match parts.rm.displ {
            Displ::Absent => {}
            Displ::Size1(b) => self.push(b),
            Displ::Size2(n) => self.push_all(&n.to_le_bytes()),
            Displ::Size4(n) => self.push_all(&n.to_le_bytes()),
            Displ::Size8(n) => self.push_all(&n.to_le_bytes()),
            Displ::RipRelSize4Target32(t) => {
                return self.push_distance(Target::Bits32(t), at, 4 + imm, 4);
            }
            Displ::RipRelSize4Target64(t) => {
                return self.push_distance(Target::Bits64(t), at, 4 + imm, 4);
            }
        }
        false
    }

    // the immediate, and whether its branch target is out of reach: no refusal yet, as the caller puts them in order
    #[tactic(auto, unfolding(crate::specs::Encode::imm_bytes_onto, crate::specs::Encode::branch_far, crate::specs::Fields::imm_onto))]
    pub(crate) fn push_immediate(&mut self, address: u64, parts: &Parts) -> bool
        requires { self.old.count ≤ 23 }
        ensures bytes { used self.new ≡ imm_bytes_onto address parts.now (used self.old) }
        ensures count { self.new.count ≤ self.old.count + 8 }
        ensures far { result ≡ branch_far address parts.now (used self.old) }
    {
        let at = self.behind(address);
        match parts.imm {
            Imm::Absent => {}
            Imm::Size1(a) => self.push(a),
            Imm::Size1And1(a, b) => self.push_all(&[a, b]),
            Imm::Size4(n) => self.push_all(&n.to_le_bytes()),
            Imm::Size8(n) => self.push_all(&n.to_le_bytes()),
            Imm::RipRelSize1Target16(t) => return self.push_distance(Target::Bits16(t), at, 1, 1),
            Imm::RipRelSize1Target32(t) => return self.push_distance(Target::Bits32(t), at, 1, 1),
            Imm::RipRelSize1Target64(t) => return self.push_distance(Target::Bits64(t), at, 1, 1),
            Imm::RipRelSize2Target16(t) => return self.push_distance(Target::Bits16(t), at, 2, 2),
            Imm::RipRelSize4Target32(t) => return self.push_distance(Target::Bits32(t), at, 4, 4),
            Imm::RipRelSize4Target64(t) => return self.push_distance(Target::Bits64(t), at, 4, 4),
        }
        false
    }
}
