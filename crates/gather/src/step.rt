ghost use Rattle.std.specs.Prelude.{◌≡◌};
ghost use Rattle.gather.specs.Steps.{with_rm, with_flags, asking, addressing, sizing, put_rm_register, put_reg, put_embedded, put_vvvv, put_offset, put_branch};

use super::absolute::Offset;
use super::immediate::Branch;
use super::parts::{HeadFlags, Parts, RmPart};
use super::register::RegPart;

impl HeadFlags {
    // what a register asks of REX
    fn ask(&mut self, register: RegPart)
        ensures { self.new ≡ asking self.old register }
    {
        self.rex = self.rex || register.rex;
        self.high = self.high || register.high;
    }

    // what a memory operand asks of the prefixes
    fn address(&mut self, p67: bool, broadcast: bool)
        ensures { self.new ≡ addressing self.old p67 broadcast }
    {
        self.p67 = self.p67 || p67;
        self.broadcast = self.broadcast || broadcast;
    }

    fn size(&mut self, p66: bool)
        ensures { self.new ≡ sizing self.old p66 }
    {
        self.p66 = self.p66 || p66;
    }
}

impl Parts {
    pub(crate) fn put_memory(&mut self, rm: RmPart, p67: bool, broadcast: bool)
        ensures { self.new ≡ with_flags (with_rm self.old rm) (addressing self.old.flags p67 broadcast) }
    {
        self.rm = rm;
        self.flags.address(p67, broadcast);
    }

    pub(crate) fn put_rm_register(&mut self, register: RegPart)
        ensures { self.new ≡ put_rm_register self.old register }
    {
        self.rm = register.rm();
        self.flags.ask(register);
    }

    pub(crate) fn put_reg(&mut self, register: RegPart)
        ensures { self.new ≡ put_reg self.old register }
    {
        self.reg = register.number;
        self.flags.ask(register);
    }

    // the low three bits into the opcode, the fourth is B
    pub(crate) fn put_embedded(&mut self, register: RegPart)
        ensures { self.new ≡ put_embedded self.old register }
    {
        self.rm.b = register.number / 8;
        self.low = register.number % 8;
        self.flags.ask(register);
    }

    pub(crate) fn put_vvvv(&mut self, register: RegPart)
        ensures { self.new ≡ put_vvvv self.old register }
    {
        self.vvvv = register.number;
    }

    pub(crate) fn put_offset(&mut self, offset: Offset)
        ensures { self.new ≡ put_offset self.old offset }
    {
        self.rm.displ = offset.displ;
        self.flags.address(offset.p67, false);
    }

    pub(crate) fn put_branch(&mut self, branch: Branch)
        ensures { self.new ≡ put_branch self.old branch }
    {
        self.imm = branch.imm;
        self.flags.size(branch.p66);
    }
}
