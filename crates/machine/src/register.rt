ghost use Rattle.std.specs.Prelude.{◌≤◌};

// A register by its number, 0 to 180; 0 stands for no register, as in the source, whose ranges count from there.
#[derive(Clone, Copy)]
pub struct Register {
    pub number: u8,
    ghost known: { number ≤ 180 },
}
