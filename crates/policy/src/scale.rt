ghost use Rattle.std.specs.Prelude.{◌≡◌, true};
ghost use Rattle.record.specs.Rules.{scale_known};

mod work;

// The scale of a displacement: a power of two, at most 64.
#[derive(Clone, Copy)]
pub struct Scale {
    value: u8,
    ghost known: { scale_known value ≡ true },
}
