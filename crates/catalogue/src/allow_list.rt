ghost use Rattle.std.specs.Prelude.{◌≡◌, ◌≤◌, length};

// The numbers that are let through of another catalogue: the first `count` of 32 places, by value, as there is no heap.
pub struct AllowList<C> {
    pub(crate) numbers: [u16; 32],
    pub(crate) count: u8,
    pub(crate) inner: C,
    ghost fits: { count ≤ 32 },
    ghost size: { length numbers ≡ 32 },
}
