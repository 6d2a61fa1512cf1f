ghost use Rattle.std.specs.Prelude.{◌≡◌, ℕ, ◌-◌, ◌≤◌, length, drop, replicate};

mod read;
mod work;

// The bytes of one instruction: 31 places, of which the first `count` are used and the others are zero. An array by value,
// since the encoder uses no heap. Each function that pushes states the room that it takes, so that none is tested for when
// it runs; head, opcode, ModRM and SIB, displacement and immediate come to 31 bytes at most.
#[derive(Clone, Copy)]
pub struct Line {
    bytes: [u8; 31],
    count: u8,
    ghost fits: { count ≤ 31 },
    ghost size: { length bytes ≡ 31 },
    ghost tail: { drop count bytes ≡ replicate (31 - count) 0 },
}
