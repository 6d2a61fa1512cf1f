ghost use Rattle.std.specs.Prelude.{◌≡◌, ℕ, ◌^◌, ◌<◌};
ghost use Rattle.std.specs.Int.Signed.{shr_z};
ghost use Rattle.policy.specs.Bytes.{moved_up};

// Of a signed number too `<<` moves the 32 bits. Where no bit is lost, that multiplies.

// the bits moved up by the places
pub fn shift_up(number: i32, places: u32) -> i32
    requires { places < 8 }
    ensures { result ≡ moved_up number places }
{
    number << places
}

// the number over a power of two, rounded down
pub fn shift_down(number: i32, places: u32) -> i32
    requires { places < 8 }
    ensures { result ≡ shr_z number (2 ^ places) }
{
    number >> places
}
