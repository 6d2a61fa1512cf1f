ghost use Rattle.std.specs.Prelude.{◌≡◌};
ghost use Rattle.policy.specs.Bytes.{byte_of};

// the number as a signed byte, none where it is out of range
pub fn signed_byte(number: i32) -> Option<i8>
    ensures { result ≡ byte_of number }
{
    i8::try_from(number).ok()
}
