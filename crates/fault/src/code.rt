// A fault as numbers: its number, the operand's place and the layer that found it. Where there is no place it is 5, the
// number that an answer line has for it.
#[derive(Clone, Copy)]
pub struct FaultCode {
    pub number: u8,
    pub place: u8,
    pub layer: u8,
}
