// The settings of an encoder as numbers, whatever their values: in range each is 0 or 1, evex_lig 0 to 3.
#[derive(Clone, Copy, Default)]
pub struct RawSettings {
    pub prevent_vex2: u8,
    pub vex_wig: u8,
    pub vex_lig: u8,
    pub evex_wig: u8,
    pub evex_lig: u8,
}
