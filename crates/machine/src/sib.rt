// A SIB byte's fields: whole numbers, which only the writing cuts into bits.
#[derive(Clone, Copy)]
pub struct Sib {
    pub scale: u8,
    pub index: u8,
    pub base: u8,
}
