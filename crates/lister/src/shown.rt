use std::io;
use std::io::Write;

// a line without the blanks and the byte that ends it
pub fn trimmed(line: &[u8]) -> &[u8] {
    match line {
        [rest @ .., b'\r', b'\n'] => rest,
        [rest @ .., b'\n'] => rest,
        _ => line,
    }
}

// an address, and the bytes behind it in a column of 15
pub fn show_bytes<W: Write>(out: &mut W, address: u64, bytes: &[u8]) -> io::Result<()> {
    write!(out, "{address:08X} ")?;
    for byte in bytes {
        write!(out, " {byte:02X}")?;
    }
    for _ in bytes.len()..15 {
        out.write_all(b"   ")?;
    }
    out.write_all(b"  ")
}
