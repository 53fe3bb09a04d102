// What only this program prints: the parts of a line that several calls share.
use console::Spaced;
use std::fmt::Display;
use std::io;

// What a call of the coder or the read-out is handed: m and the mask, and the bytes after their name.
pub fn handed(
    rt: &impl Print,
    call: &str,
    m: u32,
    mask: &[u8],
    name: &str,
    bytes: &[u8],
) -> io::Result<()> {
    print!(rt; "{call} m={m} mask{} {name}{}", Spaced(mask), Spaced(bytes))
}

// The slice that a call was lent, and the end of the line.
pub fn lent<T: Display>(rt: &impl Print, name: &str, slice: &[T]) -> io::Result<()> {
    println!(rt; " {name}{}", Spaced(slice))
}
