// What the examples print.
// A number after a text.
pub fn print(text: &[u8], value: u32) {
    io::write_all(1, text);
    io::print_decimal(1, value as u64);
}
