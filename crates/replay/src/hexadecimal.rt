// The line that ends a script's answers: the bytes in hexadecimal.
pub(crate) fn print_bytes(rt: &impl Print, bytes: &[u8]) -> anyhow::Result<()> {
    print!(rt; "= ")?;
    for byte in bytes {
        print!(rt; "{byte:02x}")?;
    }
    println!(rt;)?;
    Ok(())
}
