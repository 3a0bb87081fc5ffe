// The S-box and its inverse: the entries that FIPS 197 prints at the corners of its tables, and the tables beside what is worked out.
ghost use Rattle.std.specs.Prelude.{◌≤◌};

// How many entries of a table are as printed, each an index and what stands there.
fn entries(table: &[u8; 256], printed: &[(u8, u8); 5]) -> usize
    ensures { result ≤ 5 }
{
    printed
        .iter()
        .filter(|(at, entry)| table[*at as usize] == *entry)
        .count()
}

// The corners of the two tables, an entry inside, and the byte that the inverse takes to 0.
pub fn tables() -> usize {
    let forwards = [
        (0x00, 0x63),
        (0x0f, 0x76),
        (0xf0, 0x8c),
        (0xff, 0x16),
        (0x53, 0xed),
    ];
    let backwards = [
        (0x00, 0x52),
        (0x0f, 0xfb),
        (0xf0, 0x17),
        (0xff, 0x7d),
        (0x63, 0x00),
    ];
    entries(&aes_tables::sbox::SBOX, &forwards)
        + entries(&aes_tables::inv_sbox::INV_SBOX, &backwards)
}

// ---- looked up and worked out

// How many entries of a table are as they were worked out.
fn as_worked_out(table: &[u8; 256], worked: &[[u8; 16]; 16]) -> usize
    ensures { result ≤ 256 }
{
    table
        .iter()
        .zip(worked.as_flattened())
        .filter(|(entry, byte)| **entry == **byte)
        .count()
}

// The bytes of a row of a table's indices.
fn row(row: u8) -> [u8; 16] {
    std::array::from_fn(|i| (row << 4) | (i % 16) as u8)
}

// Both tables at every byte, beside the engine that has none.
pub fn worked_out() -> usize {
    let rows: [[u8; 16]; 16] = std::array::from_fn(|i| row((i % 16) as u8));
    let forwards = rows.map(|row| aes_arithmetic::sbox::sub_bytes(row));
    let backwards = rows.map(|row| aes_arithmetic::sbox::inv_sub_bytes(row));
    as_worked_out(&aes_tables::sbox::SBOX, &forwards)
        + as_worked_out(&aes_tables::inv_sbox::INV_SBOX, &backwards)
}
