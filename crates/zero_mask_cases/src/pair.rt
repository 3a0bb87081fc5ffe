// Keys that start with 16 zeros, and for each the one IV under which its start mask is zero.
use case_text::agreed;
use case_text::hex::block;

// A key of 32 bytes: 16 zeros, and 00 to 0F.
pub fn half_zero() -> [u8; 32] {
    let mut r = [0u8; 32];
    blocks::block::store(&mut r, 16, case_text::paper::key());
    r
}

// The zero block through the cipher run backwards, under a key.
pub fn iv_of(key: &[u8]) -> [u8; 16] {
    case_tools::aes::decrypt(key, [0u8; 16])
}

// It is the one that vectors/make-mode-vectors prints.
fn is_printed(key: &[u8], printed: [u8; 16]) -> bool {
    iv_of(key) == printed
}

// The cipher takes it back to zero.
fn leads_back(key: &[u8]) -> bool {
    case_tools::aes::encrypt(key, iv_of(key)) == [0u8; 16]
}

pub fn found() -> usize {
    let zeros = [0u8; 32];
    let half = half_zero();
    agreed(&[
        is_printed(&zeros[..16], block(b"140F0F1011B5223D79587717FFD9EC3A")),
        is_printed(&zeros, block(b"67671CE1FA91DDEB0F8FBBB366B531B4")),
        is_printed(&half, block(b"2F2F1823901D914B8ABD3A4A09B20EB2")),
        leads_back(&zeros[..16]),
        leads_back(&zeros),
        leads_back(&half),
    ])
}
