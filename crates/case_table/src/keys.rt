// The keys and the IVs of a table, to be cut to any length up to theirs.
use case_text::hex::bytes;
use case_text::paper;
use case_tools::aes::decrypt;

// 00 01 .. 3F, which starts with the paper's key, beside the paper's IV; or zeros, beside the IV under which their start mask is zero.
#[derive(Clone, Copy, Debug, PartialEq, Eq)]
pub enum Keys {
    Paper,
    Zero,
}

impl Keys {
    pub fn bytes(self) -> [u8; 64] {
        match self {
            Keys::Paper => bytes(
                b"000102030405060708090A0B0C0D0E0F101112131415161718191A1B1C1D1E1F202122232425262728292A2B2C2D2E2F303132333435363738393A3B3C3D3E3F",
            ),
            Keys::Zero => [0u8; 64],
        }
    }

    // The IV beside a key of this length.
    pub fn iv(self, key: usize) -> [u8; 16] {
        match self {
            Keys::Paper => paper::iv(),
            Keys::Zero => iv_of_zeros(key),
        }
    }
}

// The one IV under which the start mask of the zero key of this length is zero. Where no key has this length, that of 16 bytes.
fn iv_of_zeros(key: usize) -> [u8; 16] {
    let zeros = [0u8; 32];
    if key == 32 {
        return decrypt(&zeros, [0u8; 16]);
    }
    decrypt(&zeros[0..16], [0u8; 16])
}

// An IV in front of zeros.
pub fn lengthened(iv: [u8; 16]) -> [u8; 32] {
    let mut r = [0u8; 32];
    blocks::block::store(&mut r, 0, iv);
    r
}
