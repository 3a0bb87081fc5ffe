// The key and the IV of the mode's paper, and a key of 32 bytes that starts with that key.
use crate::hex::{block, bytes};

pub fn key() -> [u8; 16] {
    block(b"000102030405060708090A0B0C0D0E0F")
}

pub fn iv() -> [u8; 16] {
    block(b"0123456789ABCDEF0123456789ABCDEF")
}

pub fn long_key() -> [u8; 32] {
    bytes(b"000102030405060708090A0B0C0D0E0F101112131415161718191A1B1C1D1E1F")
}
