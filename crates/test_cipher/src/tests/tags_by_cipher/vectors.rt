// The known answers of SP 800-38B (May 2005), appendix D. Keys and the message are in words of 64 bits and tags in one of 128,
// the first byte highest.

/// A known answer, of the first `len` bytes of the message.
pub(crate) struct Vector {
    pub(crate) source: &'static str,
    pub(crate) key: &'static [u64],
    pub(crate) len: usize,
    pub(crate) tag: u128,
}

const KEY_128: &[u64] = &[0x2b7e151628aed2a6, 0xabf7158809cf4f3c];

const KEY_192: &[u64] = &[0x8e73b0f7da0e6452, 0xc810f32b809079e5, 0x62f8ead2522c6b7b];

const KEY_256: &[u64] = &[
    0x603deb1015ca71be,
    0x2b73aef0857d7781,
    0x1f352c073b6108d7,
    0x2d9810a30914dff4,
];

/// The table.
pub(crate) static SP_800_38B: [Vector; 12] = [
    Vector {
        source: "D.1, example 1",
        key: KEY_128,
        len: 0,
        tag: 0xbb1d6929e95937287fa37d129b756746,
    },
    Vector {
        source: "D.1, example 2",
        key: KEY_128,
        len: 16,
        tag: 0x070a16b46b4d4144f79bdd9dd04a287c,
    },
    Vector {
        source: "D.1, example 3",
        key: KEY_128,
        len: 40,
        tag: 0xdfa66747de9ae63030ca32611497c827,
    },
    Vector {
        source: "D.1, example 4",
        key: KEY_128,
        len: 64,
        tag: 0x51f0bebf7e3b9d92fc49741779363cfe,
    },
    Vector {
        source: "D.2, example 5",
        key: KEY_192,
        len: 0,
        tag: 0xd17ddf46adaacde531cac483de7a9367,
    },
    Vector {
        source: "D.2, example 6",
        key: KEY_192,
        len: 16,
        tag: 0x9e99a7bf31e710900662f65e617c5184,
    },
    Vector {
        source: "D.2, example 7",
        key: KEY_192,
        len: 40,
        tag: 0x8a1de5be2eb31aad089a82e6ee908b0e,
    },
    Vector {
        source: "D.2, example 8",
        key: KEY_192,
        len: 64,
        tag: 0xa1d5df0eed790f794d77589659f39a11,
    },
    Vector {
        source: "D.3, example 9",
        key: KEY_256,
        len: 0,
        tag: 0x028962f61b7bf89efc6b551f4667d983,
    },
    Vector {
        source: "D.3, example 10",
        key: KEY_256,
        len: 16,
        tag: 0x28a7023f452e8f82bd4bf28d8c37c35c,
    },
    Vector {
        source: "D.3, example 11",
        key: KEY_256,
        len: 40,
        tag: 0xaaf3d8f1de5640c232f5b169b9c911e6,
    },
    Vector {
        source: "D.3, example 12",
        key: KEY_256,
        len: 64,
        tag: 0xe1992190549f6ed5696a2c056c315410,
    },
];
