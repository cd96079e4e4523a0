// The known answers of RFC 3394, section 4, in words of 64 bits with the first byte highest.

/// A known answer.
pub(crate) struct Vector {
    pub(crate) source: &'static str,
    pub(crate) key: &'static [u64],
    pub(crate) value: &'static [u64],
    pub(crate) wrapped: &'static [u64],
}

const KEY_128: &[u64] = &[0x0001020304050607, 0x08090a0b0c0d0e0f];

const KEY_192: &[u64] = &[0x0001020304050607, 0x08090a0b0c0d0e0f, 0x1011121314151617];

const KEY_256: &[u64] = &[
    0x0001020304050607,
    0x08090a0b0c0d0e0f,
    0x1011121314151617,
    0x18191a1b1c1d1e1f,
];

const VALUE_128: &[u64] = &[0x0011223344556677, 0x8899aabbccddeeff];

const VALUE_192: &[u64] = &[0x0011223344556677, 0x8899aabbccddeeff, 0x0001020304050607];

const VALUE_256: &[u64] = &[
    0x0011223344556677,
    0x8899aabbccddeeff,
    0x0001020304050607,
    0x08090a0b0c0d0e0f,
];

/// The table.
pub(crate) static RFC_3394: [Vector; 6] = [
    Vector {
        source: "RFC 3394, 4.1",
        key: KEY_128,
        value: VALUE_128,
        wrapped: &[0x1fa68b0a8112b447, 0xaef34bd8fb5a7b82, 0x9d3e862371d2cfe5],
    },
    Vector {
        source: "RFC 3394, 4.2",
        key: KEY_192,
        value: VALUE_128,
        wrapped: &[0x96778b25ae6ca435, 0xf92b5b97c050aed2, 0x468ab8a17ad84e5d],
    },
    Vector {
        source: "RFC 3394, 4.3",
        key: KEY_256,
        value: VALUE_128,
        wrapped: &[0x64e8c3f9ce0f5ba2, 0x63e9777905818a2a, 0x93c8191e7d6e8ae7],
    },
    Vector {
        source: "RFC 3394, 4.4",
        key: KEY_192,
        value: VALUE_192,
        wrapped: &[
            0x031d33264e15d332,
            0x68f24ec260743edc,
            0xe1c6c7ddee725a93,
            0x6ba814915c6762d2,
        ],
    },
    Vector {
        source: "RFC 3394, 4.5",
        key: KEY_256,
        value: VALUE_192,
        wrapped: &[
            0xa8f9bc1612c68b3f,
            0xf6e6f4fbe30e71e4,
            0x769c8b80a32cb895,
            0x8cd5d17d6b254da1,
        ],
    },
    Vector {
        source: "RFC 3394, 4.6",
        key: KEY_256,
        value: VALUE_256,
        wrapped: &[
            0x28c9f404c4b810f4,
            0xcbccb35cfb87f826,
            0x3f5786e2d80ed326,
            0xcbc7f0e71a99f43b,
            0xfb988b9b7a02dd21,
        ],
    },
];
