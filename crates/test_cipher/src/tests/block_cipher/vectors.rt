// Known answers of AES, each a block and what it is encrypted to under a key.
//
// Their sources: FIPS 197 (November 2001), appendix C; SP 800-38A, appendix F.1 (ECB: of two
// sections one encrypts and the next one decrypts the same blocks); NIST's AESAVS, appendix B
// (GFSbox, under a key of zeros).

/// A known answer. The key is in words of 64 bits and each block in one of 128, the first byte
/// highest.
pub(crate) struct Vector {
    pub(crate) source: &'static str,
    pub(crate) key: &'static [u64],
    pub(crate) plain: u128,
    pub(crate) encrypted: u128,
}

// The keys of FIPS 197, C.1 to C.3.
const COUNTED_128: &[u64] = &[0x0001020304050607, 0x08090a0b0c0d0e0f];

const COUNTED_192: &[u64] = &[0x0001020304050607, 0x08090a0b0c0d0e0f, 0x1011121314151617];

const COUNTED_256: &[u64] = &[
    0x0001020304050607,
    0x08090a0b0c0d0e0f,
    0x1011121314151617,
    0x18191a1b1c1d1e1f,
];

// The keys of SP 800-38A, F.1.
const SP_800_38A_128: &[u64] = &[0x2b7e151628aed2a6, 0xabf7158809cf4f3c];

const SP_800_38A_192: &[u64] = &[0x8e73b0f7da0e6452, 0xc810f32b809079e5, 0x62f8ead2522c6b7b];

const SP_800_38A_256: &[u64] = &[
    0x603deb1015ca71be,
    0x2b73aef0857d7781,
    0x1f352c073b6108d7,
    0x2d9810a30914dff4,
];

// The keys of AESAVS, B.1 to B.3.
const ZERO_128: &[u64] = &[0x0000000000000000, 0x0000000000000000];

const ZERO_192: &[u64] = &[0x0000000000000000, 0x0000000000000000, 0x0000000000000000];

const ZERO_256: &[u64] = &[
    0x0000000000000000,
    0x0000000000000000,
    0x0000000000000000,
    0x0000000000000000,
];

/// The table.
pub(crate) const VECTORS: [Vector; 33] = [
    Vector {
        source: "FIPS 197, C.1",
        key: COUNTED_128,
        plain: 0x00112233445566778899aabbccddeeff,
        encrypted: 0x69c4e0d86a7b0430d8cdb78070b4c55a,
    },
    Vector {
        source: "FIPS 197, C.2",
        key: COUNTED_192,
        plain: 0x00112233445566778899aabbccddeeff,
        encrypted: 0xdda97ca4864cdfe06eaf70a0ec0d7191,
    },
    Vector {
        source: "FIPS 197, C.3",
        key: COUNTED_256,
        plain: 0x00112233445566778899aabbccddeeff,
        encrypted: 0x8ea2b7ca516745bfeafc49904b496089,
    },
    Vector {
        source: "SP 800-38A, F.1.1 and F.1.2, block 1",
        key: SP_800_38A_128,
        plain: 0x6bc1bee22e409f96e93d7e117393172a,
        encrypted: 0x3ad77bb40d7a3660a89ecaf32466ef97,
    },
    Vector {
        source: "SP 800-38A, F.1.1 and F.1.2, block 2",
        key: SP_800_38A_128,
        plain: 0xae2d8a571e03ac9c9eb76fac45af8e51,
        encrypted: 0xf5d3d58503b9699de785895a96fdbaaf,
    },
    Vector {
        source: "SP 800-38A, F.1.1 and F.1.2, block 3",
        key: SP_800_38A_128,
        plain: 0x30c81c46a35ce411e5fbc1191a0a52ef,
        encrypted: 0x43b1cd7f598ece23881b00e3ed030688,
    },
    Vector {
        source: "SP 800-38A, F.1.1 and F.1.2, block 4",
        key: SP_800_38A_128,
        plain: 0xf69f2445df4f9b17ad2b417be66c3710,
        encrypted: 0x7b0c785e27e8ad3f8223207104725dd4,
    },
    Vector {
        source: "SP 800-38A, F.1.3 and F.1.4, block 1",
        key: SP_800_38A_192,
        plain: 0x6bc1bee22e409f96e93d7e117393172a,
        encrypted: 0xbd334f1d6e45f25ff712a214571fa5cc,
    },
    Vector {
        source: "SP 800-38A, F.1.3 and F.1.4, block 2",
        key: SP_800_38A_192,
        plain: 0xae2d8a571e03ac9c9eb76fac45af8e51,
        encrypted: 0x974104846d0ad3ad7734ecb3ecee4eef,
    },
    Vector {
        source: "SP 800-38A, F.1.3 and F.1.4, block 3",
        key: SP_800_38A_192,
        plain: 0x30c81c46a35ce411e5fbc1191a0a52ef,
        encrypted: 0xef7afd2270e2e60adce0ba2face6444e,
    },
    Vector {
        source: "SP 800-38A, F.1.3 and F.1.4, block 4",
        key: SP_800_38A_192,
        plain: 0xf69f2445df4f9b17ad2b417be66c3710,
        encrypted: 0x9a4b41ba738d6c72fb16691603c18e0e,
    },
    Vector {
        source: "SP 800-38A, F.1.5 and F.1.6, block 1",
        key: SP_800_38A_256,
        plain: 0x6bc1bee22e409f96e93d7e117393172a,
        encrypted: 0xf3eed1bdb5d2a03c064b5a7e3db181f8,
    },
    Vector {
        source: "SP 800-38A, F.1.5 and F.1.6, block 2",
        key: SP_800_38A_256,
        plain: 0xae2d8a571e03ac9c9eb76fac45af8e51,
        encrypted: 0x591ccb10d410ed26dc5ba74a31362870,
    },
    Vector {
        source: "SP 800-38A, F.1.5 and F.1.6, block 3",
        key: SP_800_38A_256,
        plain: 0x30c81c46a35ce411e5fbc1191a0a52ef,
        encrypted: 0xb6ed21b99ca6f4f9f153e7b1beafed1d,
    },
    Vector {
        source: "SP 800-38A, F.1.5 and F.1.6, block 4",
        key: SP_800_38A_256,
        plain: 0xf69f2445df4f9b17ad2b417be66c3710,
        encrypted: 0x23304b7a39f9f3ff067d8d8f9e24ecc7,
    },
    Vector {
        source: "AESAVS, B.1, row 1",
        key: ZERO_128,
        plain: 0xf34481ec3cc627bacd5dc3fb08f273e6,
        encrypted: 0x0336763e966d92595a567cc9ce537f5e,
    },
    Vector {
        source: "AESAVS, B.1, row 2",
        key: ZERO_128,
        plain: 0x9798c4640bad75c7c3227db910174e72,
        encrypted: 0xa9a1631bf4996954ebc093957b234589,
    },
    Vector {
        source: "AESAVS, B.1, row 3",
        key: ZERO_128,
        plain: 0x96ab5c2ff612d9dfaae8c31f30c42168,
        encrypted: 0xff4f8391a6a40ca5b25d23bedd44a597,
    },
    Vector {
        source: "AESAVS, B.1, row 4",
        key: ZERO_128,
        plain: 0x6a118a874519e64e9963798a503f1d35,
        encrypted: 0xdc43be40be0e53712f7e2bf5ca707209,
    },
    Vector {
        source: "AESAVS, B.1, row 5",
        key: ZERO_128,
        plain: 0xcb9fceec81286ca3e989bd979b0cb284,
        encrypted: 0x92beedab1895a94faa69b632e5cc47ce,
    },
    Vector {
        source: "AESAVS, B.1, row 6",
        key: ZERO_128,
        plain: 0xb26aeb1874e47ca8358ff22378f09144,
        encrypted: 0x459264f4798f6a78bacb89c15ed3d601,
    },
    Vector {
        source: "AESAVS, B.1, row 7",
        key: ZERO_128,
        plain: 0x58c8e00b2631686d54eab84b91f0aca1,
        encrypted: 0x08a4e2efec8a8e3312ca7460b9040bbf,
    },
    Vector {
        source: "AESAVS, B.2, row 1",
        key: ZERO_192,
        plain: 0x1b077a6af4b7f98229de786d7516b639,
        encrypted: 0x275cfc0413d8ccb70513c3859b1d0f72,
    },
    Vector {
        source: "AESAVS, B.2, row 2",
        key: ZERO_192,
        plain: 0x9c2d8842e5f48f57648205d39a239af1,
        encrypted: 0xc9b8135ff1b5adc413dfd053b21bd96d,
    },
    Vector {
        source: "AESAVS, B.2, row 3",
        key: ZERO_192,
        plain: 0xbff52510095f518ecca60af4205444bb,
        encrypted: 0x4a3650c3371ce2eb35e389a171427440,
    },
    Vector {
        source: "AESAVS, B.2, row 4",
        key: ZERO_192,
        plain: 0x51719783d3185a535bd75adc65071ce1,
        encrypted: 0x4f354592ff7c8847d2d0870ca9481b7c,
    },
    Vector {
        source: "AESAVS, B.2, row 5",
        key: ZERO_192,
        plain: 0x26aa49dcfe7629a8901a69a9914e6dfd,
        encrypted: 0xd5e08bf9a182e857cf40b3a36ee248cc,
    },
    Vector {
        source: "AESAVS, B.2, row 6",
        key: ZERO_192,
        plain: 0x941a4773058224e1ef66d10e0a6ee782,
        encrypted: 0x067cd9d3749207791841562507fa9626,
    },
    Vector {
        source: "AESAVS, B.3, row 1",
        key: ZERO_256,
        plain: 0x014730f80ac625fe84f026c60bfd547d,
        encrypted: 0x5c9d844ed46f9885085e5d6a4f94c7d7,
    },
    Vector {
        source: "AESAVS, B.3, row 2",
        key: ZERO_256,
        plain: 0x0b24af36193ce4665f2825d7b4749c98,
        encrypted: 0xa9ff75bd7cf6613d3731c77c3b6d0c04,
    },
    Vector {
        source: "AESAVS, B.3, row 3",
        key: ZERO_256,
        plain: 0x761c1fe41a18acf20d241650611d90f1,
        encrypted: 0x623a52fcea5d443e48d9181ab32c7421,
    },
    Vector {
        source: "AESAVS, B.3, row 4",
        key: ZERO_256,
        plain: 0x8a560769d605868ad80d819bdba03771,
        encrypted: 0x38f2c7ae10612415d27ca190d27da8b4,
    },
    Vector {
        source: "AESAVS, B.3, row 5",
        key: ZERO_256,
        plain: 0x91fbef2d15a97816060bee1feaa49afe,
        encrypted: 0x1bc704f1bce135ceb810341b216d7abe,
    },
];
