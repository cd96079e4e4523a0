// Known answers, in words of 64 bits with the first byte highest.
//
// SP 800-38A (2001), appendix F: of two sections one encrypts and the next one decrypts the same
// text. All of them have the one plain text, CBC one initialization vector and CTR one first counter.

/// A mode of the standard.
#[derive(Clone, Copy)]
pub(crate) enum Mode {
    Ecb,
    Cbc,
    Ctr,
}

/// A known answer.
pub(crate) struct Vector {
    pub(crate) source: &'static str,
    pub(crate) mode: Mode,
    pub(crate) key: &'static [u64],
    pub(crate) encrypted: &'static [u64],
}

pub(crate) const KEY_128: &[u64] = &[0x2b7e151628aed2a6, 0xabf7158809cf4f3c];

pub(crate) const KEY_192: &[u64] = &[0x8e73b0f7da0e6452, 0xc810f32b809079e5, 0x62f8ead2522c6b7b];

pub(crate) const KEY_256: &[u64] = &[
    0x603deb1015ca71be,
    0x2b73aef0857d7781,
    0x1f352c073b6108d7,
    0x2d9810a30914dff4,
];

/// The initialization vector of CBC.
pub(crate) const IV: u128 = 0x000102030405060708090a0b0c0d0e0f;

/// The first counter of CTR.
pub(crate) const COUNTER: u128 = 0xf0f1f2f3f4f5f6f7f8f9fafbfcfdfeff;

/// The table.
pub(crate) static SP_800_38A: [Vector; 9] = [
    Vector {
        source: "F.1.1 and F.1.2",
        mode: Mode::Ecb,
        key: KEY_128,
        encrypted: &[
            0x3ad77bb40d7a3660,
            0xa89ecaf32466ef97,
            0xf5d3d58503b9699d,
            0xe785895a96fdbaaf,
            0x43b1cd7f598ece23,
            0x881b00e3ed030688,
            0x7b0c785e27e8ad3f,
            0x8223207104725dd4,
        ],
    },
    Vector {
        source: "F.1.3 and F.1.4",
        mode: Mode::Ecb,
        key: KEY_192,
        encrypted: &[
            0xbd334f1d6e45f25f,
            0xf712a214571fa5cc,
            0x974104846d0ad3ad,
            0x7734ecb3ecee4eef,
            0xef7afd2270e2e60a,
            0xdce0ba2face6444e,
            0x9a4b41ba738d6c72,
            0xfb16691603c18e0e,
        ],
    },
    Vector {
        source: "F.1.5 and F.1.6",
        mode: Mode::Ecb,
        key: KEY_256,
        encrypted: &[
            0xf3eed1bdb5d2a03c,
            0x064b5a7e3db181f8,
            0x591ccb10d410ed26,
            0xdc5ba74a31362870,
            0xb6ed21b99ca6f4f9,
            0xf153e7b1beafed1d,
            0x23304b7a39f9f3ff,
            0x067d8d8f9e24ecc7,
        ],
    },
    Vector {
        source: "F.2.1 and F.2.2",
        mode: Mode::Cbc,
        key: KEY_128,
        encrypted: &[
            0x7649abac8119b246,
            0xcee98e9b12e9197d,
            0x5086cb9b507219ee,
            0x95db113a917678b2,
            0x73bed6b8e3c1743b,
            0x7116e69e22229516,
            0x3ff1caa1681fac09,
            0x120eca307586e1a7,
        ],
    },
    Vector {
        source: "F.2.3 and F.2.4",
        mode: Mode::Cbc,
        key: KEY_192,
        encrypted: &[
            0x4f021db243bc633d,
            0x7178183a9fa071e8,
            0xb4d9ada9ad7dedf4,
            0xe5e738763f69145a,
            0x571b242012fb7ae0,
            0x7fa9baac3df102e0,
            0x08b0e27988598881,
            0xd920a9e64f5615cd,
        ],
    },
    Vector {
        source: "F.2.5 and F.2.6",
        mode: Mode::Cbc,
        key: KEY_256,
        encrypted: &[
            0xf58c4c04d6e5f1ba,
            0x779eabfb5f7bfbd6,
            0x9cfc4e967edb808d,
            0x679f777bc6702c7d,
            0x39f23369a9d9bacf,
            0xa530e26304231461,
            0xb2eb05e2c39be9fc,
            0xda6c19078c6a9d1b,
        ],
    },
    Vector {
        source: "F.5.1 and F.5.2",
        mode: Mode::Ctr,
        key: KEY_128,
        encrypted: &[
            0x874d6191b620e326,
            0x1bef6864990db6ce,
            0x9806f66b7970fdff,
            0x8617187bb9fffdff,
            0x5ae4df3edbd5d35e,
            0x5b4f09020db03eab,
            0x1e031dda2fbe03d1,
            0x792170a0f3009cee,
        ],
    },
    Vector {
        source: "F.5.3 and F.5.4",
        mode: Mode::Ctr,
        key: KEY_192,
        encrypted: &[
            0x1abc932417521ca2,
            0x4f2b0459fe7e6e0b,
            0x090339ec0aa6faef,
            0xd5ccc2c6f4ce8e94,
            0x1e36b26bd1ebc670,
            0xd1bd1d665620abf7,
            0x4f78a7f6d2980958,
            0x5a97daec58c6b050,
        ],
    },
    Vector {
        source: "F.5.5 and F.5.6",
        mode: Mode::Ctr,
        key: KEY_256,
        encrypted: &[
            0x601ec313775789a5,
            0xb7a7f504bbf3d228,
            0xf443e3ca4d62b59a,
            0xca84e990cacaf5c5,
            0x2b0930daa23de94c,
            0xe87017ba2d84988d,
            0xdfc9c58db67aada6,
            0x13c2dd08457941a6,
        ],
    },
];
