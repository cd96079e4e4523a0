//! Published values, in hexadecimal digits.

/// A key, a message and its tags under the four hash functions.
pub struct Tags {
    pub key: &'static [u8],
    pub message: &'static [u8],
    pub sha224: &'static str,
    pub sha256: &'static str,
    pub sha384: &'static str,
    pub sha512: &'static str,
}

/// Test cases 1 to 7 of RFC 4231, sections 4.2 to 4.8. Case 5 gives the first 128 bits of its tags.
pub static RFC_4231: [Tags; 7] = [
    Tags {
        key: &[0x0b; 20],
        message: b"Hi There",
        sha224: "896fb1128abbdf196832107cd49df33f47b4b1169912ba4f53684b22",
        sha256: "b0344c61d8db38535ca8afceaf0bf12b881dc200c9833da726e9376c2e32cff7",
        sha384: "afd03944d84895626b0825f4ab46907f15f9dadbe4101ec682aa034c7cebc59cfaea9ea9076ede7f4af152e8b2fa9cb6",
        sha512: "87aa7cdea5ef619d4ff0b4241a1d6cb02379f4e2ce4ec2787ad0b30545e17cdedaa833b7d6b8a702038b274eaea3f4e4be9d914eeb61f1702e696c203a126854",
    },
    Tags {
        key: b"Jefe",
        message: b"what do ya want for nothing?",
        sha224: "a30e01098bc6dbbf45690f3a7e9e6d0f8bbea2a39e6148008fd05e44",
        sha256: "5bdcc146bf60754e6a042426089575c75a003f089d2739839dec58b964ec3843",
        sha384: "af45d2e376484031617f78d2b58a6b1b9c7ef464f5a01b47e42ec3736322445e8e2240ca5e69e2c78b3239ecfab21649",
        sha512: "164b7a7bfcf819e2e395fbe73b56e0a387bd64222e831fd610270cd7ea2505549758bf75c05a994a6d034f65f8f0e6fdcaeab1a34d4a6b4b636e070a38bce737",
    },
    Tags {
        key: &[0xaa; 20],
        message: &[0xdd; 50],
        sha224: "7fb3cb3588c6c1f6ffa9694d7d6ad2649365b0c1f65d69d1ec8333ea",
        sha256: "773ea91e36800e46854db8ebd09181a72959098b3ef8c122d9635514ced565fe",
        sha384: "88062608d3e6ad8a0aa2ace014c8a86f0aa635d947ac9febe83ef4e55966144b2a5ab39dc13814b94e3ab6e101a34f27",
        sha512: "fa73b0089d56a284efb0f0756c890be9b1b5dbdd8ee81a3655f83e33b2279d39bf3e848279a722c806b485a47e67c807b946a337bee8942674278859e13292fb",
    },
    Tags {
        key: &[
            1, 2, 3, 4, 5, 6, 7, 8, 9, 10, 11, 12, 13, 14, 15, 16, 17, 18, 19, 20, 21, 22, 23, 24,
            25,
        ],
        message: &[0xcd; 50],
        sha224: "6c11506874013cac6a2abc1bb382627cec6a90d86efc012de7afec5a",
        sha256: "82558a389a443c0ea4cc819899f2083a85f0faa3e578f8077a2e3ff46729665b",
        sha384: "3e8a69b7783c25851933ab6290af6ca77a9981480850009cc5577c6e1f573b4e6801dd23c4a7d679ccf8a386c674cffb",
        sha512: "b0ba465637458c6990e5a8c5f61d4af7e576d97ff94b872de76f8050361ee3dba91ca5c11aa25eb4d679275cc5788063a5f19741120c4f2de2adebeb10a298dd",
    },
    Tags {
        key: &[0x0c; 20],
        message: b"Test With Truncation",
        sha224: "0e2aea68a90c8d37c988bcdb9fca6fa8",
        sha256: "a3b6167473100ee06e0c796c2955552b",
        sha384: "3abf34c3503b2a23a46efc619baef897",
        sha512: "415fad6271580a531d4179bc891d87a6",
    },
    Tags {
        key: &[0xaa; 131],
        message: b"Test Using Larger Than Block-Size Key - Hash Key First",
        sha224: "95e9a0db962095adaebe9b2d6f0dbce2d499f112f2d2b7273fa6870e",
        sha256: "60e431591ee0b67f0d8a26aacbf5b77f8e0bc6213728c5140546040f0ee37f54",
        sha384: "4ece084485813e9088d2c63a041bc5b44f9ef1012a2b588f3cd11f05033ac4c60c2ef6ab4030fe8296248df163f44952",
        sha512: "80b24263c7c1a3ebb71493c1dd7be8b49b46d1f41b4aeec1121b013783f8f3526b56d037e05f2598bd0fd2215d6a1e5295e64f73f63f0aec8b915a985d786598",
    },
    Tags {
        key: &[0xaa; 131],
        message: b"This is a test using a larger than block-size key and a larger than block-size data. \
The key needs to be hashed before being used by the HMAC algorithm.",
        sha224: "3a854166ac5d9f023f54d517d0b39dbd946770db9c2b95c9f6f565d1",
        sha256: "9b09ffa71b942fcb27635fbcd5b0e944bfdc63644f0713938a7f51535c3a35e2",
        sha384: "6617178e941f020d351e2f254e8fd32c602420feb0b8fb9adccebb82461e99c5a678cc31e799176d3860e6110c46523e",
        sha512: "e37b6a775dc87dbaa4dfa9f96e5e3ffddebd71f8867289865df5a32d20cdc944b6022cac3c4982b10d5eeb55c3e4de15134676fb6de0446065c97440fa8c6a58",
    },
];

/// Keys of no bytes, and of a block's size, one byte less and one more, by the module hmac of Python
/// 3.11: `hmac.new(b"a" * length, b"Hi There", "sha224").hexdigest()`, and so for the others.
pub static KEY_LENGTHS: [Tags; 7] = [
    Tags {
        key: &[],
        message: b"Hi There",
        sha224: "da8f94de91d62154b55ea4e8d6eb133f6d553bcd1f1ba205b9488945",
        sha256: "e48411262715c8370cd5e7bf8e82bef53bd53712d007f3429351843b77c7bb9b",
        sha384: "da5393cef424a670d6db42c6ed6e7920779dfa4cbb98bf1c2e9c12ae10d10905d0c9e9d576c2a613be54b8daea246d4b",
        sha512: "f7688a104326d36c1940f6d28d746c0661d383e0d14fe8a04649444777610f5dd9565a36846ab9e9e734cf380d3a070d8ef021b5f3a50c481710a464968e3419",
    },
    Tags {
        key: &[b'a'; 63],
        message: b"Hi There",
        sha224: "c082242c731ca91eb7fdc0daaba7327df566a9b7cdff8dcc997a71dc",
        sha256: "c8201c362ba6ae8329aedbeb0fcb75ef7b0906d5db4ccc79d9c6bd67683d531f",
        sha384: "fff7987856fcc2b89398ef03b2eee199cb49837c4bef059c9d67de70a55190dfe759ec4a5f5b01335c6d41b73f4a210a",
        sha512: "3f368475b95817a246dad5800abddf414d759d56f5b198d2f005794d83923264d01af868d63f0a605395998e1bc8bc715c3238b974de9308f90c7259ba4fb26e",
    },
    Tags {
        key: &[b'a'; 64],
        message: b"Hi There",
        sha224: "5ee6845534047ff2d7552268d12aa9c13773ba97f4b8c7333379f978",
        sha256: "8baa90bbdb682a68117017f78554ea455204e9a027ae16e876274fa1678a81d5",
        sha384: "8167e172b19c4ddfe859ff6fb236c2e99162ae079984b5589f393e2b55717fb6fbb07103c8a6827c15f48cdb361cc651",
        sha512: "3d4054823637cd2de9c3da36ede655df52cdd948b09bf9b524e424c628c3a2e43f284b7d838f070c31fb7932abc0fa9bc26fb617f7fd661dcc2cd52e1bb77bb9",
    },
    Tags {
        key: &[b'a'; 65],
        message: b"Hi There",
        sha224: "f0705e849a65e816752432b6c1258528dc809cb93e778a5d160b31c2",
        sha256: "6bb9e245ec11b6cd03dd6d09273548d5131b2af1baa1dc0c315048cff2aa7094",
        sha384: "731704a772e3452b8c1bb28e61413cdfe54b0658f30c8a7ae3759ffd16ba7745c3d5bfbab61ee79ec7a0233f70180fbd",
        sha512: "ef2c50290db31252bacd0eeb5ac39ca9917d31df0a0ebfd5ff58812e8d2d78842873fcb0813402c0df26fb418847c64d7944f15216b5a1f95949774ae701d6db",
    },
    Tags {
        key: &[b'a'; 127],
        message: b"Hi There",
        sha224: "ebd10d2a09dcaac0a73113d232c430253523828f7a5e7d2dd642f1a2",
        sha256: "d2026d18be8f883c2e65bb3515cd4824f501b07458d38c176763594ff5dc702f",
        sha384: "1725e25962b9752dd2e23d7ed4ee1124f304eb0dd498df2d982f2711c10b1db78788c5e1cae8529fbdbe8f488bb1c1c1",
        sha512: "b24f2eaf4794720d2659dc9a5cbe691f4d94e08529d5bbb198b6b816e49241294ec65ea58aa61111b0f07e4707b891c7b607227f7c61e2f44673a3fbe4339b4d",
    },
    Tags {
        key: &[b'a'; 128],
        message: b"Hi There",
        sha224: "7159361424d0a93b4109253178d4ee52936a66386de2d8d3d3bac5dd",
        sha256: "a8a934f649b769c447de13108f6ac3f263881d23312b935d9ecaf8e4b58f4647",
        sha384: "2c9768fe7ea10768a0df20b416019c6a67ee5ff6a4b7f384dedea1236fd03b0a2e8f57a8f816cf204951c5dadd8fd151",
        sha512: "7ef19e856b82d07f64da282c8dc5666e6f107129cbd9dcccc3aa5c2ad2872e2f6343f65f751ac35f3ad38aa4117a1069e8b181d6e34714e8c60b6081ad09ce83",
    },
    Tags {
        key: &[b'a'; 129],
        message: b"Hi There",
        sha224: "ac0db5fa9e2385e804078a6e75042b01e270f98ef3c05b8fff5340aa",
        sha256: "cb65e75efd6cf5f5d22790f017bb69b155d2363b1ab4bf50e7212e4dad8bfb46",
        sha384: "eeb41e40265bf421028500aab6d719ce66569ccdcc9faca4570ee8dcdc0142b0f74d3862d0e297645a4fef250583e257",
        sha512: "edab10e86678909a9ae7d7aefa74a4c5f4b66bd326e35dad48eaaa36159286cfdd76bf5e4eb24b4c59b8bc02e0ac806af22c8b060a37ba79423c2f88d6ddffe2",
    },
];

/// A password, a salt, a count of rounds, and the key of 32 bytes that PBKDF2 makes of them with
/// HMAC-SHA-256.
pub struct Derivation {
    pub password: &'static [u8],
    pub salt: &'static [u8],
    pub rounds: u32,
    pub key: &'static str,
}

/// The first two are of RFC 7914, section 11 (the first half of its keys). The next six have the passwords and salts of RFC 6070,
/// section 2. Their keys and those of the last two are what Python 3.11's
/// `hashlib.pbkdf2_hmac("sha256", password, salt, rounds)` returns.
pub static DERIVATIONS: [Derivation; 10] = [
    Derivation {
        password: b"passwd",
        salt: b"salt",
        rounds: 1,
        key: "55ac046e56e3089fec1691c22544b605f94185216dde0465e68b9d57c20dacbc",
    },
    Derivation {
        password: b"Password",
        salt: b"NaCl",
        rounds: 80000,
        key: "4ddcd8f60b98be21830cee5ef22701f9641a4418d04c0414aeff08876b34ab56",
    },
    Derivation {
        password: b"password",
        salt: b"salt",
        rounds: 1,
        key: "120fb6cffcf8b32c43e7225256c4f837a86548c92ccc35480805987cb70be17b",
    },
    Derivation {
        password: b"password",
        salt: b"salt",
        rounds: 2,
        key: "ae4d0c95af6b46d32d0adff928f06dd02a303f8ef3c251dfd6e2d85a95474c43",
    },
    Derivation {
        password: b"password",
        salt: b"salt",
        rounds: 3,
        key: "ad35240ac683febfaf3cd49d845473fbbbaa2437f5f82d5a415ae00ac76c6bfc",
    },
    Derivation {
        password: b"password",
        salt: b"salt",
        rounds: 4096,
        key: "c5e478d59288c841aa530db6845c4c8d962893a001ce4e11a4963873aa98134a",
    },
    Derivation {
        password: b"passwordPASSWORDpassword",
        salt: b"saltSALTsaltSALTsaltSALTsaltSALTsalt",
        rounds: 4096,
        key: "348c89dbcbd32b2f32d814b8116e84cf2b17347ebc1800181c4e2a1fb8dd53e1",
    },
    Derivation {
        password: b"pass\0word",
        salt: b"sa\0lt",
        rounds: 4096,
        key: "89b69d0516f829893c696226650a86878c029ac13ee276509d5ae58b6466a724",
    },
    Derivation {
        password: &[],
        salt: &[],
        rounds: 1,
        key: "f7ce0b653d2d72a4108cf5abe912ffdd777616dbbb27a70e8204f3ae2d0f6fad",
    },
    Derivation {
        password: &[b'a'; 65],
        salt: b"salt",
        rounds: 10,
        key: "fa44326fa0aef89bc2394f8ef263183a45ad5c2a71f301a354f3beee63816180",
    },
];
