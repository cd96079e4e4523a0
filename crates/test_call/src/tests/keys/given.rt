//! What the scripts speak of beside what all do: keys, mechanisms, and the vectors of their standards.

use ck_types::{AttrType, Rv};
use test_scripts::given::*;
use test_scripts::{Given, GivenMechanism, Row, Step, Told};

/// CKM_SHA224_HMAC, CKM_SHA384_HMAC and CKM_SHA512_HMAC.
pub(super) const SHA224_HMAC: Option<GivenMechanism> = Some((0x256, b""));

pub(super) const SHA384_HMAC: Option<GivenMechanism> = Some((0x261, b""));

pub(super) const SHA512_HMAC: Option<GivenMechanism> = Some((0x271, b""));

/// The key of RFC 4231, 4.2, and its message.
const HMAC_KEY_BYTES: &[u8] =
    b"\x0b\x0b\x0b\x0b\x0b\x0b\x0b\x0b\x0b\x0b\x0b\x0b\x0b\x0b\x0b\x0b\x0b\x0b\x0b\x0b";

pub(super) const HI_THERE: &[u8] = b"Hi There";

/// The MAC of no message under the key of SP 800-38B.
pub(super) const CODE_OF_NOTHING: &[u8] =
    b"\xbb\x1d\x69\x29\xe9\x59\x37\x28\x7f\xa3\x7d\x12\x9b\x75\x67\x46";

pub(super) const SHA256_CODE: &[u8] =
    b"\xb0\x34\x4c\x61\xd8\xdb\x38\x53\x5c\xa8\xaf\xce\xaf\x0b\xf1\x2b\x88\x1d\xc2\x00\xc9\x83\x3d\xa7\x26\xe9\x37\x6c\x2e\x32\xcf\xf7";

/// The same with its last bit flipped, and without its last byte.
pub(super) const OTHER_CODE: &[u8] =
    b"\xb0\x34\x4c\x61\xd8\xdb\x38\x53\x5c\xa8\xaf\xce\xaf\x0b\xf1\x2b\x88\x1d\xc2\x00\xc9\x83\x3d\xa7\x26\xe9\x37\x6c\x2e\x32\xcf\xf6";

pub(super) const SHORTER_CODE: &[u8] =
    b"\xb0\x34\x4c\x61\xd8\xdb\x38\x53\x5c\xa8\xaf\xce\xaf\x0b\xf1\x2b\x88\x1d\xc2\x00\xc9\x83\x3d\xa7\x26\xe9\x37\x6c\x2e\x32\xcf";

pub(super) const SHA224_CODE: &[u8] =
    b"\x89\x6f\xb1\x12\x8a\xbb\xdf\x19\x68\x32\x10\x7c\xd4\x9d\xf3\x3f\x47\xb4\xb1\x16\x99\x12\xba\x4f\x53\x68\x4b\x22";

pub(super) const SHA384_CODE: &[u8] =
    b"\xaf\xd0\x39\x44\xd8\x48\x95\x62\x6b\x08\x25\xf4\xab\x46\x90\x7f\
\x15\xf9\xda\xdb\xe4\x10\x1e\xc6\x82\xaa\x03\x4c\x7c\xeb\xc5\x9c\
\xfa\xea\x9e\xa9\x07\x6e\xde\x7f\x4a\xf1\x52\xe8\xb2\xfa\x9c\xb6";

pub(super) const SHA512_CODE: &[u8] =
    b"\x87\xaa\x7c\xde\xa5\xef\x61\x9d\x4f\xf0\xb4\x24\x1a\x1d\x6c\xb0\
\x23\x79\xf4\xe2\xce\x4e\xc2\x78\x7a\xd0\xb3\x05\x45\xe1\x7c\xde\
\xda\xa8\x33\xb7\xd6\xb8\xa7\x02\x03\x8b\x27\x4e\xae\xa3\xf4\xe4\
\xbe\x9d\x91\x4e\xeb\x61\xf1\x70\x2e\x69\x6c\x20\x3a\x12\x68\x54";

/// A generic secret of a session.
const HMAC_KEY: Given = &[
    (AttrType::Class, SECRET_KEY),
    (AttrType::KeyType, GENERIC_SECRET),
    (AttrType::Value, HMAC_KEY_BYTES),
    (AttrType::Private, NO),
];

/// The handles of an AES key and of the generic secret after `KEYS`.
pub(super) const AES_KEY: u64 = 1;

pub(super) const SECRET: u64 = 2;

pub(super) const KEYS: &[Row] = &[
    (A, OPEN, Told::Session(1)),
    (A, Step::CreateObject(1, CMAC_KEY), Told::Object(AES_KEY)),
    (A, Step::CreateObject(1, HMAC_KEY), Told::Object(SECRET)),
];

pub(super) const WRONG_SIGNATURE: Told = Told::Code(Rv::SignatureInvalid);

pub(super) const SIGNATURE_LENGTH: Told = Told::Code(Rv::SignatureLenRange);
