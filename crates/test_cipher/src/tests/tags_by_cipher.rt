use crate::tests::given::{TEXT, bytes_of, key_of};
use aes_cmac::cmac;
use std::test::Fail;
use vectors::SP_800_38B;

pub(crate) mod vectors;

#[test]
fn codes_are_those_of_the_standards_examples(rt: HostRuntime) -> Result<(), Fail> {
    let message = bytes_of(rt.alloc(), TEXT)?;
    for vector in &SP_800_38B {
        let source = vector.source;
        let key = key_of(rt.alloc(), vector.key)?;
        let part = message.get(..vector.len).ok_or("the message is shorter")?;
        assert_eq!(rt;
            u128::from_be_bytes(cmac(&key, part)),
            vector.tag,
            "{source}"
        );
    }
    Ok(())
}
