//! The calls, a row each.

/// Passes the rows of the calls to a macro, after its own arguments: `with_calls!(walk!(args))` is `walk! { (args) rows }`.
/// A row has the call's name and number, its fields in the order of a request, what its replies carry, and what it is
/// checked for, in order, after `Busy`.
#[macro_export]
macro_rules! with_calls {
    ($walk:ident! $args:tt) => {
        $walk! {
            $args
            // 5.5
            [GetTokenInfo 1 { slot: u64 } TokenInfo (NoSlot)]
            [GetMechanismList 2 { slot: u64 } MechanismList (NoSlot)]
            [GetMechanismInfo 3 { slot: u64, mechanism: u64 } MechanismInfo (NoSlot, WrongMechanism)]
            [InitToken 4 { slot: u64, pin: Bytes, label: Bytes } Code
                (NoSlot, LabelLength, SessionOpen, PinLength, PinLocked)]
            [InitPin 5 { session: u64, pin: Bytes } Code (NoSession, NotSo, PinLength)]
            [SetPin 6 { session: u64, old_pin: Bytes, new_pin: Bytes } Code
                (NoSession, SessionReadOnly, PinNotSet, PinLength, PinLocked)]
            // 5.6
            [OpenSession 7 { slot: u64, flags: u64 } Session (NoSlot, NotSerial, UnknownFlag, SoLoggedIn, SessionLimit)]
            [CloseSession 8 { session: u64 } Code (NoSession)]
            [CloseAllSessions 9 { slot: u64 } Code (NoSlot)]
            [GetSessionInfo 10 { session: u64 } SessionInfo (NoSession)]
            [Login 11 { session: u64, user_type: u64, pin: Bytes } Code
                (NoSession, UnknownUserType, SameUserLoggedIn, OtherUserLoggedIn, ReadOnlySessionOpen, PinNotSet, PinLocked)]
            [Logout 12 { session: u64 } Code (NoSession, NobodyLoggedIn)]
            // 5.7
            [CreateObject 13 { session: u64, template: Template } Object
                (NoSession, TemplateRefused, TokenObjectReadOnly, PrivateObject, ObjectLimit)]
            [CopyObject 14 { session: u64, object: u64, template: Template } Object
                (NoSession, NoObject, NotCopyable, TemplateRefused, TokenObjectReadOnly, PrivateObject, ObjectLimit)]
            [DestroyObject 15 { session: u64, object: u64 } Code
                (NoSession, NoObject, TokenObjectReadOnly, NotDestroyable)]
            [GetObjectSize 16 { session: u64, object: u64 } ObjectSize (NoSession, NoObject)]
            [GetAttributeValue 17 { session: u64, object: u64, query: Query } AttributeValues (NoSession, NoObject)]
            [SetAttributeValue 18 { session: u64, object: u64, template: Template } Code
                (NoSession, NoObject, TokenObjectReadOnly, NotModifiable, TemplateRefused)]
            [FindObjectsInit 19 { session: u64, template: Template } Code (NoSession, OperationActive)]
            [FindObjects 20 { session: u64, max_count: u64 } Objects (NoSession, NoOperation)]
            [FindObjectsFinal 21 { session: u64 } Code (NoSession, NoOperation)]
            // 5.8
            [EncryptInit 22 { session: u64, mechanism: Option<Mechanism>, key: u64 } Code
                (NoSession, NoMechanism, OperationActive, WrongMechanism, WrongParameter, NoKey, WrongKeyType, KeyNotPermitted)]
            [Encrypt 23 { session: u64, data: Bytes, buffer_len: Option<u64> } Output
                (NoSession, NoOperation, DataTaken, DataLength, EncryptedDataLength, NoBuffer, SmallBuffer)]
            [EncryptUpdate 24 { session: u64, part: Bytes, buffer_len: Option<u64> } Output
                (NoSession, NoOperation, CounterEnd, NoBuffer, SmallBuffer)]
            [EncryptFinal 25 { session: u64, buffer_len: Option<u64> } Output
                (NoSession, NoOperation, DataLength, EncryptedDataLength, NoBuffer, SmallBuffer)]
            // 5.10
            [DecryptInit 26 { session: u64, mechanism: Option<Mechanism>, key: u64 } Code
                (NoSession, NoMechanism, OperationActive, WrongMechanism, WrongParameter, NoKey, WrongKeyType, KeyNotPermitted)]
            [Decrypt 27 { session: u64, encrypted_data: Bytes, buffer_len: Option<u64> } Output
                (NoSession, NoOperation, DataTaken, DataLength, EncryptedDataLength, NoBuffer, SmallBuffer)]
            [DecryptUpdate 28 { session: u64, encrypted_part: Bytes, buffer_len: Option<u64> } Output
                (NoSession, NoOperation, CounterEnd, NoBuffer, SmallBuffer)]
            [DecryptFinal 29 { session: u64, buffer_len: Option<u64> } Output
                (NoSession, NoOperation, DataLength, EncryptedDataLength, NoBuffer, SmallBuffer)]
            // 5.13
            [SignInit 30 { session: u64, mechanism: Option<Mechanism>, key: u64 } Code
                (NoSession, NoMechanism, OperationActive, WrongMechanism, WrongParameter, NoKey, WrongKeyType, KeyNotPermitted)]
            [Sign 31 { session: u64, data: Bytes, buffer_len: Option<u64> } Output
                (NoSession, NoOperation, DataTaken, NoBuffer, SmallBuffer)]
            [SignUpdate 32 { session: u64, part: Bytes } Code (NoSession, NoOperation)]
            [SignFinal 33 { session: u64, buffer_len: Option<u64> } Output
                (NoSession, NoOperation, NoBuffer, SmallBuffer)]
            // 5.15
            [VerifyInit 34 { session: u64, mechanism: Option<Mechanism>, key: u64 } Code
                (NoSession, NoMechanism, OperationActive, WrongMechanism, WrongParameter, NoKey, WrongKeyType, KeyNotPermitted)]
            [Verify 35 { session: u64, data: Bytes, signature: Bytes } Code
                (NoSession, NoOperation, DataTaken, SignatureLength)]
            [VerifyUpdate 36 { session: u64, part: Bytes } Code (NoSession, NoOperation)]
            [VerifyFinal 37 { session: u64, signature: Bytes } Code (NoSession, NoOperation, SignatureLength)]
            // 5.18
            [GenerateKey 38 { session: u64, mechanism: Mechanism, template: Template } Object
                (NoSession, WrongMechanism, WrongParameter, TemplateRefused, TokenObjectReadOnly, PrivateObject, ObjectLimit)]
            [WrapKey 39 { session: u64, mechanism: Mechanism, wrapping_key: u64, key: u64, buffer_len: Option<u64> } Output
                (NoSession, WrongMechanism, WrongParameter, NoWrappingKey, NoKey, WrongWrappingKeyType, KeyNotPermitted,
                    KeyUnextractable, KeyNotWrappable, KeyLength, NoBuffer, SmallBuffer)]
            [UnwrapKey 40 { session: u64, mechanism: Mechanism, unwrapping_key: u64, wrapped_key: Bytes, template: Template } Object
                (NoSession, WrongMechanism, WrongParameter, NoUnwrappingKey, WrongUnwrappingKeyType, KeyNotPermitted,
                    WrappedLength, TemplateRefused, WrappedLengthOfType, TokenObjectReadOnly, PrivateObject, ObjectLimit)]
            // 5.19
            [GenerateRandom 41 { session: u64, len: u64 } Random (NoSession, RandomLength)]
        }
    };
}
