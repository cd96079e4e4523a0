//! Of two faults of a call, the code is that of the first in the call's table.

mod cases;
mod cipher_cases;
mod given;
mod mac_cases;
mod wrap_cases;

use cases::{CASES, LEFT_OUT, SECONDS};
use cipher_cases::{DECRYPTING_CASES, ENCRYPTING_CASES};
use ck_types::Rv;
use given::{BEFORE, BEGUN, Case, WRITES};
use mac_cases::{SIGNING_CASES, VERIFYING_CASES};
use precede::Condition as Fault;
use std::alloc::Global;
use std::test::*;
use test_scripts::given::*;
use test_scripts::{Bench, Pair, Step, Told, expect_neighbours};
use wrap_cases::{UNWRAPPING_CASES, WRAPPING_CASES};

/// The cases of all tables.
const ALL_CASES: &[&[Case]] = &[
    CASES,
    ENCRYPTING_CASES,
    DECRYPTING_CASES,
    SIGNING_CASES,
    VERIFYING_CASES,
    WRAPPING_CASES,
    UNWRAPPING_CASES,
];

/// How long the output of a call is: a block, a tag of CKM_AES_CMAC, or the wrapping of a key of 16 bytes.
fn output_len(step: Step) -> u64 {
    match step {
        Step::WrapKey(..) => 24,
        _ => 16,
    }
}

/// What a call returns whose first fault this is.
fn told_of(fault: Fault, step: Step) -> Result<Told, Fail> {
    Ok(match fault {
        Fault::Busy => FAILED,
        Fault::NoSlot => NO_SLOT,
        Fault::NotSerial => Told::Code(Rv::SessionParallelNotSupported),
        Fault::UnknownFlag => Told::Code(Rv::ArgumentsBad),
        Fault::SessionLimit => SESSION_LIMIT,
        Fault::NoSession => NO_SESSION,
        Fault::NoObject => NO_OBJECT,
        Fault::NotCopyable | Fault::NotDestroyable | Fault::NotModifiable => PROHIBITED,
        Fault::TemplateRefused => Told::Code(Rv::AttributeValueInvalid),
        Fault::TokenObjectReadOnly => READ_ONLY_SESSION,
        Fault::PrivateObject => NOT_LOGGED_IN,
        Fault::ObjectLimit => OBJECT_LIMIT,
        Fault::NoMechanism => OK,
        Fault::OperationActive => OPERATION_ACTIVE,
        Fault::WrongMechanism => Told::Code(Rv::MechanismInvalid),
        Fault::WrongParameter => Told::Code(Rv::MechanismParamInvalid),
        Fault::NoKey => NO_KEY,
        Fault::WrongKeyType => Told::Code(Rv::KeyTypeInconsistent),
        Fault::KeyNotPermitted => Told::Code(Rv::KeyFunctionNotPermitted),
        Fault::NoOperation => NO_OPERATION,
        Fault::DataTaken => OPERATION_ACTIVE,
        Fault::RandomLength => Told::Code(Rv::ArgumentsBad),
        Fault::DataLength | Fault::CounterEnd => Told::Code(Rv::DataLenRange),
        Fault::EncryptedDataLength => Told::Code(Rv::EncryptedDataLenRange),
        Fault::SignatureLength => Told::Code(Rv::SignatureLenRange),
        Fault::NoBuffer => Told::Length(output_len(step)),
        Fault::SmallBuffer => Told::BufferTooSmall(output_len(step)),
        _ => return told_of_wrapping(fault),
    })
}

/// The same of a call that wraps or unwraps.
fn told_of_wrapping(fault: Fault) -> Result<Told, Fail> {
    Ok(match fault {
        Fault::NoWrappingKey => Told::Code(Rv::WrappingKeyHandleInvalid),
        Fault::WrongWrappingKeyType => Told::Code(Rv::WrappingKeyTypeInconsistent),
        Fault::KeyUnextractable => Told::Code(Rv::KeyUnextractable),
        Fault::KeyNotWrappable => Told::Code(Rv::KeyNotWrappable),
        Fault::KeyLength => Told::Code(Rv::KeySizeRange),
        Fault::NoUnwrappingKey => Told::Code(Rv::UnwrappingKeyHandleInvalid),
        Fault::WrongUnwrappingKeyType => Told::Code(Rv::UnwrappingKeyTypeInconsistent),
        Fault::WrappedLength | Fault::WrappedLengthOfType => Told::Code(Rv::WrappedKeyLenRange),
        _ => return Err("no call of these has this fault".into()),
    })
}

/// A bench on which the fault can hold.
fn bench_for(alloc: Global, fault: Fault) -> Result<Bench, Fail> {
    let mut bench = Bench::new(alloc)?;
    prepare(&mut bench, fault)?;
    Ok(bench)
}

fn prepare(bench: &mut Bench, fault: Fault) -> Result<(), Fail> {
    const OBJECT: Step = Step::CreateObject(WRITES, SESSION_DATA);
    bench.play(BEFORE)?;
    match fault {
        Fault::SessionLimit => bench.fill((A, OPEN), 9, 64),
        Fault::ObjectLimit => bench.fill((A, OBJECT), 12, 267),
        _ => Ok(()),
    }
}

/// Sees that the second fault's code is returned where it holds alone, and the first's where both do.
fn expect_order(bench: &mut Bench, case: Case) -> Result<(), Fail> {
    let (first, second, alone, both) = case;
    bench.expect(second, (A, alone, told_of(second, alone)?))?;
    bench.expect((first, second), (A, both, told_of(first, both)?))
}

/// Sees the order in each case, each on a bench of its own.
fn expect_orders(alloc: Global, cases: &[Case]) -> Result<(), Fail> {
    for case in cases {
        let mut bench = bench_for(alloc, case.1)?;
        expect_order(&mut bench, *case)?;
    }
    Ok(())
}

#[test]
fn of_two_faults_the_first_is_told(rt: HostRuntime) -> Result<(), Fail> {
    expect_orders(rt.alloc(), CASES)
}

#[test]
fn of_two_faults_of_a_cipher_the_first_is_told(rt: HostRuntime) -> Result<(), Fail> {
    expect_orders(rt.alloc(), ENCRYPTING_CASES)?;
    expect_orders(rt.alloc(), DECRYPTING_CASES)
}

#[test]
fn of_two_faults_of_a_code_the_first_is_told(rt: HostRuntime) -> Result<(), Fail> {
    expect_orders(rt.alloc(), SIGNING_CASES)?;
    expect_orders(rt.alloc(), VERIFYING_CASES)
}

#[test]
fn of_two_faults_of_a_wrapping_the_first_is_told(rt: HostRuntime) -> Result<(), Fail> {
    expect_orders(rt.alloc(), WRAPPING_CASES)?;
    expect_orders(rt.alloc(), UNWRAPPING_CASES)
}

/// Sees that each call with its second fault returns that one's code.
fn expect_seconds(bench: &mut Bench) -> Result<(), Fail> {
    for (fault, step) in SECONDS {
        bench.expect(fault, (A, *step, told_of(*fault, *step)?))?;
    }
    Ok(())
}

/// Sees that each of them fails while a call is pending.
fn expect_busy(bench: &mut Bench) -> Result<(), Fail> {
    const ASKS: Step = Step::Encrypt(BEGUN, TEXT, Some(16));
    bench.expect("the question", (A, ASKS, Told::Nothing))?;
    for (fault, step) in SECONDS {
        bench.expect((Fault::Busy, fault), (A, *step, FAILED))?;
    }
    bench.expect("its result", (A, Step::Finish, CIPHERTEXT))
}

#[test]
fn a_pending_question_comes_before_every_fault(rt: HostRuntime) -> Result<(), Fail> {
    let mut bench = bench_for(rt.alloc(), Fault::Busy)?;
    expect_seconds(&mut bench)?;
    expect_busy(&mut bench)
}

/// The faults of all cases, each two with the call that has both.
fn pairs(alloc: Global) -> Result<Vec<Pair>, Fail> {
    let mut pairs = Vec::new(alloc);
    for cases in ALL_CASES {
        for (first, second, _, both) in *cases {
            pairs.push((*first, *second, *both))?;
        }
    }
    Ok(pairs)
}

#[test]
fn each_pair_of_neighbours_has_a_case_or_is_left_out(rt: HostRuntime) -> Result<(), Fail> {
    expect_neighbours(rt.alloc(), SECONDS, &pairs(rt.alloc())?, LEFT_OUT)
}
