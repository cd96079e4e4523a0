use ck_types::Rv;
use precede::{Condition, Facts, first_fault, rows};

/// The code of the maker in each test: CKR_TEMPLATE_INCOMPLETE, which is no row's own.
const MADE: u64 = 0xd0;

/// The codes of each call's rows in order, by their numbers in pkcs11t.h; the row of the template has `MADE`.
const CODES: &[(u16, &[u64])] = &[
    (1, &[0x6, 0x3]),
    (2, &[0x6, 0x3]),
    (3, &[0x6, 0x3, 0x70]),
    (4, &[0x6, 0x3, 0x7, 0xb6, 0xa2, 0xa4]),
    (5, &[0x6, 0xb3, 0x101, 0xa2]),
    (6, &[0x6, 0xb3, 0xb5, 0x102, 0xa2, 0xa4]),
    (7, &[0x6, 0x3, 0xb4, 0x7, 0xb8, 0xb1]),
    (8, &[0x6, 0xb3]),
    (9, &[0x6, 0x3]),
    (10, &[0x6, 0xb3]),
    (11, &[0x6, 0xb3, 0x103, 0x100, 0x104, 0xb7, 0x102, 0xa4]),
    (12, &[0x6, 0xb3, 0x101]),
    (13, &[0x6, 0xb3, MADE, 0xb5, 0x101, 0x31]),
    (14, &[0x6, 0xb3, 0x82, 0x1b, MADE, 0xb5, 0x101, 0x31]),
    (15, &[0x6, 0xb3, 0x82, 0xb5, 0x1b]),
    (16, &[0x6, 0xb3, 0x82]),
    (17, &[0x6, 0xb3, 0x82]),
    (18, &[0x6, 0xb3, 0x82, 0xb5, 0x1b, MADE]),
    (19, &[0x6, 0xb3, 0x90]),
    (20, &[0x6, 0xb3, 0x91]),
    (21, &[0x6, 0xb3, 0x91]),
    (22, &[0x6, 0xb3, 0x0, 0x90, 0x70, 0x71, 0x60, 0x63, 0x68]),
    (23, &[0x6, 0xb3, 0x91, 0x90, 0x21, 0x41, 0x0, 0x150]),
    (24, &[0x6, 0xb3, 0x91, 0x21, 0x0, 0x150]),
    (25, &[0x6, 0xb3, 0x91, 0x21, 0x41, 0x0, 0x150]),
    (26, &[0x6, 0xb3, 0x0, 0x90, 0x70, 0x71, 0x60, 0x63, 0x68]),
    (27, &[0x6, 0xb3, 0x91, 0x90, 0x21, 0x41, 0x0, 0x150]),
    (28, &[0x6, 0xb3, 0x91, 0x21, 0x0, 0x150]),
    (29, &[0x6, 0xb3, 0x91, 0x21, 0x41, 0x0, 0x150]),
    (30, &[0x6, 0xb3, 0x0, 0x90, 0x70, 0x71, 0x60, 0x63, 0x68]),
    (31, &[0x6, 0xb3, 0x91, 0x90, 0x0, 0x150]),
    (32, &[0x6, 0xb3, 0x91]),
    (33, &[0x6, 0xb3, 0x91, 0x0, 0x150]),
    (34, &[0x6, 0xb3, 0x0, 0x90, 0x70, 0x71, 0x60, 0x63, 0x68]),
    (35, &[0x6, 0xb3, 0x91, 0x90, 0xc1]),
    (36, &[0x6, 0xb3, 0x91]),
    (37, &[0x6, 0xb3, 0x91, 0xc1]),
    (38, &[0x6, 0xb3, 0x70, 0x71, MADE, 0xb5, 0x101, 0x31]),
    (
        39,
        &[
            0x6, 0xb3, 0x70, 0x71, 0x113, 0x60, 0x115, 0x68, 0x6a, 0x69, 0x62, 0x0, 0x150,
        ],
    ),
    (
        40,
        &[
            0x6, 0xb3, 0x70, 0x71, 0xf0, 0xf2, 0x68, 0x112, MADE, 0x112, 0xb5, 0x101, 0x31,
        ],
    ),
    (41, &[0x6, 0xb3, 0x7]),
];

/// The number of the code that the call returns where the places from `from` to `to` hold.
fn answer(function: u16, from: usize, to: usize) -> Option<u64> {
    let mut facts = Facts::new(function, Rv::TemplateIncomplete);
    for place in 0..16 {
        facts.holds[place] = from <= place && place < to;
    }
    first_fault(&facts).map(|code| code.number())
}

/// Whether the call returns the code of its first row where all hold, and of the last where it alone holds. Where none of its
/// rows holds it must return none.
fn is_answered_by_its_ends(function: u16, codes: &[u64]) -> bool {
    let count = codes.len();
    let answers = [
        answer(function, 0, count),
        answer(function, 0, 16),
        answer(function, count.saturating_sub(1), count),
        answer(function, count, 16),
    ];
    answers == [Some(0x6), Some(0x6), codes.last().copied(), None]
}

/// Whether the row's code is returned where it alone holds, and where all from it on hold.
fn is_answered_by_its_row(function: u16, place: usize, count: usize, code: u64) -> bool {
    answer(function, place, place.saturating_add(1)) == Some(code)
        && answer(function, place, count) == Some(code)
}

#[test]
fn answers_by_the_first_row_that_holds(rt: HostRuntime) {
    for (function, codes) in CODES {
        let is_whole = rows(*function).len() == codes.len();
        assert!(rt;
            is_whole && is_answered_by_its_ends(*function, codes),
            "call {function}"
        );
        for (place, code) in codes.iter().enumerate() {
            let is_answered = is_answered_by_its_row(*function, place, codes.len(), *code);
            assert!(rt; is_answered, "call {function}, row {place}");
        }
    }
}

#[test]
fn answers_nothing_for_the_number_of_no_call(rt: HostRuntime) {
    for function in [0, 42, 99, 65535] {
        let is_none = answer(function, 0, 16).is_none() && rows(function).is_empty();
        assert!(rt; is_none, "call {function}");
    }
}

struct Case {
    call: &'static str,
    function: u16,
    holding: &'static [Condition],
    made: Rv,
    answer: Option<u64>,
}

const CASES: &[Case] = &[
    Case {
        call: "C_OpenSession of a slot that isn't there, without flags",
        function: 7,
        holding: &[Condition::NotSerial, Condition::NoSlot],
        made: Rv::Ok,
        answer: Some(0x3),
    },
    Case {
        call: "C_DestroyObject with unknown session and handle",
        function: 15,
        holding: &[Condition::NoObject, Condition::NoSession],
        made: Rv::Ok,
        answer: Some(0xb3),
    },
    Case {
        call: "C_Login of an unknown type while the user is logged in",
        function: 11,
        holding: &[Condition::OtherUserLoggedIn, Condition::UnknownUserType],
        made: Rv::Ok,
        answer: Some(0x103),
    },
    Case {
        call: "C_EncryptInit with a mechanism that generates keys and handle 0",
        function: 22,
        holding: &[Condition::NoKey, Condition::WrongMechanism],
        made: Rv::Ok,
        answer: Some(0x70),
    },
    Case {
        call: "C_CreateObject with an unknown attribute, without a value, of a private key",
        function: 13,
        holding: &[Condition::PrivateObject, Condition::TemplateRefused],
        made: Rv::AttributeTypeInvalid,
        answer: Some(0x12),
    },
    Case {
        call: "C_CreateObject of a private token object in a read-only public session",
        function: 13,
        holding: &[Condition::PrivateObject, Condition::TokenObjectReadOnly],
        made: Rv::Ok,
        answer: Some(0xb5),
    },
    Case {
        call: "C_WrapKey of an unextractable key without a buffer",
        function: 39,
        holding: &[Condition::NoBuffer, Condition::KeyUnextractable],
        made: Rv::Ok,
        answer: Some(0x6a),
    },
    Case {
        call: "C_WrapKey of an unextractable key that only a trusted key wraps",
        function: 39,
        holding: &[Condition::KeyNotWrappable, Condition::KeyUnextractable],
        made: Rv::Ok,
        answer: Some(0x6a),
    },
    Case {
        call: "C_WrapKey of a key of 20 bytes that only a trusted key wraps",
        function: 39,
        holding: &[Condition::KeyLength, Condition::KeyNotWrappable],
        made: Rv::Ok,
        answer: Some(0x69),
    },
    Case {
        call: "C_EncryptInit without a mechanism while an operation is active",
        function: 22,
        holding: &[Condition::OperationActive, Condition::NoMechanism],
        made: Rv::Ok,
        answer: Some(0x0),
    },
    Case {
        call: "C_Encrypt in pieces, then of a whole text, with a small buffer",
        function: 23,
        holding: &[Condition::SmallBuffer, Condition::DataTaken],
        made: Rv::Ok,
        answer: Some(0x90),
    },
    Case {
        call: "C_UnwrapKey of a length that no AES key has, with a template that is refused",
        function: 40,
        holding: &[Condition::WrappedLengthOfType, Condition::TemplateRefused],
        made: Rv::TemplateInconsistent,
        answer: Some(0xd1),
    },
    Case {
        call: "C_InitToken with a row of another call's table",
        function: 4,
        holding: &[Condition::NoSession],
        made: Rv::Ok,
        answer: None,
    },
    Case {
        call: "C_Logout without a fault",
        function: 12,
        holding: &[],
        made: Rv::Ok,
        answer: None,
    },
    Case {
        call: "a call that isn't there",
        function: 42,
        holding: &[Condition::Busy, Condition::NoSession],
        made: Rv::Ok,
        answer: None,
    },
];

#[test]
fn answers_calls_with_several_faults_by_the_first(rt: HostRuntime) {
    for case in CASES {
        let mut facts = Facts::new(case.function, case.made);
        for row in case.holding {
            facts.set(*row, true);
        }
        let answer = first_fault(&facts).map(|code| code.number());
        assert_eq!(rt; answer, case.answer, "{}", case.call);
    }
}

#[test]
fn forgets_a_row_that_is_set_to_false(rt: HostRuntime) {
    let mut facts = Facts::new(15, Rv::Ok);
    facts.set(Condition::TokenObjectReadOnly, true);
    facts.set(Condition::NotDestroyable, true);
    assert_eq!(rt; first_fault(&facts), Some(Rv::SessionReadOnly));
    facts.set(Condition::TokenObjectReadOnly, false);
    assert_eq!(rt; first_fault(&facts), Some(Rv::ActionProhibited));
}
