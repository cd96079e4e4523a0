//! How long payloads are, whether or not their fields have an encoding.

ghost use Rattle.std.specs.Prelude.{◌≡◌, length};
ghost use Rattle.ck_types.specs.Entry.{entry};
ghost use Rattle.ck_types.specs.Format.{Format, number64, byte_string, pair, optional, list_below};
ghost use Rattle.ck_calls.specs.Fields.{attribute_query, attribute_value, mechanism, output};
ghost use Rattle.wire.specs.Messages.{capped};
ghost use Rattle.wire.specs.Replies.{reply_payload};
ghost use Rattle.wire.specs.Requests.{encode_fields};

use ck_calls::{AttributeQuery, AttributeValue, Call, Mechanism, Output, Reply, with_calls};
use ck_types::{Bytes, Entry, Items};

/// A value whose encoding would have a length, also where it has none. A sum stays at the greatest
/// length.
trait EncodedLen {
    ghost layout: { Format Self };

    /// How many bytes the encoding has, or would have.
    fn encoded_len(&self) -> usize
        ensures { result ≡ capped (length (layout.encode self.now)) };
}

impl EncodedLen for u64 {
    ghost layout = { number64 };

    fn encoded_len(&self) -> usize {
        8
    }
}

impl EncodedLen for Bytes {
    ghost layout = { byte_string };

    fn encoded_len(&self) -> usize {
        self.len().saturating_add(4)
    }
}

impl<A: EncodedLen> EncodedLen for Option<A> {
    ghost layout = { optional A.layout };

    fn encoded_len(&self) -> usize {
        match self {
            None => 1,
            Some(value) => value.encoded_len().saturating_add(1),
        }
    }
}

/// A list's limit doesn't show in its encoding.
impl<T: EncodedLen> EncodedLen for Items<T> {
    ghost layout = { list_below 0 T.layout };

    fn encoded_len(&self) -> usize {
        let mut len = 4_usize;
        for value in self.as_slice() {
            len = len.saturating_add(value.encoded_len());
        }
        len
    }
}

impl EncodedLen for Entry {
    ghost layout = { entry };

    fn encoded_len(&self) -> usize {
        self.value.encoded_len().saturating_add(8)
    }
}

impl EncodedLen for Mechanism {
    ghost layout = { mechanism };

    fn encoded_len(&self) -> usize {
        self.parameter.encoded_len().saturating_add(8)
    }
}

impl EncodedLen for AttributeQuery {
    ghost layout = { attribute_query };

    fn encoded_len(&self) -> usize {
        self.buffer_len.encoded_len().saturating_add(8)
    }
}

impl EncodedLen for AttributeValue {
    ghost layout = { attribute_value };

    fn encoded_len(&self) -> usize {
        match &self.value {
            None => 9,
            Some(value) => value.len().saturating_add(9),
        }
    }
}

impl EncodedLen for Output {
    ghost layout = { output };

    fn encoded_len(&self) -> usize {
        match self {
            Output::Length(_) => 9,
            Output::Data(data) => data.encoded_len().saturating_add(1),
        }
    }
}

fn len_2<A: EncodedLen, B: EncodedLen>(a: &A, b: &B) -> usize
    ensures { result ≡ capped (length ((pair A.layout B.layout).encode (a.now, b.now))) }
{
    a.encoded_len().saturating_add(b.encoded_len())
}

fn len_3<A: EncodedLen, B: EncodedLen, C: EncodedLen>(a: &A, b: &B, c: &C) -> usize
    ensures { result ≡ capped (length ((pair A.layout (pair B.layout C.layout)).encode (a.now, (b.now, c.now)))) }
{
    a.encoded_len().saturating_add(len_2(b, c))
}

fn len_5<A: EncodedLen, B: EncodedLen, C: EncodedLen, D: EncodedLen, E: EncodedLen>(
    a: &A,
    b: &B,
    c: &C,
    d: &D,
    e: &E,
) -> usize
    ensures { result ≡ capped
        (length ((pair A.layout (pair B.layout (pair C.layout (pair D.layout E.layout)))).encode (a.now, (b.now, (c.now, (d.now, e.now)))))) }
{
    len_2(a, b).saturating_add(len_3(c, d, e))
}

macro_rules! len_each {
    ($a:ident) => { $a.encoded_len() };
    ($a:ident, $b:ident) => { len_2($a, $b) };
    ($a:ident, $b:ident, $c:ident) => { len_3($a, $b, $c) };
    ($a:ident, $b:ident, $c:ident, $d:ident, $e:ident) => { len_5($a, $b, $c, $d, $e) };
}

macro_rules! len_match {
    (($call:ident) $([$name:ident $n:literal { $($field:ident: $type:ty),+ } $($rest:tt)*])+) => {
        match $call {
            $(Call::$name { $($field),+ } => len_each!($($field),+),)+
        }
    };
}

/// How many bytes the fields of a call have, or would have.
pub(crate) fn fields_len(call: &Call) -> usize
    ensures { result ≡ capped (length (encode_fields call.now)) }
{
    with_calls!(len_match!(call))
}

/// How many bytes the payload of a reply has, or would have.
pub(crate) fn reply_len(reply: &Reply) -> usize
    ensures { result ≡ capped (length (reply_payload reply.now)) }
{
    match reply {
        Reply::Code(_) => 8,
        Reply::TokenInfo(info) => info.label.as_slice().len().saturating_add(64),
        Reply::MechanismList(mechanisms) => mechanisms.encoded_len().saturating_add(8),
        Reply::MechanismInfo(_) => 32,
        Reply::Session(_) | Reply::Object(_) | Reply::ObjectSize(_) => 16,
        Reply::SessionInfo(_) => 40,
        Reply::AttributeValues { code: _, values } => values.encoded_len().saturating_add(8),
        Reply::Objects(objects) => objects.encoded_len().saturating_add(8),
        Reply::Output(output) => output.encoded_len().saturating_add(8),
        Reply::BufferTooSmall(_) => 17,
        Reply::Random(bytes) => bytes.encoded_len().saturating_add(8),
    }
}
