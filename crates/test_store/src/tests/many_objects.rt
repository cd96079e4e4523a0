//! One object of the token more than a cache can hold: all are returned as they were made, as often as they are read, and what one
//! application changes another gets at once.

use super::keepers::{Script, see_over_each};
use ck_calls::{AttributeQuery, AttributeValue, Call, Query, Reply};
use ck_types::{AttrType, Bytes, Entry, Items, Rv, Template};
use keep::Keep;
use pin_record::Record;
use std::alloc::Global;
use std::test::*;
use test_scripts::Step::{
    DestroyObject, FindObjects, FindObjectsInit, GetAttributeValue, GetObjectSize,
    SetAttributeValue,
};
use test_scripts::given::*;
use test_scripts::{Given, Row, Told, call_of, replies_to, reply_of};
use token::Event;

const COUNT: u8 = 129;

/// What applications do, and what they get.
#[derive(Drop)]
struct Talk {
    alloc: Global,
    events: Vec<Event>,
    wanted: Vec<(u64, Reply)>,
}

fn told_reply(alloc: Global, told: Told) -> Result<Reply, Fail> {
    match reply_of(alloc, told)? {
        Some(reply) => Ok(reply),
        None => Err("a row without a reply".into()),
    }
}

impl Talk {
    fn new(alloc: Global) -> Talk {
        Talk {
            alloc,
            events: Vec::new(alloc),
            wanted: Vec::new(alloc),
        }
    }

    fn ask(&mut self, app: u64, call: Call, reply: Reply) -> Result<(), Fail> {
        let words = Vec::new(self.alloc);
        self.events.push(Event::Call { app, call, words })?;
        self.wanted.push((app, reply))?;
        Ok(())
    }

    fn add(&mut self, rows: &[Row]) -> Result<(), Fail> {
        for row in rows {
            self.add_row(*row)?;
        }
        Ok(())
    }

    fn add_row(&mut self, (app, step, told): Row) -> Result<(), Fail> {
        let reply = told_reply(self.alloc, told)?;
        match call_of(self.alloc, step) {
            Ok(call) => self.ask(app, call, reply),
            Err(fault) => {
                drop(reply);
                Err(fault)
            }
        }
    }

    /// A makes an object whose value is its number, which is its handle too.
    fn make(&mut self, number: u8) -> Result<(), Fail> {
        let mut template = Template::new(self.alloc);
        let value = [number];
        let given: [(AttrType, &[u8]); 4] = [
            (AttrType::Class, DATA),
            (AttrType::Token, YES),
            (AttrType::Private, NO),
            (AttrType::Value, &value),
        ];
        for (attribute, value) in given {
            template.push(Entry {
                attr_type: attribute.number(),
                value: Bytes::from_slice(self.alloc, value)?,
            })?;
        }
        let call = Call::CreateObject {
            session: 1,
            template,
        };
        self.ask(A, call, Reply::Object(number as u64))
    }

    /// A reads the value of an object.
    fn read(&mut self, number: u8) -> Result<(), Fail> {
        let mut query = Query::new(self.alloc);
        query.push(AttributeQuery {
            attr_type: VALUE,
            buffer_len: Some(1),
        })?;
        let mut values = Items::new(self.alloc);
        values.push(AttributeValue {
            len: 1,
            value: Some(Bytes::from_slice(self.alloc, &[number])?),
        })?;
        let call = Call::GetAttributeValue {
            session: 1,
            object: number as u64,
            query,
        };
        self.ask(
            A,
            call,
            Reply::AttributeValues {
                code: Rv::Ok,
                values,
            },
        )
    }

    /// A searches for all objects, and is answered those from `first` on.
    fn find_from(&mut self, first: u8) -> Result<(), Fail> {
        let mut handles = Items::new(self.alloc);
        for number in first..=COUNT {
            handles.push(number as u64)?;
        }
        let call = call_of(self.alloc, FindObjects(1, 200))?;
        self.ask(A, call, Reply::Objects(handles))
    }

    /// Sees that a new token over the keeper goes so.
    fn see<K: Keep>(self, keep: K) -> Result<(), Fail> {
        let Talk {
            alloc,
            events,
            wanted,
        } = self;
        let told = replies_to(alloc, keep, events)?;
        for (number, reply) in wanted.iter().enumerate() {
            if told.get(number) != Some(reply) {
                let got = told.get(number);
                return Err(Fail::new(format_args!(
                    "reply {number}: wanted {reply:?}, got {got:?}"
                )));
            }
        }
        if told.len() == wanted.len() {
            Ok(())
        } else {
            Err("replies that were not asked for".into())
        }
    }
}

/// What finds the first object.
const FIRST: Given = &[(AttrType::Value, b"\x01")];

const OPENED: &[Row] = &[(A, OPEN, Told::Session(1)), (B, OPEN, Told::Session(1))];

/// B changes the first object, and then destroys it.
const CHANGES: &[Row] = &[
    (B, FindObjectsInit(1, FIRST), OK),
    (B, FindObjects(1, 9), Told::Objects(&[1])),
    (B, SetAttributeValue(1, 1, NEW_LABEL), OK),
    (
        A,
        GetAttributeValue(1, 1, &[(LABEL, Some(2))]),
        Told::AttributeValues(Rv::Ok, &[(2, Some(b"k1"))]),
    ),
    (B, DestroyObject(1, 1), OK),
    (A, GetObjectSize(1, 1), NO_OBJECT),
    (A, FindObjectsInit(1, NOTHING), OK),
];

#[derive(Clone, Copy)]
struct ManyObjects;

impl Script for ManyObjects {
    fn see<K: Keep>(&self, alloc: Global, keep: K) -> Result<(), Fail> {
        let mut talk = Talk::new(alloc);
        talk.add(OPENED)?;
        for number in 1..=COUNT {
            talk.make(number)?;
        }
        for _ in 0..2 {
            for number in 1..=COUNT {
                talk.read(number)?;
            }
        }
        talk.add(CHANGES)?;
        talk.find_from(2)?;
        talk.see(keep)
    }
}

#[test]
fn one_object_more_than_a_cache_has_room_for(rt: HostRuntime) -> Result<(), Fail> {
    see_over_each(rt.alloc(), Record::new(), &ManyObjects)
}
