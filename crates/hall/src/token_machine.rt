//! The token takes one event after the other. What isn't done at each call isn't inlined into its loop.

ghost use Rattle.keep.specs.Keeping.{Terms};
ghost use Rattle.hall.specs.Terms.{token_terms};

use crate::machine::Machine;
use ck_calls::{AppCall, Reply};
use keep::Keep;
use std::alloc::Global;
use token::{Done, Out, Token};

impl<K: Keep> Machine for Token<K> {
    ghost terms = { token_terms K.terms };

    fn call(&mut self, alloc: Global, call: AppCall) -> Out {
        let AppCall { app, call, random } = call;
        Token::call(self, alloc, app, call, &random)
    }

    #[inline(never)]
    fn finish(&mut self, alloc: Global, app: u64, done: Done) -> Reply {
        Token::finish(self, alloc, app, done)
    }

    #[inline(never)]
    fn gone(&mut self, app: u64) {
        Token::gone(self, app);
    }

    ghost sure = { λ t w n s. (K.sure t.store.keep s.steady, s.shows) };
}
