//! Laws of the spelling of requests and replies as bodies. Each is the contract of a function that does nothing:
//! callers call it where their proof needs the law. `laws.rt` names them too.

ghost use Rattle.std.specs.Prelude.{◌≡◌, ℕ, List};
ghost use Rattle.droid_frame.specs.Bodies.{SpellsRequest};
ghost use Rattle.droid_frame.specs.declared.request.Request.{Request};
ghost use Rattle.droid_frame.specs.ReplyResults.{SpellsOneReply};

pub use crate::limit_laws::constants_are_the_limits;

/// A version, a kind and a body spell at most one request.
pub fn spells_one_request()
    ensures { (version kind : ℕ) (body : List ℕ) (one other : Request)
        → SpellsRequest version kind body one → SpellsRequest version kind body other → one ≡ other }
{}

/// A version, a kind and a body spell at most one reply. `SpellsOneReply` says it as the clause above does of requests.
pub fn spells_one_reply()
    ensures { SpellsOneReply }
{}
