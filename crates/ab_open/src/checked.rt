//! A message that was opened.

ghost use Rattle.std.specs.Prelude.{◌≡◌, IsTrue};
ghost use Rattle.ab_keys.specs.Keys.{is_party};
ghost use Rattle.ab_check.specs.Checks.{checks_of};
ghost use Rattle.ab_wire.specs.Views.{IsReceived, message};

use ab_check::{Checks, checks_in, copy_of};
use ab_num::{Cluster, Party};
use ab_wire::MsgRef;
use std::marker::Model;

/// A message whose claims its receiver has checked, and who that is. Only [`crate::open`] makes one.
#[derive(Drop)]
pub struct Checked<'a> {
    msg: MsgRef<'a>,
    me: Party,
}

impl<'a> Model for Checked<'a> {
    ghost use Rattle.ab_wire.specs.Views.{IsReceived, message};
    ghost use Rattle.ab_open.specs.Opening.{Opened};

    ghost Value = { Opened };

    ghost view = { λ c. record { msg = message c.msg; me = c.me } };

    ghost invariant = { λ c. IsReceived c.msg };
}

impl<'a> Checked<'a> {
    /// What `me` has checked.
    pub(crate) fn of(msg: MsgRef<'a>, me: Party) -> Checked<'a>
        requires { IsReceived msg }
        ensures message { result.msg ≡ message msg.entry }
        ensures me { result.me ≡ me }
    {
        Checked { msg, me }
    }

    /// The message, with its parts in the bytes that it was read from.
    pub fn msg(&self) -> &MsgRef<'a>
        ensures message { message result.now ≡ self.now.msg }
        ensures received { IsReceived result.now }
    {
        &self.msg
    }

    /// The message, to hand on.
    pub fn into_msg(self) -> MsgRef<'a>
        ensures message { message result ≡ self.entry.msg }
        ensures received { IsReceived result }
    {
        self.msg
    }

    /// The party that opened it.
    pub fn me(&self) -> Party
        ensures { result ≡ self.now.me }
    {
        self.me
    }

    /// What it checked of the message in its cluster, in order.
    #[tactic(auto, using(crate::proofs::OpenLemmas::placed))]
    pub fn checks(&self, k: &Cluster) -> Checks<'a>
        requires { IsTrue (is_party k.now.f k.now.clients self.now.me) }
        ensures { result ≡ checks_of k.now.f self.now.me self.now.msg }
    {
        checks_in(k, self.me, copy_of(&self.msg))
    }
}
