//! Messages whose bytes are those of another.

ghost use Rattle.std.specs.Prelude.{◌≡◌, ◌↔◌, IsTrue};
ghost use Rattle.ab_num.specs.declared.party.Party.{Party};
ghost use Rattle.ab_keys.specs.Rings.{Ring};
ghost use Rattle.ab_wire.specs.Inside.{content_in};
ghost use Rattle.ab_seal.specs.Sealing.{asks, is_request, sealed};

use ab_msg::{Content, Msg};

/// Whether both are one request.
fn is_same_request(a: &Content, b: &Content) -> bool
    ensures { IsTrue result ↔ (IsTrue (asks a.now) × (a.now ≡ b.now)) }
{
    let Content::Req {
        maker,
        instance,
        request,
    } = a
    else {
        return false;
    };
    let Content::Req {
        maker: other_maker,
        instance: other_instance,
        request: other,
    } = b
    else {
        return false;
    };
    *maker == *other_maker && *instance == *other_instance && *request == *other
}

/// Whether both are one request, which has the same bytes whoever it goes to.
pub fn is_sealed_alike(a: &Msg, b: &Msg) -> bool
    ensures exact { IsTrue result ↔ (IsTrue (is_request a.now) × (IsTrue (is_request b.now) × (content_in a.now ≡ content_in b.now))) }
    ensures alike { IsTrue result → (ring : Ring) (to other : Party) → sealed ring (record { to = to; msg = a.now }) ≡ sealed ring (record { to = other; msg = b.now }) }
{
    let Msg::Req { content, .. } = a else {
        return false;
    };
    let Msg::Req { content: other, .. } = b else {
        return false;
    };
    is_same_request(content, other)
}
