//! Answers that are signed.

ghost use Rattle.std.specs.Prelude.{◌≡◌, ◌+◌, ◌<◌, ◌≤◌, ◌∷◌, ◌++◌, [], ◌↔◌, IfOk, OnErr, IsErrOf, Some, vec_len};
ghost use Rattle.std.specs.Vec.{vec_capacity};
ghost use Rattle.ab_num.specs.declared.party.Party.TheVariants.{Client};
ghost use Rattle.ab_msg.specs.Pens.{moved};
ghost use Rattle.ab_abs.specs.Signers.{SignsNothing};
ghost use Rattle.ab_zlight.specs.Rules.{answer_of, goes, ordered};
ghost use Rattle.ab_zcert.specs.Rules.{signed_spec};

use ab_abs::{StepFault, Vote};
use ab_hist::Request;
use ab_msg::{Content, Msg, Notary, Out, Outs, Sig, SignFault, Signed};
use ab_num::{OutOfMemory, Party};
use ab_svc::Service;
use ab_zlight::ZLight;
use std::alloc::Global;

/// The next signature, for this content.
fn sign<N: Notary>(alloc: Global, content: &Content, n: &mut N) -> Result<Sig, StepFault>
    ensures ok { IfOk result (λ s. (s ≡ (N.pen n.old).sig content.now (N.pen n.old).used) × (N.pen n.new ≡ moved (N.pen n.old) 1) × (N.remains n.new + 1 ≡ N.remains n.old)) }
    ensures spent { IsErrOf result StepFault.Spent ↔ (N.remains n.old ≡ 0) }
    ensures unused { IsErrOf result StepFault.Spent → SignsNothing (N.pen n.old) (N.remains n.old) (N.pen n.new) (N.remains n.new) }
{
    match n.sign(alloc, content) {
        Ok(sig) => Ok(sig),
        Err(SignFault::Spent) => Err(StepFault::Spent),
        Err(SignFault::OutOfMemory) => Err(StepFault::OutOfMemory),
    }
}

/// The signed answer of a replica to a request.
pub(crate) fn signed_answer<S: Service, N: Notary>(
    alloc: Global,
    light: &ZLight<S>,
    m: &Request,
    vote: Vote,
    n: &mut N,
) -> Result<Signed, StepFault>
    ensures ok { IfOk result (λ s. (s ≡ signed_spec (N.pen n.old) light.now.at m.now vote) × (N.pen n.new ≡ moved (N.pen n.old) 1) × (N.remains n.new + 1 ≡ N.remains n.old)) }
    ensures spent { IsErrOf result StepFault.Spent → N.remains n.old < 1 }
    ensures unused { IsErrOf result StepFault.Spent → SignsNothing (N.pen n.old) (N.remains n.old) (N.pen n.new) (N.remains n.new) }
{
    let maker = light.me();
    let d = vote.d;
    let content = Content::Spec {
        maker: Party::Replica(maker),
        instance: light.instance(),
        client: m.client,
        stamp: m.stamp,
        n: vote.n,
        d,
        reply: vote.reply,
    };
    let sig = sign(alloc, &content, n)?;
    Ok(Signed {
        maker,
        content,
        sig,
    })
}

/// Signs the answer to a request before it logs the request.
pub(crate) fn sign_and_log<S: Service, N: Notary>(
    alloc: Global,
    light: &mut ZLight<S>,
    m: &Request,
    vote: Vote,
    n: &mut N,
) -> Result<Signed, StepFault>
    ensures ok { IfOk result (λ s. (light.new ≡ goes light.old (ordered m.now)) × (s ≡ signed_spec (N.pen n.old) light.old.at m.now vote) × (N.pen n.new ≡ moved (N.pen n.old) 1) × (N.remains n.new + 1 ≡ N.remains n.old)) }
    ensures err { OnErr result (light.new ≡ light.old) }
    ensures spent { IsErrOf result StepFault.Spent → N.remains n.old < 1 }
    ensures unused { IsErrOf result StepFault.Spent → SignsNothing (N.pen n.old) (N.remains n.old) (N.pen n.new) (N.remains n.new) }
{
    let signed = signed_answer(alloc, light, m, vote, n)?;
    let _logged = light.answer(alloc, m)?;
    Ok(signed)
}

/// An empty list with room for so many messages.
pub(crate) fn room_for(alloc: Global, n: usize) -> Result<Vec<Out>, OutOfMemory>
    ensures { IfOk result (λ outs. (outs.items ≡ []) × (n ≤ vec_capacity outs)) }
{
    Ok(Vec::with_capacity(alloc, n)?)
}

/// Adds a signed answer, for the client that asked.
pub(crate) fn with_answer(mut outs: Vec<Out>, client: u16, spec: Signed) -> Outs
    requires { vec_len outs < vec_capacity outs }
    ensures { result ≡ outs.items ++ record { to = Client client; msg = Msg.Spec spec } ∷ [] }
{
    let to = Party::Client(client);
    let msg = Msg::Spec { spec };
    match outs.push(Out { to, msg }) {
        Ok(()) => Outs::of(outs),
        Err(_) => unreachable!(),
    }
}
