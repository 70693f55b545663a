//! What the kind of an instance says of its certificates and of its clients.

ghost use Rattle.std.specs.Prelude.{◌≡◌, ◌≤◌};
ghost use Rattle.ab_abs.specs.Kinds.{counts_responses, need_of, needs_equal, rule_of};

use crate::rule::ReplyRule;
use ab_num::Kind;

/// How many ABORTs a certificate has.
pub fn need(kind: Kind, f: u8) -> u8
    requires { f ≤ 2 }
    ensures { result ≡ need_of kind f }
{
    match kind {
        Kind::Quorum | Kind::ZLight | Kind::Chain | Kind::ZCert => 2 * f + 1,
        Kind::Backup => f + 1,
    }
}

/// Whether the lists of a certificate are equal.
pub fn needs_equal(kind: Kind) -> bool
    ensures { result ≡ needs_equal kind }
{
    match kind {
        Kind::Quorum | Kind::ZLight | Kind::Chain | Kind::ZCert => false,
        Kind::Backup => true,
    }
}

/// On which votes a client commits.
pub fn reply_rule(kind: Kind, f: u8) -> ReplyRule
    requires { f ≤ 2 }
    ensures { result ≡ rule_of kind f }
{
    match kind {
        Kind::Quorum | Kind::ZLight => ReplyRule::All,
        Kind::Chain => ReplyRule::Tail,
        Kind::Backup => ReplyRule::Equal(f + 1),
        Kind::ZCert => ReplyRule::Certified,
    }
}

/// Whether a client commits by responses. If not, it commits by a CHAIN, or on signed answers.
pub fn counts_responses(kind: Kind) -> bool
    ensures { result ≡ counts_responses kind }
{
    match kind {
        Kind::Quorum | Kind::ZLight | Kind::Backup => true,
        Kind::Chain | Kind::ZCert => false,
    }
}
