//! Answers of a replica that trimmed the first entries of its log.

ghost use Rattle.std.specs.Prelude.{◌≡◌, ℕ, ◌≤◌, Some, List, length};
ghost use Rattle.ab_hist.specs.declared.request.Request.{Request};
ghost use Rattle.ab_hist.specs.Histories.{IsHistory};
ghost use Rattle.ab_abs.specs.declared.vote.Vote.{Vote as VoteOf};
ghost use Rattle.ab_abs.specs.Answers.{answer_from, answer_to, logged, logged_from, IsVoteFrom};

use ab_svc::Service;

/// An answer is right for the whole log, and its number is one whose digest the trimmed log still shows.
/// If nothing is trimmed, the rule is that of the whole log.
pub fn answers_are_right<S: Service>()
    ensures right { (n b : ℕ) (log : List Request) (m : Request) (vote : VoteOf) → b ≤ length log → n ≤ length log → answer_from S.machine n b log m ≡ Some vote → IsVoteFrom S.machine n b (logged_from n log m) m vote }
    ensures rises { (n : ℕ) (log : List Request) (m : Request) → IsHistory log → IsHistory (logged_from n log m) }
    ensures answers { (b : ℕ) (log : List Request) (m : Request) → answer_from S.machine 0 b log m ≡ answer_to S.machine b log m }
    ensures logs { (log : List Request) (m : Request) → logged_from 0 log m ≡ logged log m }
{}
