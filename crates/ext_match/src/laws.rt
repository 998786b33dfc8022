//! The law of verdicts, the contract of a function that does nothing.
ghost use Rattle.ext_match.specs.Rule.{RuleHolds, RuleIsMet};
ghost use Rattle.ext_match.specs.Verdict.{OneVerdict};

/// There is one verdict: the one that the rule computes holds, each one that holds is that one, and so no two hold of
/// the same files, class, scope, architecture and force.
#[tactic(auto, using(crate::proofs::VerdictLemmas::rule_holds, crate::proofs::VerdictLemmas::rule_is_met, crate::proofs::VerdictLemmas::one_verdict))]
pub fn one_verdict()
    ensures computed { RuleHolds }
    ensures only { RuleIsMet }
    ensures one { OneVerdict }
{}
