// The command `compare`.
ghost use Rattle.std.specs.Prelude.{◌≡◌};
ghost use Rattle.ext_intents.specs.Compare.{compare_intent};

use crate::intent::Intent;
use ext_cmd::Answer;
use ext_vers::compare;

/// What `compare` answers: how the first version stands to the second. It takes no memory.
pub fn compare_step(a: &[u8], b: &[u8]) -> Intent
    ensures { result ≡ compare_intent a.now b.now }
{
    Intent::Answers(Answer::Order(compare(a, b)))
}
