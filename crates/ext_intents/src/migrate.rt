// The command `migrate`.
ghost use Rattle.std.specs.Prelude.{◌≡◌, IfOk};
ghost use Rattle.ext_intents.specs.Migrate.{migrate_intent};

use crate::intent::Intent;
use ext_cmd::Answer;
use ext_host::Host;
use ext_text::OutOfMemory;

/// What `migrate` wants of a host, whose text has its newest form or not.
///
/// # Errors
/// Out of memory alone.
pub(crate) fn migrate_step(host: &Host, newest: bool) -> Result<Intent, OutOfMemory>
    ensures { IfOk result (λ intent. intent ≡ migrate_intent host.now newest) }
{
    if newest {
        Ok(Intent::Answers(Answer::Unchanged))
    } else {
        Ok(Intent::Changes(host.copy()?, Answer::Done))
    }
}
