// The command `remove`.
ghost use Rattle.std.specs.Prelude.{◌≡◌, IfOk};
ghost use Rattle.ext_tree.specs.Cut.{cut};
ghost use Rattle.ext_intents.specs.Change.{changed_at};
ghost use Rattle.ext_intents.specs.Remove.{remove_intent};

use crate::intent::Intent;
use ext_cmd::{Answer, Refusal};
use ext_host::Host;
use ext_text::{OutOfMemory, Path};

/// What `remove` wants of a host.
///
/// # Errors
/// Out of memory alone.
pub(crate) fn remove_step(host: &Host, path: &Path) -> Result<Intent, OutOfMemory>
    ensures { IfOk result (λ intent. intent ≡ remove_intent host.now path.now) }
{
    if host.root.get(path).is_none() {
        let path = path.copy()?;
        return Ok(Intent::Refuses(Refusal::NoEntry { path }));
    }
    if host.locks(path) {
        let path = path.copy()?;
        return Ok(Intent::Refuses(Refusal::ReadOnly { path }));
    }
    Ok(Intent::Changes(without(host, path)?, Answer::Done))
}

// The host without what stands at and below the path.
fn without(host: &Host, path: &Path) -> Result<Host, OutOfMemory>
    ensures { IfOk result (λ next. next ≡ changed_at host.now path.now (cut path.now host.now.root)) }
{
    let mut next = host.copy()?;
    next.touch(path);
    next.root.cut(path);
    Ok(next)
}
