// The command `cat`.
ghost use Rattle.std.specs.Prelude.{◌≡◌, IfOk};
ghost use Rattle.ext_intents.specs.Cat.{cat_intent};

use crate::intent::Intent;
use ext_cmd::Refusal;
use ext_host::Host;
use ext_text::{OutOfMemory, Path};
use ext_tree::{Entry, Held1};

/// What `cat` wants of a host.
///
/// # Errors
/// Out of memory alone.
pub(crate) fn cat_step(host: &Host, path: &Path) -> Result<Intent, OutOfMemory>
    ensures { IfOk result (λ intent. intent ≡ cat_intent host.now path.now) }
{
    match host.root.get(path) {
        None => {
            let path = path.copy()?;
            Ok(Intent::Refuses(Refusal::NoEntry { path }))
        }
        Some(Entry::File(_, held)) => Ok(Intent::Shows(held.copy(host.root.allocator())?)),
        Some(_) => {
            let path = path.copy()?;
            Ok(Intent::Refuses(Refusal::NotFile { path }))
        }
    }
}
