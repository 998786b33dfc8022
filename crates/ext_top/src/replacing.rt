// A host is put in place of the one that the store has.
ghost use Rattle.std.specs.Prelude.{◌≡◌, IfSome};
ghost use Rattle.ext_gen.specs.Opened.{IsOpened};
ghost use Rattle.ext_gen.specs.Preparing.{coming_number, host_before};
ghost use Rattle.ext_cmd.specs.Replies.{answer_text};
ghost use Rattle.ext_cmd.specs.declared.answer.Answer.{Answer};
ghost use Rattle.ext_intents.specs.Intents.{IsPlanned};
ghost use Rattle.ext_intents.specs.declared.intent.Intent.TheVariants.{Changes};
ghost use Rattle.ext_top.specs.Applying.{IsOfPreparing, PointsAs, refusal_from};
ghost use Rattle.ext_top.specs.CarryingOut.{CarriesOut};

use crate::applied::{Applied, Reply};
use crate::apply_err::ApplyErr;
use ext_cmd::{Answer, Refusal, answer_text};
use ext_depot::Depot;
use ext_disk::Disk;
use ext_gen::{Opened, StoreErr, commit, prepare};
use ext_host::{Host, Plan};
use ext_text::Text;
use std::alloc::Global;

/// Prepares the coming generation of a host, and switches to it. The reply is made first.
///
/// # Errors
/// As for `apply`.
pub(crate) fn replace<D: Disk, P: Depot>(
    alloc: Global,
    next: Host,
    answer: Answer,
    opened: Option<Opened>,
    disk: &mut D,
    depot: &mut P,
) -> Result<Applied, ApplyErr>
    requires planned { IsPlanned (coming_number opened) (host_before opened) next }
    requires opened { IfSome opened IsOpened }
    requires points { PointsAs (D.state disk.old) opened }
    ensures { CarriesOut (Changes next answer) opened (D.state disk.old) (D.state disk.new) (P.state depot.old) (P.state depot.new)
        result }
{
    let reply = answer_text(alloc, answer)?;
    switch(alloc, next, reply, opened, disk, depot)
}

// Prepares the coming generation, and switches to it; the reply is this text, or the line of a refusal.
fn switch<D: Disk, P: Depot>(
    alloc: Global,
    next: Host,
    reply: Text,
    opened: Option<Opened>,
    disk: &mut D,
    depot: &mut P,
) -> Result<Applied, ApplyErr>
    requires planned { IsPlanned (coming_number opened) (host_before opened) next }
    requires opened { IfSome opened IsOpened }
    requires points { PointsAs (D.state disk.old) opened }
    ensures { (answer : Answer) → reply ≡ answer_text answer → CarriesOut (Changes next answer) opened (D.state disk.old)
        (D.state disk.new) (P.state depot.old) (P.state depot.new) result }
{
    match prepare(alloc, disk, depot, opened.as_ref(), Plan { next }) {
        Ok(prepared) => {
            let opened = Some(commit(disk, prepared)?);
            let reply = Reply::Text(reply);
            Ok(Applied { opened, reply })
        }
        Err(error) => {
            let reply = Reply::Refused(refusal_from(error)?);
            Ok(Applied { opened, reply })
        }
    }
}

// The refusal that an error of a preparation is, where it is one.
fn refusal_from(error: StoreErr) -> Result<Refusal, ApplyErr>
    requires { IsOfPreparing error }
    ensures { result ≡ refusal_from error }
{
    match error {
        StoreErr::Fault(fault) => Err(ApplyErr::Fault(fault)),
        StoreErr::Broken { .. } => unreachable!(),
        StoreErr::Mismatch {
            path,
            listed,
            found,
        } => Ok(Refusal::Mismatch {
            path,
            listed,
            found,
        }),
        StoreErr::NotInDepot { path } => Ok(Refusal::NotInDepot { path }),
        StoreErr::Unfinished => Err(ApplyErr::Unfinished),
        StoreErr::Limit { which } => Ok(Refusal::Limit { which }),
    }
}
