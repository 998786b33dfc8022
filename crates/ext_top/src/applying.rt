// A command is carried out: what it wants is asked once, and done once for all commands.
ghost use Rattle.std.specs.Prelude.{◌≡◌, IsSome, IsTrue, IfErr, IfOk, IfSome, Some, None};
ghost use Rattle.ext_depot.specs.Depot.{IsKept};
ghost use Rattle.ext_disk.specs.Disk.{BothTold};
ghost use Rattle.ext_disk.specs.Since.{Follows, Rests};
ghost use Rattle.ext_host.specs.Drawn.{IsFileOf};
ghost use Rattle.ext_host.specs.Shelf.{IsKeptAs};
ghost use Rattle.ext_store_files.specs.HeldFiles.{IsListed, body_told};
ghost use Rattle.ext_gen.specs.Opened.{IsOpened};
ghost use Rattle.ext_gen.specs.Preparing.{coming_number, host_before};
ghost use Rattle.ext_cmd.specs.Words.{IsWellFormed};
ghost use Rattle.ext_intents.specs.Intents.{IsFit, trees_seen};
ghost use Rattle.ext_intents.specs.Step.{Wants};
ghost use Rattle.ext_cmd.specs.Line.{may_be_line};
ghost use Rattle.ext_top.specs.CarryingOut.{CarriesOut};
ghost use Rattle.ext_top.specs.Machine.{Counts, Step, bytes_at, checked_text, shows};
ghost use Rattle.ext_top.specs.Applying.{AppliesTold, ApplyCause, IsShownReply, PointsAs};
ghost use Rattle.ext_top.specs.Applying.{RestCause, SeeCause, WhereDamaged, WhereUnfinished, seen_on};
ghost use Rattle.ext_top.specs.Working.{AppliedSo, AreAllAsListed, FindsDamage, IsHeldReply, IsTextReply, LeavesCurrent};
ghost use Rattle.ext_top.specs.Working.{SeesDamage, WantsOn, WantsWithin, WorksFor, refused_by};

use crate::applied::{Applied, Reply};
use crate::apply_err::ApplyErr;
use crate::replacing::replace;
use ext_cmd::{Answer, Command, answer_text};
use ext_depot::Depot;
use ext_disk::Disk;
use ext_gen::{GenShelf, Opened, check, verify};
use ext_host::Held;
use ext_intents::{Intent, first_step, step};
use std::alloc::Global;

/// Carries one command out on a store that was opened so, or on none. Where the disk tells its contents, it points to what was
/// opened.
///
/// What comes back is what the machine's step gives. Where the command changes the host, that is another generation, and its
/// reply. Else it is the same generation, and a reply, or the first refusal in the command's order. The reply is made before
/// the store changes, and is to be written after.
///
/// # Errors
/// From a store that durably stands for a state, a fault of the disk leaves it standing for that state or for the step's,
/// and so may a stop at any moment. Every other error leaves that state, durably.
///
/// - `DiskFault` and `DepotFault` come only where that count rose.
/// - `Damaged` comes only where a file that the host lists and the command reads is another than listed, which no such store
///   has. Where one that is to be shown or checked is, the command is not done.
/// - `Unfinished` comes exactly where a plan within the limits met more left-overs than one command removes.
pub fn apply<D: Disk, P: Depot>(
    alloc: Global,
    command: &Command,
    opened: Option<Opened>,
    disk: &mut D,
    depot: &mut P,
) -> Result<Applied, ApplyErr>
    requires line { IsTrue (may_be_line command.now) }
    requires formed { IsWellFormed command.now }
    requires points { PointsAs (D.state disk.old) opened }
    ensures follows { Follows (D.state disk.old) (D.state disk.new) }
    ensures kept { IsKept (P.state depot.old) (P.state depot.new) }
    ensures applies { BothTold (AppliesTold (λ s. Step s (P.state depot.old).contents command.now) opened result)
        (D.state disk.old).told (D.state disk.new).told }
    ensures shown { IfOk result (λ applied. IsShownReply opened (D.state disk.old) (D.state disk.new) applied.reply) }
    ensures works { BothTold (WorksFor (WantsOn opened (D.state disk.old) (P.state depot.old).contents command.now) opened)
        (D.state disk.old).told (D.state disk.new).told }
    ensures met { IfOk result (AppliedSo (WantsOn opened (D.state disk.old) (P.state depot.old).contents command.now) opened
        (D.state disk.old) (D.state disk.new) (P.state depot.old)) }
    ensures points { IfOk result (λ applied. PointsAs (D.state disk.new) applied.opened) }
    ensures current { BothTold (LeavesCurrent result) (D.state disk.old).told (D.state disk.new).told }
    ensures unfinished { IfErr result (WhereUnfinished (WantsWithin (WantsOn opened (D.state disk.old) (P.state depot.old).contents
        command.now) opened)) }
    ensures damaged { IfErr result (WhereDamaged (FindsDamage command.now opened (D.state disk.old) (P.state depot.old))) }
    ensures cause { IfErr result (ApplyCause opened (D.state disk.old) (D.state disk.new) (P.state depot.old) (P.state depot.new)) }
{
    let intent = intended(alloc, command, &opened, disk, depot)?;
    carry_out(alloc, intent, opened, disk, depot)
}

// What a command wants of a store, which is read alone.
fn intended<D: Disk, P: Depot>(
    alloc: Global,
    command: &Command,
    opened: &Option<Opened>,
    disk: &mut D,
    depot: &mut P,
) -> Result<Intent, ApplyErr>
    requires line { IsTrue (may_be_line command.now) }
    requires formed { IsWellFormed command.now }
    ensures rests { Rests (D.state disk.old) (D.state disk.new) }
    ensures kept { IsKept (P.state depot.old) (P.state depot.new) }
    ensures wants { IfOk result (Wants (seen_on opened.now (D.state disk.old)) (P.state depot.old).contents command.now) }
    ensures fit { IfOk result (IsFit (coming_number opened.now) (host_before opened.now)) }
    ensures opened { IfSome opened.now IsOpened }
    ensures damaged { IfErr result (WhereDamaged (SeesDamage opened.now command.now)) }
    ensures cause { IfErr result (SeeCause opened.now (D.state disk.old) (D.state disk.new) (P.state depot.old) (P.state depot.new)) }
{
    match opened {
        None => Ok(first_step(alloc, command)?),
        Some(opened) => {
            let newest = opened.text() != 1;
            let mut shelf = GenShelf { disk };
            Ok(step(
                alloc,
                command,
                opened.host(),
                opened.generation(),
                newest,
                depot,
                &mut shelf,
            )?)
        }
    }
}

// Does what a command wants.
fn carry_out<D: Disk, P: Depot>(
    alloc: Global,
    intent: Intent,
    opened: Option<Opened>,
    disk: &mut D,
    depot: &mut P,
) -> Result<Applied, ApplyErr>
    requires fit { IsFit (coming_number opened) (host_before opened) intent }
    requires opened { IfSome opened IsOpened }
    requires points { PointsAs (D.state disk.old) opened }
    ensures { CarriesOut intent opened (D.state disk.old) (D.state disk.new) (P.state depot.old) (P.state depot.new) result }
{
    match intent {
        Intent::Changes(next, answer) => replace(alloc, next, answer, opened, disk, depot),
        Intent::Answers(answer) => {
            let reply = Reply::Text(answer_text(alloc, answer)?);
            Ok(Applied { opened, reply })
        }
        Intent::Checks => check_files(alloc, opened, disk),
        Intent::Shows(held) => show(alloc, held, opened, disk),
        Intent::Refuses(refusal) => {
            let reply = Reply::Refused(refusal);
            Ok(Applied { opened, reply })
        }
    }
}

// Reads each file of the host, and answers how many there are.
fn check_files<D: Disk>(
    alloc: Global,
    opened: Option<Opened>,
    disk: &mut D,
) -> Result<Applied, ApplyErr>
    requires some { IsSome opened }
    requires opened { IfSome opened IsOpened }
    ensures rests { Rests (D.state disk.old) (D.state disk.new) }
    ensures met { IfOk result (λ applied. (applied.opened ≡ opened) × (refused_by applied.reply ≡ None)
        × AreAllAsListed opened (D.state disk.old)) }
    ensures replies { IfOk result (λ applied. IfSome opened (λ g. IsTextReply (checked_text g.host) applied.reply)) }
    ensures checks { BothTold (AppliesTold (λ s. Counts s) opened result) (D.state disk.old).told (D.state disk.new).told }
    ensures shown { IfOk result (λ applied. IsShownReply opened (D.state disk.old) (D.state disk.new) applied.reply) }
    ensures cause { IfErr result (RestCause opened (D.state disk.old) (D.state disk.new)) }
{
    let Some(opened) = opened else { unreachable!() };
    let (files, bytes) = check(alloc, disk, opened.host())?;
    let reply = Reply::Text(answer_text(alloc, Answer::Checked { files, bytes })?);
    let opened = Some(opened);
    Ok(Applied { opened, reply })
}

// Compares a file with its stamp, so that it can be written.
fn show<D: Disk>(
    alloc: Global,
    held: Held,
    opened: Option<Opened>,
    disk: &mut D,
) -> Result<Applied, ApplyErr>
    requires file { IsFileOf (trees_seen (host_before opened)) held }
    requires opened { IfSome opened IsOpened }
    ensures rests { Rests (D.state disk.old) (D.state disk.new) }
    ensures met { IfOk result (λ applied. (applied.opened ≡ opened) × (refused_by applied.reply ≡ None)
        × IsListed (body_told (D.state disk.old) held.body) held.stamp) }
    ensures replies { IfOk result (λ applied. IsHeldReply held applied.reply) }
    ensures shows { BothTold (AppliesTold (λ s outcome. outcome ≡ shows (bytes_at s held.body)) opened result)
        (D.state disk.old).told (D.state disk.new).told }
    ensures shown { IfOk result (λ applied. IsShownReply opened (D.state disk.old) (D.state disk.new) applied.reply) }
    ensures damaged { IfErr result (WhereDamaged (λ damage. IsKeptAs held damage.home damage.listed)) }
    ensures cause { IfErr result (RestCause opened (D.state disk.old) (D.state disk.new)) }
{
    verify(alloc, disk, &held)?;
    let reply = Reply::File(held);
    Ok(Applied { opened, reply })
}
