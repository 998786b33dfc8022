use ext_reasons::Ending;
use ext_top::Status;

/// Prints the line of a status from 2 on, and the reason after it where somebody reads it. A fault in printing is ignored: the
/// number tells as much.
pub(crate) fn report(rt: &HostRuntime, ending: &Ending<Status>) {
    print_status(rt, ending.status());
    ending.print_reason(rt, &rt.stderr());
}

fn print_status(rt: &HostRuntime, status: &Status) {
    let _ = match status {
        Status::Done | Status::Refused(_) => Ok(()),
        Status::Usage { place } => eprintln!(rt; "hostext: usage {place}"),
        Status::ReadFault => rt.eprintln("hostext: read fault"),
        Status::WriteFault => rt.eprintln("hostext: write fault"),
        Status::DiskFault => rt.eprintln("hostext: disk fault"),
        Status::DepotFault => rt.eprintln("hostext: depot fault"),
        Status::OutOfMemory => rt.eprintln("hostext: out of memory"),
        Status::BadStore(_) => rt.eprintln("hostext: bad store"),
        Status::Unfinished => rt.eprintln("hostext: unfinished"),
        Status::TooLong => rt.eprintln("hostext: input too long"),
    };
}
