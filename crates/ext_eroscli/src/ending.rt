use ext_mount::ImageStatus;
use ext_reasons::Ending;

/// Prints the line of a status from 2 on, and the reason after it where somebody reads it. A fault in printing is ignored: the
/// number tells as much.
pub(crate) fn report(rt: &HostRuntime, ending: &Ending<ImageStatus>) {
    print_status(rt, ending.status());
    ending.print_reason(rt, &rt.stderr());
}

fn print_status(rt: &HostRuntime, status: &ImageStatus) {
    let _ = match status {
        ImageStatus::Done | ImageStatus::Refused(_) => Ok(()),
        ImageStatus::Usage { place } => eprintln!(rt; "hostext: usage {place}"),
        ImageStatus::WriteFault => rt.eprintln("hostext: write fault"),
        ImageStatus::DiskFault => rt.eprintln("hostext: disk fault"),
        ImageStatus::OutOfMemory => rt.eprintln("hostext: out of memory"),
        ImageStatus::BadStore { .. } => rt.eprintln("hostext: bad store"),
    };
}
