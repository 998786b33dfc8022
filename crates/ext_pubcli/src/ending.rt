use ext_publish::PubStatus;
use ext_reasons::Ending;

/// Prints the line of a status from 2 on, and the reason after it where somebody reads it. A fault in printing is ignored: the
/// number tells as much.
pub(crate) fn report(rt: &HostRuntime, ending: &Ending<PubStatus>) {
    print_status(rt, ending.status());
    ending.print_reason(rt, &rt.stderr());
}

fn print_status(rt: &HostRuntime, status: &PubStatus) {
    let _ = match status {
        PubStatus::Done | PubStatus::Refused(_) => Ok(()),
        PubStatus::Usage { place } => eprintln!(rt; "hostext: usage {place}"),
        PubStatus::WriteFault => rt.eprintln("hostext: write fault"),
        PubStatus::DiskFault => rt.eprintln("hostext: disk fault"),
        PubStatus::OutFault => rt.eprintln("hostext: out fault"),
        PubStatus::OutOfMemory => rt.eprintln("hostext: out of memory"),
        PubStatus::BadStore(_) => rt.eprintln("hostext: bad store"),
        PubStatus::Unfinished => rt.eprintln("hostext: unfinished"),
    };
}

/// Tells how many of the published files only their owner may read on the host, where there are some, or that it isn't known.
pub(crate) fn tell_owners(rt: &HostRuntime, count: Option<u64>) {
    let _ = match count {
        Some(0) => Ok(()),
        Some(count) => {
            eprintln!(rt;
                "hostext: published are also files that only their owner may read on the host: {count}"
            )
        }
        None => rt.eprintln(
            "hostext: couldn't tell how many of these files only their owner may read",
        ),
    };
}
