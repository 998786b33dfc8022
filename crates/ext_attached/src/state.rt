// Whether an image is attached.
ghost use Rattle.std.specs.Prelude.{◌≡◌};
ghost use Rattle.std.specs.List.{find, list_any};
ghost use Rattle.std.specs.Option.{option_copied};
ghost use Rattle.ext_attached.specs.Going.{is_of_name};
ghost use Rattle.ext_attached.specs.State.{state_of, state_with};

use ext_host::{Attachment, Host};

/// The state of an image of a portable service. After portablectl(1); the states of units that it also tells are left out.
#[derive(Clone, Copy, PartialEq, Eq)]
pub enum State {
    /// It is not attached.
    Detached,
    /// It is attached.
    Attached,
    /// It is attached until the host stops.
    AttachedRuntime,
}

/// The state of the image of this name: that of the attachment that has the name, `Detached` exactly where none has. It takes no
/// memory. After portablectl(1), command `is-attached`.
pub fn state_of(host: &Host, name: &[u8]) -> State
    ensures { result ≡ state_of host.now.attached name.now }
{
    state_with(attachment_of(host.attached.as_slice(), name))
}

/// Whether an attachment has this name.
pub fn is_attached(host: &Host, name: &[u8]) -> bool
    ensures { result ≡ list_any (is_of_name name.now) host.now.attached }
{
    let attached = host.attached.as_slice();
    attached
        .iter()
        .any(|attachment| is_of_name(attachment, name))
}

// The first attachment that has this name.
fn attachment_of<'a>(attached: &'a [Attachment], name: &[u8]) -> Option<&'a Attachment>
    ensures { option_copied result ≡ find (is_of_name name.now) attached.now }
{
    attached
        .iter()
        .find(|attachment| is_of_name(attachment, name))
}

// Whether the attachment has this name.
fn is_of_name(attachment: &Attachment, name: &[u8]) -> bool
    ensures { result ≡ is_of_name name.now attachment.now }
{
    attachment.name.bytes().cmp(name).is_eq()
}

/// The state of the image of an attachment, if there is one: `Detached` exactly where there is none.
pub fn state_with(attachment: Option<&Attachment>) -> State
    ensures { result ≡ state_with (option_copied attachment.entry) }
{
    match attachment {
        None => State::Detached,
        Some(attachment) => {
            if attachment.runtime {
                State::AttachedRuntime
            } else {
                State::Attached
            }
        }
    }
}
