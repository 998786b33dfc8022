// The keys whose values are numbers.
ghost use Rattle.ext_transfer.specs.declared.err.TransferFault.TheVariants as errors;
ghost use Rattle.std.specs.Prelude.{◌≡◌, ◌≤◌, ◌+◌, ◌-◌, ◌*◌, ◌&&◌, nat_le, Some, IfSome, if◌then◌else◌};
ghost use Rattle.std.specs.Option.{option_copied};
ghost use Rattle.ext_transfer.specs.Fault.{GivesOrFaults, or_fault};
ghost use Rattle.ext_transfer.specs.Numbers.{are_instances, bits_and_digit, bits_and_digits, instances_of, instances_set, is_octal_digit, mode_of, mode_set};

use crate::err::{TransferErr, TransferFault, bad};
use ext_ini::Setting;
use ext_lines::read_decimal;
use ext_text::Mode;

/// The mode of a file where none is set.
const DEFAULT_MODE: u16 = 0o644;

/// The most digits of a mode.
const MOST_DIGITS: usize = 5;

/// The most permission bits.
const MOST_BITS: u16 = 0o7777;

/// The number of instances where none is set.
const DEFAULT_INSTANCES: u32 = 2;

/// The most instances.
const MOST_INSTANCES: u64 = 1_000_000;

// `0` to `7`.
fn is_octal_digit(byte: u8) -> bool
    ensures { result ≡ is_octal_digit byte }
{
    b'0' <= byte && byte <= b'7'
}

// The permission bits with one octal digit more.
fn bits_and_digit(bits: u16, byte: u8) -> Option<u16>
    requires { bits ≤ 4095 }
    ensures value { result ≡ bits_and_digit bits byte }
    ensures within { IfSome result (λ more. more ≤ 4095) }
{
    if !is_octal_digit(byte) {
        return None;
    }
    let more = bits * 8 + u16::from(byte - b'0');
    if more <= MOST_BITS { Some(more) } else { None }
}

// The permission bits that octal digits write.
fn bits_of(digits: &[u8]) -> Option<u16>
    ensures value { result ≡ bits_and_digits 0 digits.now }
    ensures within { IfSome result (λ bits. bits ≤ 4095) }
{
    let mut bits = 0;
    let mut rest = digits;
    'digits: loop {
        match rest.split_first() {
            None => return Some(bits),
            Some((digit, after)) => {
                bits = bits_and_digit(bits, *digit)?;
                rest = after;
            }
        }
    }
}

// The mode that 1 to 5 octal digits write.
fn mode_of(text: &[u8]) -> Option<Mode>
    ensures { result ≡ mode_of text.now }
{
    if text.is_empty() || text.len() > MOST_DIGITS {
        return None;
    }
    Mode::new(bits_of(text)?)
}

// Mode= of [Target].
pub(crate) fn mode(setting: Option<&Setting>) -> Result<Mode, TransferErr>
    ensures { GivesOrFaults result (mode_set (option_copied setting.entry)) }
{
    match setting {
        None => mode_or_fault(Mode::new(DEFAULT_MODE), 0),
        Some(setting) => mode_or_fault(mode_of(setting.value.bytes()), setting.line),
    }
}

// A mode, if there is one.
fn mode_or_fault(mode: Option<Mode>, line: u64) -> Result<Mode, TransferErr>
    ensures { GivesOrFaults result (or_fault mode line errors.Mode) }
{
    match mode {
        None => Err(bad(line, TransferFault::Mode)),
        Some(mode) => Ok(mode),
    }
}

// The number of instances that decimal digits write.
fn instances_of(text: &[u8]) -> Option<u32>
    ensures { result ≡ instances_of text.now }
{
    match read_decimal(text, MOST_INSTANCES) {
        None => None,
        Some(number) => if number >= 2 {
            Some(number as u32)
        } else {
            None
        },
    }
}

// InstancesMax= of [Target].
pub(crate) fn instances(setting: Option<&Setting>) -> Result<u32, TransferErr>
    ensures { GivesOrFaults result (instances_set (option_copied setting.entry)) }
{
    match setting {
        None => Ok(DEFAULT_INSTANCES),
        Some(setting) => match instances_of(setting.value.bytes()) {
            None => Err(bad(setting.line, TransferFault::Instances)),
            Some(instances) => Ok(instances),
        },
    }
}
