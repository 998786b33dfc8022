//! Laws of transfer files, each the contract of a function that does nothing.
ghost use Rattle.ext_transfer.specs.Laws.{DoubledStandsForText, PlainStaysPlain, TransferOrFault};

use ext_ini::laws::the_first_refused_whole_line_is_the_fault;

/// A file says one transfer on a host, or has one first fault. This is what reading gives, but where memory runs out.
pub fn a_file_has_a_transfer_or_a_fault()
    ensures { TransferOrFault }
{
    the_first_refused_whole_line_is_the_fault();
}

/// A text without `%` stands for itself. So does a text of which each `%` is written twice, once for the other: what stands for
/// a specifier is not looked at again.
pub fn what_stands_for_a_specifier_is_not_looked_at_again()
    ensures plain { PlainStaysPlain }
    ensures doubled { DoubledStandsForText }
{}
