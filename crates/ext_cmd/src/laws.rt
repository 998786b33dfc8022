//! Laws of words and their commands, each the contract of a function that does nothing: what holds of all words.
ghost use Rattle.ext_cmd.specs.Laws.{LineUsageWithin, NoLineUsage, NoUsage, NothingIsNoCommand, OneCommand, OneLineUsage, OneUsage};
ghost use Rattle.ext_cmd.specs.Laws.{ReadsBack, ReadsLineBack, ReadsOneLine, SomeLineUsage, SomeUsage, UsageWithin};

/// Words are those of one command, and reading them gives it.
pub fn words_are_of_one_command()
    ensures one { OneCommand }
    ensures read { ReadsBack }
{}

/// Words are those of a command, or they have one first fault, at a word or after the last: never both, and never neither.
pub fn words_have_one_first_fault()
    ensures one { OneUsage }
    ensures none { NoUsage }
    ensures some { SomeUsage }
    ensures within { UsageWithin }
{}

/// The text of a line counts for nothing, or its words are those of one command that may stand in a line, or they have a
/// fault: one of the three. Reading it gives that one, where memory suffices.
pub fn a_line_gives_one_thing()
    ensures nothing { NothingIsNoCommand }
    ensures one { ReadsOneLine }
    ensures read { ReadsLineBack }
{}

/// The words of a line are those of a command that may stand there, or they have one first fault, at a word or after the
/// last: never both, and never neither.
pub fn a_line_has_one_first_fault()
    ensures one { OneLineUsage }
    ensures none { NoLineUsage }
    ensures some { SomeLineUsage }
    ensures within { LineUsageWithin }
{}
