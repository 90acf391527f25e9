//! What is true of commands and of how they are written.

ghost use Rattle.role_commands.specs.Laws.{CommandsAreRead, CommandsAreSpelled, SpellingsDiffer};
ghost use Rattle.role_commands.specs.Laws.{CommandsAreThemselves, SameCommandsAreOne, BytesDiffer, NineBytes};
ghost use Rattle.role_commands.specs.Numbers.{NumbersAreRead, NumbersAreSpelled};

/// A number has one spelling, and reading and writing it undo each other.
pub fn one_spelling_of_numbers()
    ensures read { NumbersAreRead }
    ensures spelled { NumbersAreSpelled }
{}

/// A command has one spelling in words, and reading and writing it undo each other.
pub fn one_spelling()
    ensures read { CommandsAreRead }
    ensures spelled { CommandsAreSpelled }
    ensures differ { SpellingsDiffer }
{}

/// `same_command` tells whether two commands are one.
pub fn sameness()
    ensures itself { CommandsAreThemselves }
    ensures one { SameCommandsAreOne }
{}

/// A command has nine bytes, which no other command has.
pub fn one_row()
    ensures differ { BytesDiffer }
    ensures nine { NineBytes }
{}
