//! A command as each begins.

ghost use Rattle.std.specs.Prelude.{[]};
ghost use Rattle.command_table.specs.Commands as table;

use clap::Command;
use std::alloc::Global;

/// A command without operands or options, with these words about it.
pub(crate) fn bare<'a>(alloc: Global, name: &'a str, about: &'a str, help: &'a str) -> Command<'a>
    ensures { table.IsDeclared (table.command name.now []) result }
{
    Command::new(alloc, name).about(about).after_help(help)
}
