// Commands are compared whole.
ghost use Rattle.std.specs.Prelude.{◌≡◌};
ghost use Rattle.commands.specs.Rules.{same_command};

use crate::command::Command;

// Whether a is the same command as b, with all that it carries.
pub fn same_command(a: Command, b: Command) -> bool
    ensures { result ≡ same_command a b }
{
    a == b
}
