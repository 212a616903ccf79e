//! An input cut into lines, and the commands of its good lines.
ghost use Rattle.std.specs.Prelude.{◌≡◌, map, IfOk};
ghost use Rattle.std.specs.Option.{option_map};
ghost use Rattle.session_grammar.specs.Plain.{plain_command};
ghost use Rattle.tinymist_session.specs.Arguments.{plain_limits};
ghost use Rattle.tinymist_session.specs.Session as plain;

use std::alloc::Global;
use tinymist_session::{Command, Limits, read_command};
use ty_path::OutOfMemory;

/// All lines of the input. A rest without LF is one where it has a byte.
pub(crate) fn lines_of(alloc: Global, input: &[u8]) -> Result<Vec<Vec<u8>>, OutOfMemory>
    ensures { IfOk result (λ lines. map (λ l. l.items) lines.items ≡ plain.lines_of input.now) }
{
    let mut lines = Vec::new(alloc);
    let mut line = Vec::new(alloc);
    for b in input {
        if *b == b'\n' {
            lines.push(line)?;
            line = Vec::new(alloc);
        } else {
            line.push(*b)?;
        }
    }
    if !line.is_empty() {
        lines.push(line)?;
    }
    Ok(lines)
}

/// The commands of the lines before the first that isn't good.
pub(crate) fn good_commands(
    alloc: Global,
    limits: &Limits,
    lines: &[Vec<u8>],
) -> Result<Vec<Command>, OutOfMemory>
    ensures { IfOk result (λ commands. map plain_command commands.items ≡ plain.good_commands (plain_limits limits.now) (map (λ l. l.items) lines.now)) }
{
    let mut commands = Vec::new(alloc);
    for line in lines {
        let Some(command) = good_line(alloc, limits, line)? else {
            return Ok(commands);
        };
        commands.push(command)?;
    }
    Ok(commands)
}

/// The command of a line, where it isn't too long and is a command.
fn good_line(alloc: Global, limits: &Limits, line: &[u8]) -> Result<Option<Command>, OutOfMemory>
    ensures { IfOk result (λ said. option_map plain_command said ≡ plain.good_line (plain_limits limits.now) line.now) }
{
    if line.len() <= limits.max_line as usize {
        read_command(alloc, line)
    } else {
        Ok(None)
    }
}
