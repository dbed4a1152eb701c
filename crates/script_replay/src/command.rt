// What a line asks for.
ghost use Rattle.std.specs.Prelude.{◌≡◌};
ghost use Rattle.script_replay.specs.Script.{is_command, command};

use buffers::compare;
use text::parts;

#[derive(Clone, Copy)]
pub(crate) enum Command {
    Set,
    Get,
    Remove,
}

impl Command {
    // None where the line is none of the three.
    #[tactic(auto, unfolding(crate::specs::Script::command))]
    pub(crate) fn of(line: &[u8]) -> Option<Command>
        ensures { result ≡ command line.now }
    {
        if is_command(line, 5, b"set") {
            return Some(Command::Set);
        }
        if is_command(line, 2, b"get") {
            return Some(Command::Get);
        }
        if is_command(line, 2, b"remove") {
            return Some(Command::Remove);
        }
        None
    }
}

// Whether a line has so many fields, and this word is the first.
#[tactic(auto, unfolding(crate::specs::Script::is_command))]
fn is_command(line: &[u8], count: usize, word: &[u8]) -> bool
    ensures { result ≡ is_command line.now count word.now }
{
    if parts::field_count(line) != count {
        return false;
    }
    compare::bytes_equal(parts::field(line, 0), word)
}
