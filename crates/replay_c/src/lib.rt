// The player for C, which gives it a `main` (programs/replay.c).
#![tactic(auto)]

ghost use Rattle.std.specs.Prelude.{◌≤◌};

use std::io;

// From standard input to standard output, with the answer of `play_script_flushed`. The handles have no bytes: in C this is
// `uint32_t securestore_replay(void)`.
#[unsafe(no_mangle)]
pub extern "C" fn securestore_replay(input: io::Stdin, output: io::Stdout) -> u32
    ensures { result ≤ 2 }
{
    replay::play_script_flushed(input, output)
}
