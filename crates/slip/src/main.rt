// slip: works out what a shift is paid, by a rate sheet. `help.rt` says how it is asked.
//
// What the sheet prints goes to standard output and nothing else does; the report goes to standard error,
// and with `--report FILE` also to a file, for machines. The report of a shift, which prints nothing, is what goes
// to standard output there. The program ends with its status: 0 paid, or passed; 1 refused or stopped; 2 where the
// words do not serve, or something cannot be read or written.
#![tactic(auto)]

ghost use Rattle.std.specs.Prelude.{◌≤◌};
ghost use Rattle.std.specs.Process.{exit_status};

mod books;
mod combining;
mod job;
mod profiling;
mod rates;
mod serve;
mod shifts;
mod storing;

use desk::{Outside, arguments, output};
use std::process::ExitCode;

// Does what the words ask for, and answers with which status the program ends.
fn ended(rt: &impl Outside) -> ExitCode
    ensures { exit_status result ≤ 2 }
{
    let asked = arguments::read(rt);
    output::end(serve::serve(rt, asked))
}

fn main(rt: HostRuntime) -> ExitCode {
    ended(&rt)
}
