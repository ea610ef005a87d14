//! A command line program over constraints on a trace: JSON on standard input, one line of JSON on
//! standard output. What its commands are is the library `stark_commands`.
#![tactic(auto)]

ghost use Rattle.std.specs.Prelude.{◌≡◌, ◌⊎◌, IfErr};
ghost use Rattle.circle_commands.specs.declared.failure.Failure.TheVariants.{Memory, Usage};
ghost use Rattle.stark_commands.specs.declared.failure.Failure.TheVariants.{Common as CommonFailure};

use circle_commands::Failure as Common;
use stark_commands::Failure;
use stark_commands::run::{refuse, run};
use std::alloc::{AllocError, Global};
use std::env::{self, Args};
use std::io::ErrorKind;
use std::process::ExitCode;

fn main(rt: HostRuntime) -> ExitCode {
    let mut output = rt.stdout();
    let status = match arguments(&rt) {
        Ok(args) => run(rt.alloc(), &args, &mut rt.stdin(), &mut output),
        Err(failure) => refuse(&failure, &mut output),
    };
    ExitCode::from(status)
}

// The arguments after the program's name.
fn arguments(rt: &HostRuntime) -> Result<Vec<String>, Failure>
    ensures { IfErr result (λ failure. (failure ≡ CommonFailure Memory)
        ⊎ (failure ≡ CommonFailure Usage)) }
{
    match env::args(rt) {
        Ok(args) => Ok(after_first(rt.alloc(), args)?),
        Err(error) if error.kind() == ErrorKind::OutOfMemory => {
            Err(Failure::Common(Common::Memory))
        }
        Err(_) => Err(Failure::Common(Common::Usage)),
    }
}

// All of these but the first.
fn after_first(alloc: Global, args: Args) -> Result<Vec<String>, AllocError> {
    let mut others = Vec::new(alloc);
    for arg in args.skip(1) {
        others.push(arg)?;
    }
    Ok(others)
}
