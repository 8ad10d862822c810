// Answers the frames of standard input.
#![tactic(auto)]

use pipe::Fault;

fn main(rt: HostRuntime) -> Result<(), Fault> {
    bench::run(&mut rt.stdin(), &mut rt.stdout())?;
    Ok(())
}
