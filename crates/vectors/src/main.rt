// The same run as that of `frames`, over the list of frames whose answers the comparison has made: a
// program of its own, since each has its own recorded input.
#![tactic(auto)]

use pipe::Fault;

fn main(rt: HostRuntime) -> Result<(), Fault> {
    bench::run(&mut rt.stdin(), &mut rt.stdout())?;
    Ok(())
}
