// Replays calls on a head, one a line. What is stored for it is answered as another implementation does.
#![tactic(auto)]

use replay_script::run::run;
use std::io;

fn main(rt: HostRuntime) -> io::Result<()> {
    run(&rt)
}
