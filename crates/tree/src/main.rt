// Runs scripts over a line of bench ONUs. What is stored for it is answered as another implementation does.
#![tactic(auto)]

use std::io;
use tree_script::run::run;

fn main(rt: HostRuntime) -> io::Result<()> {
    run(&rt)
}
