// Runs scenarios over a head and a line of bench ONUs.
#![tactic(auto)]

use crate::script::run;
use std::{env, io};

mod command;
mod desk;
mod floor;
mod kept;
mod life;
mod lives;
mod missed;
mod picture;
mod script;
mod spacing;
mod stretch;
mod svg;
mod tally;
mod watch;
mod work;

const HELP: &str = "floor    scenarios on standard input, run over a head and a line of bench ONUs
It takes no arguments. Lines: scenario NAME; onu PORT SERIAL TRIP; fibre, loss, trip, power, signal, cut, mend PORT ..;
feeder, feederloss ..; setup GUARD PATTERN FIRST CALENDAR; enter PLACE SERIAL; hold, release, look PLACE;
run FRAMES [late 0..3]; send; settle [newest]; miss SLOT FRAMES; picture FRAME; show; progress on|off;
svg FROM TO; life PLACE
";

fn main(rt: HostRuntime) -> io::Result<()> {
    let mut args = env::args(&rt)?.skip(1);
    match args.next() {
        None => run(&rt),
        Some(_) => rt.print(HELP),
    }
}
