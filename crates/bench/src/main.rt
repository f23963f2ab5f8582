//! What parts of the disk cost, by the first word: `frames`, `layer`, `space` or `turn`.
//!
//! The scripts of `bench/` run it. With no words it makes a few calls of the space and of the turn, and prints only what
//! they added up to.
#![tactic(auto)]

mod counter;
mod frames;
mod layer;
mod race;
mod sequence;
mod space;
mod turn;

use std::{env, io};

fn main(rt: HostRuntime) -> io::Result<()> {
    let mut words = env::args(&rt)?.skip(1);
    let Some(word) = words.next() else {
        space::add_up(&rt)?;
        return turn::add_up(&rt, rt.alloc());
    };
    match word.as_str() {
        "frames" => frames::measure(&rt, words.next()),
        "layer" => {
            let file = words.next();
            let which = words.next();
            let len = words.next();
            let calls = words.next();
            layer::measure(&rt, file, which, len, calls, words.next())
        }
        "space" => {
            let tracks = words.next();
            space::measure(&rt, tracks, words.next())
        }
        "turn" => {
            let calls = turn::calls_in(words.next());
            for word in words {
                turn::measure(&rt, rt.alloc(), calls, &word)?;
            }
            Ok(())
        }
        _ => Ok(()),
    }
}
