// Runs stored axis calls of a host and prints each with its answer: its name, its operands, after "=" the refusal, then
// numbers as words and flags as digits. A call on standard input is fourteen words: 1 for drag, 2 for step, 3 for wheel;
// bounds min and max, extent, decay_time, stop_distance, rubber_band; then offset, delta of a drag; offset, velocity, dt,
// hold of a step; offset, velocity, delta, source, can_chain_to_parent, dt, bounced of a wheel turn. What is printed is
// held to the oracle's answers, which egui's own scroll_physics.rs gave alike.
#![tactic(auto)]

mod call;
mod line;

use call::Call;
use std::io;
use std::io::{LineWriter, Write};
use streams::Records;

fn main(rt: HostRuntime) -> io::Result<()> {
    let mut out = LineWriter::new(rt.alloc(), io::writer(&rt))?;
    let mut calls = Records::<_, Call>::new(rt.reader(), rt.alloc());
    calls.try_for_each(|call| writeln!(out, "{}", call?.line()))
}
