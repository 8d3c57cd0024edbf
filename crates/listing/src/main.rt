// The listing program: reads a script of events, and prints what the arbiter answers to each.
#![tactic(auto)]

use script::lines::MAX_OCTETS;
use script::run::listing;
use std::io::Read;

fn main(rt: HostRuntime) -> anyhow::Result<()> {
    let heap = rt.alloc();
    let mut input = Vec::new(heap);
    rt.stdin().take(MAX_OCTETS as u64).read_to_end(&mut input)?;
    rt.print(listing(heap, &input)?)?;
    Ok(())
}
