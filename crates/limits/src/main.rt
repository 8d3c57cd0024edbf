// Runs the listing on many scripts: those of standard input, each behind a line `#name`, and some long ones. What it
// prints is compared with what the listings must be.
#![tactic(auto)]

mod long;

use crate::long::{noise, padded};
use script::run::listing;
use std::alloc::Global;
use std::io::Read;

fn main(rt: HostRuntime) -> anyhow::Result<()> {
    let heap = rt.alloc();
    let mut text = String::new(heap);
    rt.stdin().read_to_string(&mut text)?;
    for section in text.as_str().split('#') {
        if let Some((name, script)) = section.split_once('\n') {
            println!(rt; "#{name}")?;
            rt.print(listing(heap, script.as_bytes())?)?;
        }
    }
    long_scripts(&rt, heap)?;
    random_octets(&rt, heap)
}

// The last octet that counts is the 32,768th: what follows it can spoil no line.
fn long_scripts(rt: &impl Print, heap: Global) -> anyhow::Result<()> {
    for length in [32_767, 32_768, 32_769] {
        println!(rt; "#an opening that ends at octet {length}")?;
        rt.print(listing(heap, &padded(heap, length, 0)?)?)?;
    }
    for length in [32_768, 32_767] {
        println!(rt; "#an opening that ends at octet {length}, and an octet more")?;
        rt.print(listing(heap, &padded(heap, length, 1)?)?)?;
    }
    Ok(())
}

// Each line of any octets has one answer.
fn random_octets(rt: &impl Print, heap: Global) -> anyhow::Result<()> {
    for seed in 1..5u32 {
        let script = noise(heap, seed, 20_000)?;
        let lines = line_ends(&script);
        let answers = line_ends(listing(heap, &script)?.as_bytes());
        println!(rt; "#random octets: {lines} line ends, {answers} answers")?;
    }
    Ok(())
}

fn line_ends(octets: &[u8]) -> usize {
    octets.iter().filter(|octet| **octet == b'\n').count()
}
