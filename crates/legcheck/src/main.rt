#![tactic(auto)]

use anyhow::ensure;
use files::{File, Files};
use report::report;
use std::io::{ErrorKind, Read, Write};
use std::{env, fs, io};

// How many bytes of a file are read: one more than it may have, so that a longer one is seen.
fn limit(file: File) -> u64 {
    match file {
        File::Terrain => 33283,
        File::Nodes | File::Areas | File::Legs => 65537,
    }
}

// The bytes of a file up to its limit; none where there is no such file.
fn load(rt: &HostRuntime, folder: &str, file: File) -> io::Result<Vec<u8>> {
    let mut bytes = Vec::new(rt.alloc());
    let path = format!(in rt.alloc(); "{folder}/{file}")?;
    match fs::open(rt, path.as_str()) {
        Ok(opened) => {
            let _ = opened.take(limit(file)).read_to_end(&mut bytes)?;
            Ok(bytes)
        }
        Err(error) if error.kind() == ErrorKind::NotFound => Ok(bytes),
        Err(error) => Err(error),
    }
}

// The folder that is named by the only argument, or the current one.
fn folder(rt: &HostRuntime) -> anyhow::Result<String> {
    let mut words = env::args(rt)?;
    // a match, since the `?` of the second arm leaves the function
    let folder = match words.nth(1) {
        Some(word) => word,
        None => String::from_str(rt.alloc(), ".")?,
    };
    ensure!(words.next().is_none(), "usage: legcheck [FOLDER]");
    Ok(folder)
}

fn run(rt: &HostRuntime) -> anyhow::Result<()> {
    let folder = folder(rt)?;
    let nodes = load(rt, folder.as_str(), File::Nodes)?;
    let areas = load(rt, folder.as_str(), File::Areas)?;
    let terrain = load(rt, folder.as_str(), File::Terrain)?;
    let legs = load(rt, folder.as_str(), File::Legs)?;
    let output = report(
        rt.alloc(),
        Files {
            nodes: &nodes,
            areas: &areas,
            terrain: &terrain,
            legs: &legs,
        },
    )?;
    rt.stdout().write_all(&output.text)?;
    ensure!(
        output.fault.is_none(),
        "refused: the fault stands on standard output"
    );
    Ok(())
}

fn main(rt: HostRuntime) -> anyhow::Result<()> {
    run(&rt)
}
