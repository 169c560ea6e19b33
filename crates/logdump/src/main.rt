//! Prints what a captured log holds: `logdump FILE N`, for a cluster of N nodes.
#![tactic(auto)]

mod report;

use anyhow::{Context, anyhow, bail};
use quorum::MAX_NODES;
use report::print_log;
use std::process::ExitCode;
use std::{env, fs};

fn main(rt: HostRuntime) -> ExitCode {
    match run(&rt) {
        Ok(()) => ExitCode::SUCCESS,
        Err(error) => {
            let _ = eprintln!(rt; "logdump: {error}");
            ExitCode::FAILURE
        }
    }
}

fn run(rt: &HostRuntime) -> anyhow::Result<()> {
    let mut args = env::args(rt)?;
    let _program = args.next();
    let (Some(file), Some(nodes), None) = (args.next(), args.next(), args.next()) else {
        bail!("usage: logdump FILE N");
    };
    let nodes = nodes
        .parse::<u8>()
        .ok()
        .filter(|nodes| *nodes <= MAX_NODES)
        .context("N is not a number of nodes from 0 to 16")?;
    let bytes = fs::read(rt, &file).map_err(|error| anyhow!("cannot read {file}: {error}"))?;
    print_log(rt, &bytes, nodes)?;
    Ok(())
}
