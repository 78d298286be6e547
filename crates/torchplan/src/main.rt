//! The program `torchplan`: hands the words of its command line, and the machine that it runs on, to `torch_plan`.
#![tactic(auto)]

use host_system::{Host, Progress, spare_descriptors, words_of};
use std::io;
use std::process::ExitCode;
use torch_plan::{Resources, answer};

fn main(rt: HostRuntime) -> ExitCode {
    let _taken = spare_descriptors(&rt);
    let progress = Progress::new(&rt);
    let host = Host::new(&rt, &progress);
    ExitCode::from(match words_of(&rt, &host) {
        Ok(words) => {
            let resources = Resources {
                threads: &rt,
                alloc: rt.alloc(),
                observer: &progress,
            };
            let mut output = io::writer(&rt);
            let (status, _kept) = answer(&resources, &host, &words, &mut output);
            status
        }
        Err(status) => status,
    })
}
