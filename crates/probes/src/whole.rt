//! A whole plan by one worker, with what the program prints nowhere: how many turns it took.
use crate::rule_of;
use std::fs::File;
use std::sync::atomic::{AtomicU64, Ordering};
use std::test::Fail;
use torch_plan::{Name, Observer, OpenSides, Outcome, Resources, Watcher, run_plan_alone};

/// How many turns the searches of all regions took, and how many regions there are.
#[derive(Drop)]
struct Counts {
    turns: AtomicU64,
    regions: AtomicU64,
}

impl Observer for Counts {
    fn region(&self, _number: usize, count: usize) {
        self.regions.store(count as u64, Ordering::SeqCst);
    }

    fn turn(&self, _size: u64, _aim: u64) {
        self.turns.fetch_add(1, Ordering::SeqCst);
    }

    fn enter(&self, _worker: u32, _name: &Name) {}
}

impl Watcher for Counts {
    fn opened(&self, _sides: &OpenSides) {}
}

/// Plans the cave in the file under this version's rule, with `limit` turns a region or any number of them, writes the
/// proof to `out`, and prints the first two lines of the plan, the regions, and the turns: of all regions together, and
/// of that with the most.
pub fn run(
    rt: &HostRuntime,
    path: &str,
    out: &str,
    version: &str,
    limit: Option<u64>,
) -> Result<(), Fail> {
    let alloc = rt.alloc();
    let counts = Counts {
        turns: AtomicU64::new(0),
        regions: AtomicU64::new(0),
    };
    let resources = Resources {
        threads: rt,
        alloc,
        observer: &counts,
    };
    let mut text = Vec::new(alloc);
    let mut reader = File::open(rt, path)?;
    let mut proof = File::create(rt, out)?;
    let rule = rule_of(version);
    let ended = run_plan_alone(
        &resources,
        &mut reader,
        None,
        rule,
        limit,
        &mut text,
        &mut proof,
    )?;
    let text = str::from_utf8(&text)?;
    for line in text.lines().take(2) {
        println!(rt; "{line}")?;
    }
    let regions = counts.regions.load(Ordering::SeqCst);
    let turns = counts.turns.load(Ordering::SeqCst);
    let (Outcome::Done { turns: most } | Outcome::Stopped { turns: most }) = ended;
    println!(rt; "regions {regions}")?;
    println!(rt; "turns {turns}, {most} at most")?;
    Ok(())
}
