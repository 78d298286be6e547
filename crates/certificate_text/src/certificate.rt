//! The text of a certificate.
ghost use Rattle.std.specs.Io.KnownBytes.{Appends};
ghost use Rattle.std.specs.Prelude.{◌≡◌, OnOk, OnErr};
ghost use Rattle.certificate_text.specs.PlanOf.{plan_of, plans_of};
ghost use Rattle.certificate_text.specs.Planned as planned;
ghost use Rattle.certificate_text.specs.Sections.{AreWritable, IsWritable, body_text};
ghost use Rattle.certificate_text.specs.Sections.{section_text};
ghost use Rattle.certificate_text.specs.Sending.{IsSent};
ghost use Rattle.certificate_text.specs.Writing.{AppendsFront};

use crate::fault::WriteFault;
use crate::heading::heading;
use crate::sections::put_section;
use crate::sink::Sink;
use crate::versions::least_version;
use cave_model::World;
use instance_regions::{Cover, Region};
use proof_tree::Proof;
use std::alloc::Global;
use std::io::Write;
use std::sync::Arc;

/// A planned region: a cover of it, and a tree which proves that none is smaller.
pub type Planned = (Arc<Region>, Cover, Proof);

/// The number of the first version that can say all: the second where more light is needed.
fn version_needed(world: &World, parts: &[Planned]) -> u8
    ensures { result ≡ planned.version_needed world.now.rule.need (plans_of parts.now) }
{
    let mut version = if world.need() == 1 { 1 } else { 2 };
    for part in parts {
        version = part_version(part).max(version);
    }
    version
}

/// The number of the first version that knows each node of the region's tree.
fn part_version(part: &Planned) -> u8
    ensures { result ≡ planned.version_for (plan_of part.now).tree }
{
    let (_, _, proof) = part;
    least_version(proof)
}

/// Puts the lines of one region behind what is on its way.
fn put_part<W: Write>(sink: &mut Sink<'_, W>, part: &Planned) -> Result<(), WriteFault>
    requires { IsWritable (plan_of part.now) }
    ensures { IsSent W.contents result sink.old sink.new (section_text (plan_of part.now)) }
{
    let (region, cover, proof) = part;
    put_section(sink, region, cover, proof)
}

/// Puts the lines of all regions and the last line behind what is on its way.
fn put_body<W: Write>(sink: &mut Sink<'_, W>, parts: &[Planned]) -> Result<(), WriteFault>
    requires { AreWritable (plans_of parts.now) }
    ensures { IsSent W.contents result sink.old sink.new (body_text (plans_of parts.now)) }
{
    for part in parts {
        put_part(sink, part)?;
    }
    sink.put_text("end\n")
}

/// Puts the whole certificate behind what is on its way.
fn put_certificate<W: Write>(
    sink: &mut Sink<'_, W>,
    world: &World,
    parts: &[Planned],
) -> Result<(), WriteFault>
    requires { AreWritable (plans_of parts.now) }
    ensures { IsSent W.contents result sink.old sink.new
        (planned.certificate_text world.now (plans_of parts.now)) }
{
    let version = version_needed(world, parts);
    let heading = heading(sink.alloc, world, parts.len(), version)?;
    sink.put_text(heading.as_str())?;
    put_body(sink, parts)
}

/// Writes the certificate of a plan: its regions, each with its torches and its tree, in the first version that can say
/// all (the text is this project's own). Torches and the cells of leaves are written in
/// order. Its text never stands whole in memory.
pub fn write_certificate<W: Write>(
    alloc: Global,
    writer: &mut W,
    world: &World,
    parts: &[Planned],
) -> Result<(), WriteFault>
    requires { planned.AreBestOf world.now (plans_of parts.now) }
    // The writer took that text and nothing else.
    ensures done { OnOk result (Appends (W.contents writer.old) (W.contents writer.new)
        (planned.certificate_text world.now (plans_of parts.now))) }
    // A fault leaves a beginning of it, and not all.
    ensures begun { OnErr result (AppendsFront (W.contents writer.old) (W.contents writer.new)
        (planned.certificate_text world.now (plans_of parts.now))) }
{
    let mut buffer = String::new(alloc);
    let mut sink = Sink {
        alloc,
        writer,
        buffer: &mut buffer,
    };
    put_certificate(&mut sink, world, parts)?;
    sink.flush()
}
