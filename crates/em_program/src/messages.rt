//! What `emake` says besides its jobs.
ghost use Rattle.std.specs.Prelude.{◌≡◌, IfOk};
ghost use Rattle.em_program.specs.Messages as messages;

use em_base::{NoMemory, Text};
use em_closing::stopped;
use em_image::{ImageNo, Which};
use em_insight::InsightNo;
use itoa::Buffer;
use std::alloc::Global;

pub const BAD_WORDS: &[u8] = b"emake: *** bad words.  Stop.\n";

pub const NO_IMAGE: &[u8] = b"emake: *** image: absent.  Stop.\n";

pub const STILL_CHANGING: &[u8] = b"emake: *** Makefiles still change after 8 readings.  Stop.\n";

pub const NO_REPORT: &[u8] = b"emake: *** report: absent.  Stop.\n";

fn limit_name(which: Which) -> &'static [u8]
    ensures { result.now ≡ messages.limit_name which }
{
    match which {
        Which::Image => b"Limit(Image)",
        Which::Nodes => b"Limit(Nodes)",
        Which::File => b"Limit(File)",
        Which::Stamp => b"Limit(Stamp)",
        Which::Link => b"Limit(Link)",
    }
}

fn fault_name(no: ImageNo) -> &'static [u8]
    ensures { result.now ≡ messages.fault_name no }
{
    match no {
        ImageNo::Form { .. } => b"Form",
        ImageNo::Number { .. } => b"Number",
        ImageNo::Path { .. } => b"Path",
        ImageNo::Order { .. } => b"Order",
        ImageNo::Parent { .. } => b"Parent",
        ImageNo::Short { .. } => b"Short",
        ImageNo::Rest { .. } => b"Rest",
        ImageNo::Limit { which, .. } => limit_name(which),
        ImageNo::NoMemory => b"",
    }
}

fn fault_place(no: ImageNo) -> u32
    ensures { result ≡ messages.fault_place no }
{
    match no {
        ImageNo::Form { at } | ImageNo::Number { at } | ImageNo::Path { at } => at,
        ImageNo::Order { at } | ImageNo::Parent { at } => at,
        ImageNo::Short { at } | ImageNo::Rest { at } | ImageNo::Limit { at, .. } => at,
        ImageNo::NoMemory => 0,
    }
}

/// Why the image isn't read, or isn't written.
pub fn image_line(alloc: Global, no: ImageNo) -> Result<Text, NoMemory>
    ensures { IfOk result (λ t. t ≡ messages.image_line no) }
{
    let mut buffer = Buffer::new();
    let mut text = Text::from_slice(alloc, b"image: ")?;
    text.add(fault_name(no))?;
    text.add(b" at byte ")?;
    text.add(buffer.format(fault_place(no)).as_bytes())?;
    stopped(alloc, text.bytes())
}

fn report_text(alloc: Global, at: usize) -> Result<Text, NoMemory>
    ensures { IfOk result (λ t. t ≡ messages.report_text at) }
{
    let mut buffer = Buffer::new();
    let mut text = Text::from_slice(alloc, b"report: Form at byte ")?;
    text.add(buffer.format(at).as_bytes())?;
    Ok(text)
}

/// At this byte no report goes on.
pub fn report_line(alloc: Global, at: usize) -> Result<Text, NoMemory>
    ensures { IfOk result (λ t. t ≡ messages.report_line at) }
{
    stopped(alloc, report_text(alloc, at)?.bytes())
}

fn insight_text(alloc: Global, no: InsightNo) -> Result<Text, NoMemory>
    ensures { IfOk result (λ t. t ≡ messages.insight_text no) }
{
    match no {
        InsightNo::Order(job) => {
            let mut buffer = Buffer::new();
            let mut text = Text::from_slice(alloc, b"report: job ")?;
            text.add(buffer.format(job).as_bytes())?;
            Ok(text)
        }
        InsightNo::Sum => Text::from_slice(alloc, b"report: too much fuel"),
        InsightNo::NoMemory => Ok(Text::new(alloc)),
    }
}

/// Why a report isn't looked into.
pub fn insight_line(alloc: Global, no: InsightNo) -> Result<Text, NoMemory>
    ensures { IfOk result (λ t. t ≡ messages.insight_line no) }
{
    stopped(alloc, insight_text(alloc, no)?.bytes())
}
