//! What stands around a picture: its size, its style, its title and its legend.

use crate::picture::Picture;
use ab_num::{OutOfMemory, Plan};
use ab_text::{Premise, write_premise};
use std::alloc::{AllocError, Global};

const STYLE: &[u8] = b"<style>
.lane{stroke:#000;stroke-width:1.3;fill:none}
.replica{stroke-width:3.4}
.faulty{stroke-dasharray:6 5}
.row{stroke:#ddd;stroke-width:1}
.number,.again{font-size:10px}
.number{text-anchor:end}
.plain{fill:#000}
.head{font-size:14px;font-weight:bold;text-anchor:middle}
.arrow{stroke:#333;stroke-width:1.1;fill:none;marker-end:url(#tip)}
.stub{stroke:#333;stroke-width:1.1;fill:none;marker-end:url(#cut)}
.name{font-size:10px;stroke:#fff;stroke-width:3;paint-order:stroke}
.left{text-anchor:end}
.cue{font-style:italic}
.hollow{stroke:#000;stroke-width:1.6;fill:#fff!important}
.thin{stroke:#000;stroke-width:1.4;fill:none!important}
.ring{stroke:#000;stroke-width:2;fill:none}
.badge{font-size:11px;font-weight:bold;fill:#fff;text-anchor:middle}
.panic{font-size:18px;font-weight:bold}
.red{fill:#c00;stroke:#c00}
text.red{stroke:none;font-weight:bold}
.i0{stroke:#555;fill:#555}
.i1{stroke:#1f5fa8;fill:#1f5fa8}
.i2{stroke:#b35900;fill:#b35900}
.i3{stroke:#2c7a2c;fill:#2c7a2c}
.i4{stroke:#6b3fa0;fill:#6b3fa0}
.i5{stroke:#0b7a75;fill:#0b7a75}
.i6{stroke:#a8326e;fill:#a8326e}
.i7{stroke:#6b4a2b;fill:#6b4a2b}
</style>
<defs><marker id=\"tip\" viewBox=\"0 0 10 10\" refX=\"14\" refY=\"5\" markerWidth=\"8\" markerHeight=\"8\" orient=\"auto\"><path d=\"M0 1 10 5 0 9z\"/></marker><marker id=\"cut\" viewBox=\"0 0 10 10\" refX=\"5\" refY=\"5\" markerWidth=\"7\" markerHeight=\"7\" orient=\"auto\"><path d=\"M5 0V10\" stroke=\"#333\" stroke-width=\"2\"/></marker></defs>
";

const LEGEND: &[u8] = b"<g font-size=\"11\">
<path class=\"arrow\" d=\"M24 76H62\"/><text x=\"70\" y=\"80\">delivered: message and packet</text>
<path class=\"stub\" d=\"M32 98H50\"/><text x=\"70\" y=\"102\">a packet that is not delivered</text>
<path class=\"lane faulty\" d=\"M24 120H62\"/><text x=\"70\" y=\"124\">a faulty party, or a twin of it</text>
<rect class=\"i2\" x=\"32\" y=\"133\" width=\"18\" height=\"18\" rx=\"8\"/><text class=\"badge\" x=\"41\" y=\"146\">2</text><text x=\"70\" y=\"146\">enters the instance (colour)</text>
<text class=\"red\" x=\"26\" y=\"168\">red</text><text x=\"70\" y=\"168\">what a broken premise names</text>
<path class=\"solid\" d=\"M360 76m-5 -6l10 6 -10 6z\"/><text x=\"388\" y=\"80\">invokes</text>
<circle class=\"ring\" cx=\"360\" cy=\"98\" r=\"8\"/><text x=\"388\" y=\"102\">commits</text>
<path class=\"ring\" d=\"M360 120m-10 -8h20v16h-20z\"/><text x=\"388\" y=\"124\">takes a certificate</text>
<path class=\"ring\" d=\"M360 142m-6 -6l12 12m0 -12l-12 12\"/><text x=\"388\" y=\"146\">refuses bytes</text>
<path class=\"ring\" d=\"M360 164m-8 0a8 8 0 1 0 16 0 8 8 0 1 0 -16 0m2 6l12 -12\"/><text x=\"388\" y=\"168\">has too few signatures left</text>
<rect x=\"653\" y=\"71\" width=\"10\" height=\"10\"/><text x=\"686\" y=\"80\">is given a command</text>
<circle class=\"hollow plain\" cx=\"658\" cy=\"98\" r=\"6\"/><path class=\"thin plain\" d=\"M658 93V98h4\"/><text x=\"686\" y=\"102\">its timer runs out</text>
<path class=\"hollow plain\" d=\"M658 120m-7 0l7 -7 7 7 -7 7z\"/><text x=\"686\" y=\"124\">is handed injected bytes</text>
<text class=\"panic\" x=\"655\" y=\"148\">!</text><text x=\"686\" y=\"146\">sends a PANIC</text>
</g>
";

fn plan_name(plan: Plan) -> &'static str {
    match plan {
        Plan::AZyzzyva => "azyzzyva",
        Plan::Aliph => "aliph",
        Plan::Quorum => "quorum",
        Plan::ZLight => "zlight",
        Plan::Chain => "chain",
        Plan::Backup => "backup",
        Plan::ZCert => "zcert",
    }
}

/// The beginning of the text, up to the style.
fn open_string(alloc: Global, width: u64, height: u64) -> Result<String, AllocError> {
    format!(in alloc;
        "<svg xmlns=\"http://www.w3.org/2000/svg\" xml:space=\"preserve\" width=\"{width}\" height=\"{height}\" viewBox=\"0 0 {width} {height}\" font-family=\"DejaVu Sans Mono, Menlo, Consolas, monospace\" font-size=\"12\">\n<rect width=\"{width}\" height=\"{height}\" fill=\"#fff\"/>\n"
    )
}

/// What the picture is of.
fn title_string(alloc: Global, picture: &Picture, all: u32) -> Result<String, AllocError> {
    let plan = plan_name(picture.cluster.plan);
    let f = picture.cluster.f;
    format!(in alloc;
        "<text x=\"24\" y=\"28\" font-size=\"16\" font-weight=\"bold\">plan {plan}, f {f}, {all} events</text>\n"
    )
}

/// A line of text where not all events are drawn.
fn cut_string(alloc: Global, drawn: usize, all: u32) -> Result<String, AllocError> {
    if drawn >= all as usize {
        return Ok(String::new(alloc));
    }
    format!(in alloc;
        "<text x=\"360\" y=\"28\" font-weight=\"bold\">Events 1 to {drawn} of {all} are drawn.</text>\n"
    )
}

/// Adds the premise line of the report.
fn add_premise(alloc: Global, out: &mut Vec<u8>, premise: &Premise) -> Result<(), OutOfMemory> {
    match premise {
        Premise::Held => out.extend_from_slice(b"<text x=\"24\" y=\"48\">")?,
        Premise::Broken { .. } => {
            out.extend_from_slice(b"<text class=\"red\" x=\"24\" y=\"48\">")?
        }
    }
    write_premise(alloc, out, premise)?;
    out.extend_from_slice(b"</text>\n")?;
    Ok(())
}

/// What comes before the parts of a picture.
pub(crate) fn add_head(
    alloc: Global,
    out: &mut Vec<u8>,
    picture: &Picture,
    all: u32,
    width: u64,
    height: u64,
) -> Result<(), OutOfMemory> {
    let open = open_string(alloc, width, height)?;
    out.extend_from_slice(open.as_bytes())?;
    out.extend_from_slice(STYLE)?;
    let title = title_string(alloc, picture, all)?;
    out.extend_from_slice(title.as_bytes())?;
    let cut = cut_string(alloc, picture.moments.len(), all)?;
    out.extend_from_slice(cut.as_bytes())?;
    add_premise(alloc, out, &picture.premise)?;
    out.extend_from_slice(LEGEND)?;
    Ok(())
}
