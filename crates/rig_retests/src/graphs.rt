//! The binds of a script and the couplings of its plant as a graph, for graphviz.

use crate::direct_binds::DirectBind;
use crate::routes::text_of_coupling;
use crate::tables::Retests;
use crate::texts::{bind_of_link, name_of, place_of_link};
use plant_couplings::couplings::Plant;
use rig_model::config::{Config, TenantId};
use std::alloc::{AllocError, Global};

// The beginning of each graph.
const HEAD: &str = "\
digraph retests {
  rankdir=LR;
";

// The label of a graph without a plant.
const UNDECLARED: &str =
    "  label=\"Through binds, a change of a tenant reaches at most those that arrows lead to.\\nThe plant is not declared: the change may also pass through it.\\n \";
";

// The label of a graph with a plant.
const DECLARED: &str =
    "  label=\"A change of a tenant calls for a retest of all that arrows lead to.\\nSolid: a bind. Dashed: through the plant, as it is declared.\\n \";
";

// How nodes and edges look.
const LOOK: &str = "  labelloc=t;
  fontname=\"sans-serif\";
  fontsize=12;
  nodesep=0.35;
  ranksep=0.9;
  node [shape=box, style=rounded, fontname=\"sans-serif\"];
  edge [fontname=\"sans-serif\", fontsize=10];
";

// How an edge through the plant looks.
const THROUGH_PLANT: &str = "style=dashed, color=steelblue, fontcolor=steelblue4";

/// Returns the graph in the language of graphviz.
///
/// It has a node for each tenant, a solid edge for each bind that existed just before an instant, from its supplier on, and if the plant is
/// declared, a dashed one for each of its couplings from a line that one tenant may drive to a line that another may read.
///
/// # Errors
/// Out of memory.
pub fn graph_of_retests(
    alloc: Global,
    config: &Config,
    plant: &Plant,
    retests: &Retests,
) -> Result<String, AllocError> {
    let mut text = String::from_str(alloc, HEAD)?;
    text.push_str(if plant.is_declared() {
        DECLARED
    } else {
        UNDECLARED
    })?;
    text.push_str(LOOK)?;
    for tenant in config.tenants() {
        let name = tenant.name.as_str();
        writeln!(text, "  \"{name}\";")?;
    }
    for bind in retests.direct_binds() {
        add_bind(alloc, &mut text, config, retests, bind)?;
    }
    if plant.is_declared() {
        add_couplings(alloc, &mut text, config, plant, retests)?;
    }
    text.push_str("}\n")?;
    Ok(text)
}

// The edge of a bind.
fn add_bind(
    alloc: Global,
    text: &mut String,
    config: &Config,
    retests: &Retests,
    bind: &DirectBind,
) -> Result<(), AllocError> {
    let head = name_of(config, bind.tenant);
    let tail = name_of(config, bind.link.supplier);
    let label = bind_of_link(alloc, config, &bind.link)?;
    let place = place_of_link(alloc, retests, &bind.link)?;
    writeln!(
        text,
        "  \"{tail}\" -> \"{head}\" [label=\"{label}\\n{place}\"];"
    )
}

// The edges through the plant.
fn add_couplings(
    alloc: Global,
    text: &mut String,
    config: &Config,
    plant: &Plant,
    retests: &Retests,
) -> Result<(), AllocError> {
    for tenant in 0..config.tenants().len() {
        for source in 0..config.tenants().len() {
            if tenant != source {
                add_couplings_of(alloc, text, config, plant, retests, tenant, source)?;
            }
        }
    }
    Ok(())
}

// The edges through the plant from what `source` may drive to what `tenant` may read.
fn add_couplings_of(
    alloc: Global,
    text: &mut String,
    config: &Config,
    plant: &Plant,
    retests: &Retests,
    tenant: TenantId,
    source: TenantId,
) -> Result<(), AllocError> {
    let tenants = config.tenants();
    let (Some(driver), Some(reader)) = (tenants.get(source), tenants.get(tenant)) else {
        return Ok(());
    };
    let (tail, head) = (driver.name.as_str(), reader.name.as_str());
    let look = THROUGH_PLANT;
    for &from in driver.budgets.writes.as_slice() {
        for &to in reader.budgets.reads.as_slice() {
            if plant.is_coupled(from, to) {
                let lines = retests.plant_lines();
                let label = text_of_coupling(alloc, lines, tenant, source, from, to)?;
                writeln!(
                    text,
                    "  \"{tail}\" -> \"{head}\" [label=\"{label}\", {look}];"
                )?;
            }
        }
    }
    Ok(())
}
