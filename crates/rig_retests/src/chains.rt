//! How a change passes from one tenant to another, step by step.

use crate::reaches::drives;
use crate::tables::Retests;
use plant_couplings::couplings::Plant;
use rig_model::config::{Config, TenantId};
use std::alloc::{AllocError, Global};

/// Through what a change passes from one tenant to the next.
#[derive(Clone, Copy, Debug, PartialEq, Eq)]
pub enum Through {
    /// Binds: the second tenant has the first as a source.
    Binds,
    /// The plant: what the first may drive can change what the second may read.
    Plant,
}

/// A step of a chain: a change of `source` reaches `tenant` directly.
#[derive(Clone, Copy, Debug, PartialEq, Eq)]
pub struct Step {
    pub tenant: TenantId,
    pub source: TenantId,
    pub through: Through,
}

// A tenant whose change can reach the first one, with the step to it. The tenant of the step is the source of an earlier node.
#[derive(Clone, Copy)]
struct Node {
    step: Step,
    before: usize,
}

/// Returns the steps from `tenant` to `source`, the tenant's own first, by a shortest chain. Empty if there is none.
///
/// # Errors
/// Out of memory.
pub fn chain_to(
    alloc: Global,
    config: &Config,
    plant: &Plant,
    retests: &Retests,
    tenant: TenantId,
    source: TenantId,
) -> Result<Vec<Step>, AllocError> {
    let nodes = nodes_from(alloc, config, plant, retests, tenant)?;
    let nodes = nodes.as_slice();
    match nodes.iter().position(|node| node.step.source == source) {
        Some(end) => steps_to(alloc, nodes, end),
        None => Ok(Vec::new(alloc)),
    }
}

// The nodes that can be reached from a tenant, those with the fewest steps first. The first one is the tenant itself.
fn nodes_from(
    alloc: Global,
    config: &Config,
    plant: &Plant,
    retests: &Retests,
    tenant: TenantId,
) -> Result<Vec<Node>, AllocError> {
    let tenants = config.tenants().len();
    let mut nodes = Vec::new(alloc);
    nodes.push(Node {
        step: Step {
            tenant,
            source: tenant,
            through: Through::Binds,
        },
        before: 0,
    })?;
    for before in 0..tenants {
        let Some(node) = nodes.get(before).copied() else {
            return Ok(nodes);
        };
        let tenant = node.step.source;
        for source in 0..tenants {
            let through = if retests.is_source(tenant, source) {
                Through::Binds
            } else if drives(config, plant, tenant, source) {
                Through::Plant
            } else {
                continue;
            };
            let step = Step {
                tenant,
                source,
                through,
            };
            add_node(&mut nodes, step, before)?;
        }
    }
    Ok(nodes)
}

// Adds a node, unless its tenant already has one.
fn add_node(nodes: &mut Vec<Node>, step: Step, before: usize) -> Result<(), AllocError> {
    if !nodes.iter().any(|node| node.step.source == step.source) {
        nodes.push(Node { step, before })?;
    }
    Ok(())
}

// The steps to a node, the first tenant's own first.
fn steps_to(alloc: Global, nodes: &[Node], end: usize) -> Result<Vec<Step>, AllocError> {
    let mut steps = Vec::new(alloc);
    let mut at = end;
    while at > 0 {
        let Some(node) = nodes.get(at) else {
            return Ok(steps);
        };
        steps.push(node.step)?;
        // Each node is after the one before it in the chain.
        at = node.before.min(at - 1);
    }
    steps.reverse();
    Ok(steps)
}
